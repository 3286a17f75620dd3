// The words of a job, and its rounds.
use anyhow::{Context, Result};
use std::fs;
use std::time::{Duration, Instant};

/// The words that a job is given, its name first.
#[derive(Drop)]
pub(crate) struct Given<'a> {
    pub(crate) rt: HostRuntime,
    pub(crate) words: &'a [&'a str],
}

impl<'a> Given<'a> {
    /// The word at this place, or an error that says what is missing.
    pub(crate) fn word(&self, at: usize, what: &'static str) -> Result<&'a str> {
        let word = self
            .words
            .get(at)
            .context(format_args!("{what} is missing"))?;
        Ok(*word)
    }

    /// The bytes of the file that the word at this place names.
    pub(crate) fn bytes(&self, at: usize, what: &'static str) -> Result<Vec<u8>> {
        let name = self.word(at, what)?;
        Ok(fs::read(&self.rt, name)?)
    }

    /// The text of the file that the word at this place names.
    pub(crate) fn text(&self, at: usize, what: &'static str) -> Result<String> {
        let name = self.word(at, what)?;
        Ok(fs::read_to_string(&self.rt, name)?)
    }

    /// How often the word at this place says that the job is done.
    pub(crate) fn rounds(&self, at: usize) -> Result<Rounds> {
        let word = self.word(at, "a number of rounds")?;
        Ok(Rounds {
            rt: self.rt,
            count: word.parse::<u32>()?,
        })
    }
}

/// How often a job is done. Of 0 rounds one is made, which is told to take no time.
#[derive(Clone, Copy)]
pub(crate) struct Rounds {
    rt: HostRuntime,
    count: u32,
}

impl Rounds {
    /// How many rounds are made.
    pub(crate) fn count(&self) -> u32 {
        self.count.max(1)
    }

    pub(crate) fn start(&self) -> Result<Instant> {
        Ok(Instant::now(&self.rt)?)
    }

    /// How long it is since then, as it is told.
    pub(crate) fn since(&self, start: Instant) -> Result<Duration> {
        if self.count == 0 {
            return Ok(Duration::ZERO);
        }
        Ok(start.elapsed(&self.rt)?)
    }

    /// The least time of a round of a call, and what the last one answered.
    pub(crate) fn least<T: Drop, F: Fn() -> Result<T>>(&self, call: F) -> Result<(Duration, T)>
        requires { F.IsAlwaysCallable call }
    {
        let mut least = Duration::MAX;
        let mut last = None;
        for _ in 0..self.count() {
            drop(last);
            let start = self.start()?;
            let answer = call()?;
            least = least.min(self.since(start)?);
            last = Some(answer);
        }
        Ok((least, last.context("a round")?))
    }
}

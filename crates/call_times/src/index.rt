//! `index OPERATIONS ROUNDS`: makes sets of operations by single inserts, and joins three of them,
//! apart and overlapping. It tells what the sets hold and show, and on a second line the least
//! microseconds of a round for each of these.
ghost use Rattle.std.specs.Prelude.{IfOk, IsTrue};
ghost use Rattle.op_core.specs.Ops.{is_full};

use crate::rounds::{Given, Rounds};
use anyhow::{Context, Result};
use op_core::{Op, OpId, OpSet, ReplicaName, names_fall};
use std::alloc::Global;
use std::time::Duration;
use usfm_ref::{Book, Key, Place};
use verse_cut::fits;

const BOOKS: [&str; 8] = ["MAT", "MRK", "LUK", "JHN", "ACT", "ROM", "1CO", "2CO"];

// Between which tenths of the operations each of three sets lies.
const APART: [u64; 6] = [0, 6, 6, 9, 9, 10];

const OVERLAPPING: [u64; 6] = [0, 6, 3, 9, 5, 10];

pub(crate) fn told(given: &Given<'_>) -> Result<String> {
    let alloc = given.rt.alloc();
    let count = given.word(1, "a number of operations")?.parse::<u64>()?;
    let rounds = given.rounds(2)?;
    let (inserts, set) = rounds.least(|| set_of(alloc, count, 0, count))?;
    let by_inserts = sum_of(&set);
    drop(set);
    let (first, apart, set) = join_time(alloc, rounds, count, APART)?;
    let by_joins = sum_of(&set);
    drop(set);
    let (_, overlapping, set) = join_time(alloc, rounds, count, OVERLAPPING)?;
    Ok(format!(in alloc;
        "{} {} {by_joins} {by_inserts}\ninserts {} first {} apart {} overlapping {}",
        set.len(),
        sum_of(&set),
        inserts.as_micros(),
        first.as_micros(),
        apart.as_micros(),
        overlapping.as_micros()
    )?)
}

// The least time of joining the first of three sets into an empty one, and of joining all, and
// what is joined.
fn join_time(
    alloc: Global,
    rounds: Rounds,
    count: u64,
    tenths: [u64; 6],
) -> Result<(Duration, Duration, OpSet)> {
    let mut set = OpSet::new(alloc);
    let mut first = Duration::MAX;
    let mut all = Duration::MAX;
    for _ in 0..rounds.count() {
        let bound = |tenth: u64| (count / 10).wrapping_mul(tenth);
        let one = set_of(alloc, count, bound(tenths[0]), bound(tenths[1]))?;
        let two = set_of(alloc, count, bound(tenths[2]), bound(tenths[3]))?;
        let three = set_of(alloc, count, bound(tenths[4]), bound(tenths[5]))?;
        set = OpSet::new(alloc);
        let start = rounds.start()?;
        set.join(one)?;
        first = first.min(rounds.since(start)?);
        set.join(two)?;
        set.join(three)?;
        all = all.min(rounds.since(start)?);
    }
    Ok((first, all, set))
}

// The operations of the numbers above `from` up to `to`, added one by one. Two thirds begin a
// segment, and the others go over what a segment shows.
fn set_of(alloc: Global, count: u64, from: u64, to: u64) -> Result<OpSet> {
    let places = count.wrapping_mul(2) / 3 + 1;
    let mut shown = Vec::new(alloc);
    for _ in 0..places {
        shown.push(0)?;
    }
    let mut set = OpSet::new(alloc);
    let mut random = 12345u64;
    for number in 1..to.wrapping_add(1) {
        random = random
            .wrapping_mul(6364136223846793005)
            .wrapping_add(1442695040888963407);
        let at = if number <= places {
            number.wrapping_sub(1)
        } else {
            (random / 65536).checked_rem(places).context("no places")?
        };
        let last = shown.get_mut(at as usize).context("a place")?;
        let before = *last;
        *last = number;
        if number > from {
            set.insert(op_of(alloc, number, at, places, before)?)?;
        }
    }
    Ok(set)
}

// The operation of a number at a place, over the one of the number before there, if it is not 0.
fn op_of(alloc: Global, number: u64, at: u64, places: u64, before: u64) -> Result<Op>
    ensures { IfOk result (λ op. IsTrue (is_full op)) }
{
    let id = OpId::new(number, name_of(number)?).context("a number")?;
    let mut named = Vec::new(alloc);
    if before > 0 {
        named.push(OpId::new(before, name_of(before)?).context("a number")?)?;
    }
    let book = book_of(at, places)?;
    let key = key_of(at, places)?;
    let text = String::new(alloc);
    if !names_fall(&id, &named) || !fits(book, key, text.as_str()) {
        return None.context("an operation");
    }
    Ok(Op::new(id, book, key, named, text))
}

fn name_of(number: u64) -> Result<ReplicaName> {
    let name = match number % 4 {
        0 => "ana",
        1 => "ben",
        2 => "cy",
        _ => "dan-2",
    };
    Ok(ReplicaName::read(name)?)
}

fn book_of(at: u64, places: u64) -> Result<Book> {
    let books = BOOKS;
    let which = at.wrapping_mul(8).checked_div(places).context("no places")?;
    let code = books.get(which as usize).context("a book")?;
    Ok(Book::read(code)?)
}

fn key_of(at: u64, places: u64) -> Result<Key> {
    let in_book = at.checked_rem((places / 8).max(1)).context("no places")?;
    let place = Place::Verse {
        number: (in_book % 40) as u16,
        letter: None,
    };
    Key::new((in_book / 40 % 999) as u16, place).context("a key")
}

// What the set shows in all, by numbers.
fn sum_of(set: &OpSet) -> u64 {
    let mut sum = 0u64;
    for book in set.books() {
        for key in set.keys(book) {
            for id in set.shown_ids(book, key) {
                sum = sum.wrapping_mul(31).wrapping_add(id.number);
            }
        }
    }
    sum
}

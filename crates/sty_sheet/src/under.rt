use crate::words::next_word;

/// The words of a style's field OccursUnder, in order. Made by `Style::under_words`; it does not
/// allocate.
#[derive(Clone, Debug, Drop)]
pub struct UnderWords<'s> {
    pub(crate) rest: &'s str,
}

impl<'s> Iterator for UnderWords<'s> {
    ghost use Rattle.std.specs.Iterator.{YieldsFirstBy, item_count};
    ghost use Rattle.sty_sheet.specs.Views.{words_left};

    type Item = &'s str;

    ghost next_gives = { YieldsFirstBy (λ word. word.now) words_left };

    ghost remaining = { item_count words_left };

    fn next(&mut self) -> Option<&'s str> {
        let (word, rest) = next_word(self.rest)?;
        self.rest = rest;
        Some(word)
    }
}

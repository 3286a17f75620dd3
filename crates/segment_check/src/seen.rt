// What a tree says of one of the marks of a text: which of the tree's codes hold there.
#[derive(Clone, Copy, Debug)]
pub(crate) struct Seen {
    pub(crate) unknown_marker: bool,
    pub(crate) stray_close: bool,
    pub(crate) unclosed_char: bool,
    pub(crate) unclosed_note: bool,
    pub(crate) too_deep: bool,
    pub(crate) not_under: bool,
}

impl Seen {
    ghost use Rattle.std.specs.Prelude.{◌≡◌};
    ghost use Rattle.segment_check.specs.Reading as reading;

    // None of them holds.
    pub(crate) fn nothing() -> Seen
        ensures { result ≡ reading.unseen }
    {
        Seen {
            unknown_marker: false,
            stray_close: false,
            unclosed_char: false,
            unclosed_note: false,
            too_deep: false,
            not_under: false,
        }
    }
}

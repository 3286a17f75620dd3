/// What is found at a mark. At one mark the codes are reported in this order.
#[derive(Clone, Copy, Debug, PartialEq, Eq, PartialOrd, Ord, Hash)]
pub enum Code {
    /// A mark, not closing, for which the sheet has no record (`Sheet::style_of`).
    UnknownMarker,
    /// A closing mark that closes no node.
    StrayClose,
    /// A character node without a closing mark, outside notes.
    UnclosedChar,
    /// A note node without a closing mark.
    UnclosedNote,
    /// A mark that begins no node because the node would be too deep.
    TooDeep,
    /// A mark `\c` or `\v`, neither nested nor closing, without a number.
    BadNumber,
    /// A verse with a hyphen directly after its number and no bridge, or whose bridge does not lead
    /// to a later verse.
    BadBridge,
    /// A mark with a key that opens no piece of the book.
    NotRising,
    /// A verse that opens a piece and lies within the bridge of a verse before it in its chapter
    /// that opens one too.
    Overlap,
    /// A character or note node that is where its style's OccursUnder does not allow it.
    NotUnder,
}

impl Code {
    ghost use Rattle.std.specs.Prelude.{◌≡◌};
    ghost use Rattle.segment_check.specs.Codes.{code_name};

    /// The code's name, as `unknown-marker`.
    pub fn name(self) -> &'static str
        ensures { result.now ≡ code_name self }
    {
        match self {
            Code::UnknownMarker => "unknown-marker",
            Code::StrayClose => "stray-close",
            Code::UnclosedChar => "unclosed-char",
            Code::UnclosedNote => "unclosed-note",
            Code::TooDeep => "too-deep",
            Code::BadNumber => "bad-number",
            Code::BadBridge => "bad-bridge",
            Code::NotRising => "not-rising",
            Code::Overlap => "overlap",
            Code::NotUnder => "not-under",
        }
    }
}

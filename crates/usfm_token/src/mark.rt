ghost use Rattle.std.specs.Prelude.{◌≡◌};
ghost use Rattle.usfm_token.specs.Tokens.{AreNameBytes, spelling};

use crate::scan::{name_len, strip_byte};

/// A mark: a backslash, perhaps `+`, a name that may be empty, perhaps `*`.
#[derive(Clone, Copy, Debug, PartialEq, Eq)]
pub struct Mark<'a> {
    slice: &'a str,
    name: &'a str,
    nested: bool,
    closing: bool,
    ghost spelled: { slice.now ≡ spelling nested name.now closing },
    ghost named: { AreNameBytes name.now },
}

impl<'a> Mark<'a> {
    ghost use Rattle.std.specs.Prelude.{◌++◌, drop, slice_index};
    ghost use Rattle.usfm_token.specs.Tokens.{IsMark, mark_after, mark_bytes};
    ghost use Rattle.usfm_token.specs.View.{mark_parts};

    /// The mark's bytes in the text that it was read from.
    pub fn slice(&self) -> &'a str
        ensures spelled { result.now ≡ mark_bytes (mark_parts self.now) }
        ensures named { IsMark (mark_parts self.now) }
    {
        self.slice
    }

    /// What is between the backslash, or the `+` after it, and the `*` or the mark's end.
    pub fn name(&self) -> &'a str
        ensures { result.now ≡ (mark_parts self.now).name }
    {
        self.name
    }

    /// Whether a `+` follows the backslash, as in the nested character marker `\+nd`.
    pub fn nested(&self) -> bool
        ensures { result ≡ (mark_parts self.now).nested }
    {
        self.nested
    }

    /// Whether the mark ends with `*`, as in the closing marker `\nd*`.
    pub fn closing(&self) -> bool
        ensures { result ≡ (mark_parts self.now).closing }
    {
        self.closing
    }

    // The mark at the front, and what follows it.
    pub(crate) fn split_front(text: &'a str) -> (Mark<'a>, &'a str)
        requires { slice_index text.now 0 ≡ 92 }
        ensures mark { mark_parts result.0 ≡ mark_after (drop 1 text.now) }
        ensures after { mark_bytes (mark_parts result.0) ++ result.1.now ≡ text.now }
    {
        let (nested, name_on) = strip_byte(&text[1..], b'+');
        let (name, after_name) = name_on.split_at(name_len(name_on.as_bytes()));
        let (closing, after) = strip_byte(after_name, b'*');
        let (slice, _) = text.split_at(text.len() - after.len());
        let mark = Mark {
            slice,
            name,
            nested,
            closing,
        };
        (mark, after)
    }
}

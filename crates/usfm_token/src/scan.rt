//! How far a name or a text goes, and single bytes at the front.

ghost use Rattle.std.specs.Prelude.{◌≡◌, ◌<◌, ◌==◌, ◌++◌, slice_index, IsUtf8};
ghost use Rattle.std.specs.List.{prefix_len, position_or_len};
ghost use Rattle.usfm_token.specs.Tokens.{is_name_byte, optional_byte, is_backslash};

fn is_name_byte(byte: u8) -> bool
    ensures { result ≡ is_name_byte byte }
{
    byte.is_ascii_alphanumeric() || byte == b'-' || byte == b'_'
}

// How many bytes at the front are of a name.
pub(crate) fn name_len(bytes: &[u8]) -> usize
    ensures { result ≡ prefix_len is_name_byte bytes.now }
{
    bytes.iter().take_while(|b| is_name_byte(**b)).count()
}

// How many bytes come before the first backslash, or the end.
pub(crate) fn text_len(bytes: &[u8]) -> usize
    ensures { result ≡ position_or_len is_backslash bytes.now }
{
    memchr::memchr(b'\\', bytes).unwrap_or(bytes.len())
}

// Whether an ASCII byte is at the front, and the text without it.
pub(crate) fn strip_byte(text: &str, byte: u8) -> (bool, &str)
    requires { (0 < byte) × (byte < 128) }
    ensures found { result.0 ≡ (slice_index text.now 0 == byte) }
    ensures rest { text.now ≡ optional_byte result.0 byte ++ result.1.now }
    ensures utf8 { IsUtf8 result.1.now }
{
    if !text.is_empty() && text.as_bytes()[0] == byte {
        (true, &text[1..])
    } else {
        (false, text)
    }
}

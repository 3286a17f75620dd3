// How long the mark at a place of a text is.
ghost use Rattle.std.specs.Prelude.{◌≡◌, ◌+◌, ◌<◌, ◌≤◌, ◌==◌, length, slice_index};
ghost use Rattle.std.specs.List.{prefix_len};
ghost use Rattle.usfm_token.specs.Tokens as tokens;
ghost use Rattle.book_reports.specs.Lines.{mark_length};

// The bytes of the mark whose backslash is at a place.
pub(crate) fn mark_len(text: &[u8], start: usize) -> usize
    requires { start < length text.now }
    ensures value { result ≡ mark_length text.now start }
    ensures within { start + result ≤ length text.now }
{
    let (_, after) = text.split_at(start + 1);
    let plus = optional_len(after, b'+');
    let (_, name_on) = after.split_at(plus);
    let name = name_len(name_on);
    let (_, after_name) = name_on.split_at(name);
    1 + plus + name + optional_len(after_name, b'*')
}

// How many bytes at the front are this one: one or none.
fn optional_len(bytes: &[u8], byte: u8) -> usize
    requires { 0 < byte }
    ensures value { result
        ≡ length (tokens.optional_byte (slice_index bytes.now 0 == byte) byte) }
    ensures within { result ≤ length bytes.now }
{
    match bytes.first() {
        Some(first) if *first == byte => 1,
        _ => 0,
    }
}

// How many bytes at the front are of a name.
fn name_len(bytes: &[u8]) -> usize
    ensures value { result ≡ prefix_len tokens.is_name_byte bytes.now }
    ensures within { result ≤ length bytes.now }
{
    bytes.iter().take_while(|b| is_name_byte(**b)).count()
}

fn is_name_byte(byte: u8) -> bool
    ensures { result ≡ tokens.is_name_byte byte }
{
    byte.is_ascii_alphanumeric() || byte == b'-' || byte == b'_'
}

// What readers and writers of std answer.
ghost use Rattle.std.specs.Prelude.{◌≡◌, ◌≤◌, IfOk};

use std::io;

/// The answer of a reader or a writer that was given room or bytes for this many, with an error in
/// place of a count that is greater.
///
/// std's contracts rule such a count out; the test is for a reader or a writer of the system that
/// does not keep to them.
///
/// # Errors
/// The answer's own error, and `InvalidData` where the count is greater than what was given.
pub fn within(answer: io::Result<usize>, given: usize) -> io::Result<usize>
    ensures fits { IfOk result (λ count. count ≤ given) }
    ensures told { IfOk result (λ count. answer ≡ Ok count) }
    ensures kept { IfOk answer (λ count. count ≤ given) → result ≡ answer }
{
    match answer {
        Ok(count) if count > given => Err(io::Error::from(io::ErrorKind::InvalidData)),
        answer => answer,
    }
}

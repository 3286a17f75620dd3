// Fields of fixed form: each function gives the value at the front, and the bytes after it. Those
// called `_at` or `_of` judge whether the bytes have it; those called `_in` are for bytes that were
// judged, and test nothing.
ghost use Rattle.std.specs.Prelude.{MatchOption, true, false, ◌≡◌, Ok, Err, IsOk};
ghost use Rattle.std.specs.Int.{w16, w64};
ghost use Rattle.std.specs.Str.{is_utf8};
ghost use Rattle.bundle_codec.specs.Reading.{Gives, any, number_at, byte_at, block_at, exactly_at};

use crate::fault::BundleFault;
use usfm_token::read_text;

pub(crate) fn u64_at(bytes: &[u8]) -> Result<(u64, &[u8]), BundleFault>
    ensures { Gives (λ x. (x.0, x.1.now)) result
        (number_at w64 any BundleFault.Truncated bytes.now) }
{
    if bytes.len() < 8 {
        return Err(BundleFault::Truncated);
    }
    Ok(u64_in(bytes))
}

pub(crate) fn u64_in(bytes: &[u8]) -> (u64, &[u8])
    requires { IsOk (number_at w64 any BundleFault.Truncated bytes.now) }
    ensures { number_at w64 any BundleFault.Truncated bytes.now ≡ Ok (result.0, result.1.now) }
{
    let (front, rest) = bytes.split_at(8);
    let number = u64::from_be_bytes([
        front[0], front[1], front[2], front[3], front[4], front[5], front[6], front[7],
    ]);
    (number, rest)
}

pub(crate) fn u16_at(bytes: &[u8]) -> Result<(u16, &[u8]), BundleFault>
    ensures { Gives (λ x. (x.0, x.1.now)) result
        (number_at w16 any BundleFault.Truncated bytes.now) }
{
    if bytes.len() < 2 {
        return Err(BundleFault::Truncated);
    }
    Ok(u16_in(bytes))
}

pub(crate) fn u16_in(bytes: &[u8]) -> (u16, &[u8])
    requires { IsOk (number_at w16 any BundleFault.Truncated bytes.now) }
    ensures { number_at w16 any BundleFault.Truncated bytes.now ≡ Ok (result.0, result.1.now) }
{
    let (front, rest) = bytes.split_at(2);
    let number = u16::from_be_bytes([front[0], front[1]]);
    (number, rest)
}

pub(crate) fn u8_at(bytes: &[u8]) -> Result<(u8, &[u8]), BundleFault>
    ensures { Gives (λ x. (x.0, x.1.now)) result (byte_at any BundleFault.Truncated bytes.now) }
{
    match bytes {
        [] => Err(BundleFault::Truncated),
        [b, rest @ ..] => Ok((*b, rest)),
    }
}

pub(crate) fn u8_in(bytes: &[u8]) -> (u8, &[u8])
    requires { IsOk (byte_at any BundleFault.Truncated bytes.now) }
    ensures { byte_at any BundleFault.Truncated bytes.now ≡ Ok (result.0, result.1.now) }
{
    let (front, rest) = bytes.split_at(1);
    (front[0], rest)
}

// The bytes after this text, with which they have to begin.
pub(crate) fn exactly_of<'a>(
    text: &[u8],
    bad: BundleFault,
    bytes: &'a [u8],
) -> Result<&'a [u8], BundleFault>
    ensures { Gives (λ r. (tt, r.now)) result (exactly_at text.now bad bytes.now) }
{
    let mut rest = bytes;
    for m in text {
        let (b, left) = u8_at(rest)?;
        if b != *m {
            return Err(bad);
        }
        rest = left;
    }
    Ok(rest)
}

pub(crate) fn block_of(n: u64, bytes: &[u8]) -> Result<(&[u8], &[u8]), BundleFault>
    ensures { Gives (λ x. (x.0.now, x.1.now)) result
        (block_at n any BundleFault.Truncated bytes.now) }
{
    let n = n as usize;
    if bytes.len() < n {
        return Err(BundleFault::Truncated);
    }
    Ok(bytes.split_at(n))
}

pub(crate) fn block_in(n: u64, bytes: &[u8]) -> (&[u8], &[u8])
    requires { IsOk (block_at n any BundleFault.Truncated bytes.now) }
    ensures { block_at n any BundleFault.Truncated bytes.now ≡ Ok (result.0.now, result.1.now) }
{
    bytes.split_at(n as usize)
}

// The bytes as text, if they are UTF-8. Nothing else judges UTF-8.
pub(crate) fn text_of(bytes: &[u8]) -> Option<&str>
    ensures { MatchOption result (is_utf8 bytes.now ≡ false)
        (λ s. (s.now ≡ bytes.now) × (is_utf8 bytes.now ≡ true)) }
{
    read_text(bytes).ok()
}

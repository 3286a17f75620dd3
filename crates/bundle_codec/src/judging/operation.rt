// Operations, judged where they are in the bytes.
ghost use Rattle.std.specs.Prelude.{◌≡◌, None, false, Ok, Err, IfOk, IsOk, IsTrue, option_map};
ghost use Rattle.usfm_ref.specs.Books.{is_book_code};
ghost use Rattle.usfm_ref.specs.Keys.{is_key};
ghost use Rattle.bundle_codec.specs.Reading.{Gives, is_tag, counted_text_at, text_after, body_at};
ghost use Rattle.bundle_codec.specs.Reading.{judge_text};
ghost use Rattle.bundle_codec.specs.Reading.{may_fit, operation_at, operations_at, ahead};
ghost use Rattle.bundle_codec.specs.Views.{id_view, key_view, op_view, lent};

use super::fields::{block_in, block_of, text_of, u8_at, u8_in, u64_at, u64_in};
use super::ids::{IdList, IdView, comes_after, id_of, replaced_of};
use super::keys::{KeyView, fits_segment, is_book_code, key_of};
use crate::fault::BundleFault;

// The fields of an operation, lent from the bytes that spell it.
#[derive(Clone, Copy, Debug)]
pub(crate) struct OpFields<'a> {
    pub(crate) id: IdView<'a>,
    pub(crate) code: &'a [u8],
    pub(crate) key: KeyView,
    pub(crate) replaced: IdList<'a>,
    pub(crate) text: Option<&'a str>,
}

// The bytes of a text, after their count.
#[tactic(auto, unfolding(crate::specs::Reading::counted_text_at))]
fn counted_text_of(bytes: &[u8]) -> Result<(&[u8], &[u8]), BundleFault>
    ensures { Gives (λ x. (x.0.now, x.1.now)) result (counted_text_at bytes.now) }
{
    let (len, rest) = u64_at(bytes)?;
    block_of(len, rest)
}

// Whether the tag may be in a bundle of the format: 1 in both, and 0 in format 2.
fn is_tag_of(full: bool, tag: u8) -> bool
    ensures { result ≡ is_tag full tag }
{
    tag == 1 || (!full && tag == 0)
}

// What follows a tag: nothing after 0, and else the bytes of a text.
fn text_after(tag: u8, bytes: &[u8]) -> Result<(Option<&[u8]>, &[u8]), BundleFault>
    ensures { Gives (λ x. (lent x.0, x.1.now)) result (text_after tag bytes.now) }
{
    if tag == 0 {
        return Ok((None, bytes));
    }
    let (text, rest) = counted_text_of(bytes)?;
    Ok((Some(text), rest))
}

// The tag and the bytes of the text of the operation at this place, if it has one.
#[tactic(auto, unfolding(crate::specs::Reading::body_at))]
pub(crate) fn body_of(
    full: bool,
    place: u64,
    bytes: &[u8],
) -> Result<(Option<&[u8]>, &[u8]), BundleFault>
    ensures { Gives (λ x. (lent x.0, x.1.now)) result (body_at full place bytes.now) }
{
    let (tag, rest) = u8_at(bytes)?;
    if !is_tag_of(full, tag) {
        return Err(BundleFault::BadTag(place));
    }
    text_after(tag, rest)
}

// The bytes of a text, after their count, in bytes that were judged.
fn counted_text_in(bytes: &[u8]) -> (&[u8], &[u8])
    requires { IsOk (counted_text_at bytes.now) }
    ensures { counted_text_at bytes.now ≡ Ok (result.0.now, result.1.now) }
{
    let (len, rest) = u64_in(bytes);
    block_in(len, rest)
}

// The bytes of the text after the tag, if it has one, in bytes that were judged.
pub(crate) fn body_in(bytes: &[u8]) -> (Option<&[u8]>, &[u8])
    requires { IsOk (body_at false 0 bytes.now) }
    ensures { body_at false 0 bytes.now ≡ Ok (lent result.0, result.1.now) }
{
    let (tag, rest) = u8_in(bytes);
    if tag == 0 {
        return (None, rest);
    }
    let (text, rest) = counted_text_in(rest);
    (Some(text), rest)
}

// Judges the text of the operation at this place, if it has one, once it is whole.
fn judged_text<'a>(place: u64, text: Option<&'a [u8]>) -> Result<Option<&'a str>, BundleFault>
    ensures rules { Gives (λ _. tt) result (judge_text place (lent text.entry)) }
    ensures text { IfOk result (λ s. lent s ≡ lent text.entry) }
{
    let Some(bytes) = text else {
        return Ok(None);
    };
    match text_of(bytes) {
        None => Err(BundleFault::NotUtf8(place)),
        Some(text) => Ok(Some(text)),
    }
}

// Whether a text that is not left out fits a code and a key that were judged.
fn may_fit_segment(code: &[u8], key: KeyView, text: Option<&str>) -> bool
    requires code { IsTrue (is_book_code code.now) }
    requires key { IsTrue (is_key key.chapter key.place) }
    ensures { result ≡ may_fit code.now (key_view key) (lent text.entry) }
{
    match text {
        None => true,
        Some(text) => fits_segment(code, key, text),
    }
}

// Judges the operation at this place of a bundle of the format, after one of the id `before`.
#[tactic(auto, unfolding(crate::specs::Reading::operation_at))]
fn fields_of<'a>(
    full: bool,
    place: u64,
    before: &Option<IdView<'_>>,
    bytes: &'a [u8],
) -> Result<(OpFields<'a>, &'a [u8]), BundleFault>
    ensures { Gives (λ x. (op_view x.0, x.1.now)) result
        (operation_at full place (option_map id_view before.now) bytes.now) }
{
    let (id, rest) = id_of(BundleFault::BadId(place), bytes)?;
    if !comes_after(before, &id) {
        return Err(BundleFault::NotRising(place));
    }
    let (code, rest) = block_of(3, rest)?;
    if !is_book_code(code) {
        return Err(BundleFault::BadKey(place));
    }
    let (key, rest) = key_of(BundleFault::BadKey(place), rest)?;
    let (replaced, rest) = replaced_of(BundleFault::BadReplaced(place), &id, rest)?;
    let (text, rest) = body_of(full, place, rest)?;
    let text = judged_text(place, text)?;
    if !may_fit_segment(code, key, text) {
        return Err(BundleFault::BadText(place));
    }
    let fields = OpFields {
        id,
        code,
        key,
        replaced,
        text,
    };
    Ok((fields, rest))
}

// Judges this many operations of a bundle of the format, and gives the bytes after them.
pub(crate) fn after_operations(full: bool, count: u64, bytes: &[u8]) -> Result<&[u8], BundleFault>
    ensures { Gives (λ r. r.now) result (ahead (operations_at full count (1, None) bytes.now)) }
{
    let mut before = None;
    let mut rest = bytes;
    for i in 0..count {
        let (fields, left) = fields_of(full, i + 1, &before, rest)?;
        before = Some(fields.id);
        rest = left;
    }
    Ok(rest)
}

// A walk over operations that were judged before. It tests neither lengths nor rules again.
ghost use Rattle.std.specs.Prelude.{◌≡◌, None, false, Ok, IsOk, IsTrue};
ghost use Rattle.std.specs.Iterator.{YieldsFirst, item_count};
ghost use Rattle.bundle_codec.specs.Reading.{operation_at, may_be_utf8};
ghost use Rattle.bundle_codec.specs.Views.{lent, op_view, each_id_at, each_operation_at};
ghost use Rattle.bundle_codec.specs.Views.{operations_in};

use super::view::OpView;
use crate::fault::BundleFault;
use crate::judging::fields::block_in;
use crate::judging::ids::{id_in, replaced_in};
use crate::judging::keys::key_in;
use crate::judging::operation::{OpFields, body_in};
use std::marker::Model;

/// The operations of a bundle, in ascending order of ids, lent from its bytes. Made by
/// `Bundle::ops`; it does not allocate.
#[derive(Debug, Drop)]
pub struct BundleOps<'a> {
    left: u64,
    bytes: &'a [u8],
}

impl<'a> Model for BundleOps<'a> {
    ghost use Rattle.std.specs.Prelude.{List, IsOk};
    ghost use Rattle.op_core.specs.Ops.{Operation};
    ghost use Rattle.bundle_codec.specs.Views.{each_operation_at, operations_in};

    ghost Value = { List Operation };

    ghost view = { λ s. operations_in s.left s.bytes.now };

    ghost invariant = { λ s. IsOk (each_operation_at s.left s.bytes.now) };
}

impl<'a> BundleOps<'a> {
    pub(crate) fn new(left: u64, bytes: &'a [u8]) -> BundleOps<'a>
        requires { IsOk (each_operation_at left bytes.now) }
        ensures { result ≡ operations_in left bytes.now }
    {
        BundleOps { left, bytes }
    }
}

impl<'a> Iterator for BundleOps<'a> {
    type Item = OpView<'a>;

    ghost next_gives = { YieldsFirst (λ s. s) };

    ghost remaining = { item_count (λ s. s) };

    fn next(&mut self) -> Option<OpView<'a>> {
        if self.left == 0 {
            return None;
        }
        let (operation, rest) = operation_in(self.bytes);
        self.left -= 1;
        self.bytes = rest;
        Some(operation)
    }
}

// The text of these bytes, if there is one, which were judged to be UTF-8.
fn text_in(bytes: Option<&[u8]>) -> Option<&str>
    requires { IsTrue (may_be_utf8 (lent bytes)) }
    ensures { lent result ≡ lent bytes.entry }
{
    match bytes {
        None => None,
        Some(bytes) => Some(unsafe { str::from_utf8_unchecked(bytes) }),
    }
}

// The fields of the operation at the front of bytes that were judged.
fn fields_in(bytes: &[u8]) -> (OpFields<'_>, &[u8])
    requires { IsOk (operation_at false 0 None bytes.now) }
    ensures value { operation_at false 0 None bytes.now ≡ Ok (op_view result.0, result.1.now) }
    ensures ids { IsOk (each_id_at result.0.replaced.count result.0.replaced.bytes.now) }
{
    let (id, rest) = id_in(bytes);
    let (code, rest) = block_in(3, rest);
    let (key, rest) = key_in(BundleFault::BadKey(0), rest);
    let (replaced, rest) = replaced_in(rest);
    let (text, rest) = body_in(rest);
    let text = text_in(text);
    let fields = OpFields {
        id,
        code,
        key,
        replaced,
        text,
    };
    (fields, rest)
}

// The operation at the front of bytes that were judged.
fn operation_in(bytes: &[u8]) -> (OpView<'_>, &[u8])
    requires { IsOk (operation_at false 0 None bytes.now) }
    ensures { operation_at false 0 None bytes.now ≡ Ok (result.0, result.1.now) }
{
    let (fields, rest) = fields_in(bytes);
    let (own, _) = bytes.split_at(bytes.len() - rest.len());
    (OpView::new(fields, own), rest)
}

// What is in conflict.
ghost use Rattle.std.specs.Prelude.{◌≡◌, map};
ghost use Rattle.std.specs.List.{list_any};
ghost use Rattle.op_core.specs.Shown.{last, text_if_any};
ghost use Rattle.project_status.specs.Numbers as numbers;

use op_core::Op;

/// Whether operations have different texts.
pub fn differ(ops: &[&Op]) -> bool
    ensures { result ≡ numbers.differ (map (λ op. op.now) ops.now) }
{
    // Most segments show one, which is not compared with itself.
    ops.len() > 1 && has_other(ops, last_text(ops))
}

// The text of the last of some operations, empty where there is none.
fn last_text<'a>(ops: &[&'a Op]) -> &'a [u8]
    ensures { result.now ≡ text_if_any (last (map (λ op. op.now) ops.now)) }
{
    let mut text: &[u8] = &[];
    for op in ops {
        text = op.text_or_empty().as_bytes();
    }
    text
}

// Whether one of some operations has another text.
fn has_other(ops: &[&Op], text: &[u8]) -> bool
    ensures { result
        ≡ list_any (numbers.has_other_text text.now) (map (λ op. op.now) ops.now) }
{
    for op in ops {
        if is_other_text(op, text) {
            return true;
        }
    }
    false
}

// Whether the operation has another text.
fn is_other_text(op: &Op, text: &[u8]) -> bool
    ensures { result ≡ numbers.has_other_text text.now op.now }
{
    op.text_or_empty().as_bytes() != text
}

// Sets of operations, written as bundles.
ghost use Rattle.std.specs.Prelude.{◌≡◌, ◌≤◌, ◌+◌, ◌++◌, Ok, IfOk, length, map, take, drop};
ghost use Rattle.std.specs.Prelude.{vec_len};
ghost use Rattle.std.specs.Int.{w64, to_be_bytes};
ghost use Rattle.op_core.specs.Thinned.{all_full};
ghost use Rattle.bundle_codec.specs.Spelling as spelled;
ghost use Rattle.bundle_codec.specs.Joining.{whole_at};

use crate::bundle::MAGIC;
use crate::views::view::OpView;
use op_core::{Op, OpId, OpSet};
use std::alloc::{AllocError, Global};
use usfm_ref::{Key, Place};

/// The bundle of a set of operations, of format 1 where each has its text, and else of format 2.
/// There is one for each set.
///
/// # Errors
/// Out of memory alone.
pub fn encode(alloc: Global, set: &OpSet) -> Result<Vec<u8>, AllocError>
    ensures spelled { IfOk result (λ bytes. bytes.items ≡ spelled.bundle set.now) }
    ensures again { IfOk result (λ bytes. whole_at bytes.items ≡ Ok set.now) }
{
    let bytes = encode_after(Vec::new(alloc), set)?;
    // The set's operations show that they are one.
    let _ = set.iter();
    Ok(bytes)
}

/// The bytes with the bundle of a set after them, for a file that has it after something else. The
/// bytes are taken, and dropped on an error.
///
/// # Errors
/// Out of memory alone.
pub fn encode_after(mut bytes: Vec<u8>, set: &OpSet) -> Result<Vec<u8>, AllocError>
    ensures { IfOk result (λ whole. whole.items ≡ bytes.items ++ spelled.bundle set.now) }
{
    push_front(&mut bytes, is_full(set), set.len() as u64)?;
    for op in set.iter() {
        push_operation(&mut bytes, op)?;
    }
    Ok(bytes)
}

/// The bundle of some operations, lent one by one; of a set where they rise by id, as those do that
/// a walk over a set passes on.
///
/// # Errors
/// Out of memory alone.
pub fn encode_ops(alloc: Global, ops: &[&Op]) -> Result<Vec<u8>, AllocError>
    ensures { IfOk result (λ bytes.
        bytes.items ≡ spelled.bundle (map (λ op. op.now) ops.now)) }
{
    let mut bytes = Vec::new(alloc);
    push_front(&mut bytes, are_full(ops), ops.len() as u64)?;
    let mut left = ops;
    'ops: while let [lent, later @ ..] = left {
        push_operation(&mut bytes, lent)?;
        left = later;
    }
    Ok(bytes)
}

/// The bundle of some operations that are lent from bundles, each copied with the bytes that spell
/// it; of a set where they rise by id.
///
/// # Errors
/// Out of memory alone.
pub fn encode_views(alloc: Global, views: &[&OpView<'_>]) -> Result<Vec<u8>, AllocError>
    ensures { IfOk result (λ bytes.
        bytes.items ≡ spelled.bundle (map (λ view. view.now) views.now)) }
{
    let mut bytes = Vec::new(alloc);
    push_front(&mut bytes, have_texts(views), views.len() as u64)?;
    let mut left = views;
    'views: while let [lent, later @ ..] = left {
        bytes.extend_from_slice(lent.spelled())?;
        left = later;
    }
    Ok(bytes)
}

// Whether each of the operations has its text.
fn have_texts(views: &[&OpView<'_>]) -> bool
    ensures { result ≡ all_full (map (λ view. view.now) views.now) }
{
    let mut left = views;
    'views: while let [lent, later @ ..] = left {
        if lent.text().is_none() {
            return false;
        }
        left = later;
    }
    true
}

// Whether each of the operations has its text.
fn are_full(ops: &[&Op]) -> bool
    ensures { result ≡ all_full (map (λ op. op.now) ops.now) }
{
    let mut left = ops;
    'ops: while let [lent, later @ ..] = left {
        if lent.text().is_none() {
            return false;
        }
        left = later;
    }
    true
}

// Whether each operation of the set has its text.
fn is_full(set: &OpSet) -> bool
    ensures { result ≡ all_full set.now }
{
    for op in set.iter() {
        if op.text().is_none() {
            return false;
        }
    }
    true
}

// Appends the magic of the format and the count, with which a bundle begins.
pub(crate) fn push_front(bytes: &mut Vec<u8>, full: bool, count: u64) -> Result<(), AllocError>
    ensures { let front = spelled.magic_of full ++ to_be_bytes w64 count in
        IfOk result (λ _. bytes.new.items ≡ bytes.old.items ++ front) }
{
    bytes.extend_from_slice(&front_of(full, count))
}

// Writes the format and the count of a bundle over those that are in its bytes.
pub(crate) fn set_front(bytes: &mut Vec<u8>, full: bool, count: u64)
    requires { 16 ≤ vec_len bytes.old }
    ensures { let front = spelled.magic_of full ++ to_be_bytes w64 count in
        bytes.new.items ≡ front ++ drop 16 bytes.old.items }
{
    set_front_at(bytes, 0, full, count);
}

// Writes the format and the count of a bundle over those that are at a place of the bytes.
pub(crate) fn set_front_at(bytes: &mut Vec<u8>, at: usize, full: bool, count: u64)
    requires { at + 16 ≤ vec_len bytes.old }
    ensures { let front = spelled.magic_of full ++ to_be_bytes w64 count in
        bytes.new.items ≡ take at bytes.old.items ++ (front ++ drop (at + 16) bytes.old.items) }
{
    bytes[at..at + 16].copy_from_slice(&front_of(full, count));
}

// The magic of the format and the count.
#[tactic(auto, unfolding(crate::specs::Spelling::magic_of))]
fn front_of(full: bool, count: u64) -> [u8; 16]
    ensures { result ≡ spelled.magic_of full ++ to_be_bytes w64 count }
{
    let mut front = [0; 16];
    front[..6].copy_from_slice(&MAGIC);
    front[6..8].copy_from_slice(&[digit_of(full), b'\n']);
    front[8..].copy_from_slice(&count.to_be_bytes());
    front
}

// The digit of a format.
fn digit_of(full: bool) -> u8
    ensures { result ≡ spelled.digit full }
{
    if full { b'1' } else { b'2' }
}

pub(crate) fn push_operation(bytes: &mut Vec<u8>, op: &Op) -> Result<(), AllocError>
    ensures { IfOk result (λ _. bytes.new.items ≡ bytes.old.items ++ spelled.operation op.now) }
{
    push_id(bytes, &op.id())?;
    bytes.extend_from_slice(&op.book().code())?;
    push_key(bytes, op.key())?;
    push_ids(bytes, op.replaced())?;
    push_body(bytes, op)
}

fn push_id(bytes: &mut Vec<u8>, id: &OpId) -> Result<(), AllocError>
    ensures { IfOk result (λ _. bytes.new.items ≡ bytes.old.items ++ spelled.id id.now) }
{
    let name = id.name.text().as_bytes();
    bytes.extend_from_slice(&id.number.to_be_bytes())?;
    bytes.extend_from_slice(&[name.len() as u8])?;
    bytes.extend_from_slice(name)
}

fn push_ids(bytes: &mut Vec<u8>, named: &[OpId]) -> Result<(), AllocError>
    ensures { IfOk result (λ _. bytes.new.items ≡ bytes.old.items ++ spelled.ids named.now) }
{
    bytes.extend_from_slice(&(named.len() as u64).to_be_bytes())?;
    for id in named {
        push_id(bytes, id)?;
    }
    Ok(())
}

fn push_key(bytes: &mut Vec<u8>, key: Key) -> Result<(), AllocError>
    ensures { IfOk result (λ _. bytes.new.items ≡ bytes.old.items ++ spelled.key key) }
{
    bytes.extend_from_slice(&key.chapter.to_be_bytes())?;
    let (kind, number, letter) = match key.place {
        Place::Head => (0, 0, 0),
        Place::Verse { number, letter } => (1, number, letter.unwrap_or(0)),
    };
    bytes.extend_from_slice(&[kind])?;
    bytes.extend_from_slice(&number.to_be_bytes())?;
    bytes.extend_from_slice(&[letter])
}

// Appends the tag, and the text after its length, if it has one.
fn push_body(bytes: &mut Vec<u8>, op: &Op) -> Result<(), AllocError>
    ensures { IfOk result (λ _. bytes.new.items ≡ bytes.old.items ++ spelled.body op.now.text) }
{
    let Some(text) = op.text() else {
        return bytes.extend_from_slice(&[0]);
    };
    let text = text.as_bytes();
    bytes.extend_from_slice(&[1])?;
    bytes.extend_from_slice(&(text.len() as u64).to_be_bytes())?;
    bytes.extend_from_slice(text)
}

ghost use Rattle.std.specs.Prelude.{◌≡◌, ◌↔◌, ◌<◌, ◌^◌, ℕ, Some, Ok, IsTrue, IsSome, IfSome, IfOk};
ghost use Rattle.std.specs.Prelude.{IfErr};
ghost use Rattle.std.specs.Prelude.{nat_lt};
ghost use Rattle.std.specs.Fmt.{decimal};
ghost use Rattle.std.specs.List.{list_all};
ghost use Rattle.op_core.specs.Ids as ids;

use super::name::ReplicaName;
use crate::fault::IdFault;
use std::fmt;
use std::marker::Model;
use std::str::FromStr;

/// The greatest number of an id.
pub const LAST_NUMBER: u64 = 1_000_000_000_000_000;

/// The id of an operation: a number from 1 to 10^15, and the name of the replica that made it.
///
/// Ids go by number, and then by the name's bytes. A literal with a number out of its range is
/// refused by the proof.
#[derive(Clone, Copy, Debug, PartialEq, Eq, PartialOrd, Ord)]
pub struct OpId {
    pub number: u64,
    pub name: ReplicaName,
}

impl Model for OpId {
    ghost use Rattle.std.specs.Prelude.{IsTrue};
    ghost use Rattle.op_core.specs.Ids.{Id, is_id};

    ghost Value = { Id };

    ghost view = { λ a. record { number = a.number; name = a.name } };

    ghost invariant = { λ a. IsTrue (is_id (record { number = a.number; name = a.name })) };

    ghost inverse = { λ d. record { number = d.number; name = d.name } };
}

impl OpId {
    /// Reads an id: its number in decimal without leading zeros, a colon and its name, as `3:ana`.
    ///
    /// # Errors
    /// `BadOpId` where the text is anything else, or the number is 0 or above 10^15.
    pub fn read(text: &str) -> Result<OpId, IdFault>
        ensures reads { IfOk result (λ id. text.now ≡ ids.id_text id) }
        ensures only { (id : ids.Id) → IsTrue (ids.is_id id) → text.now ≡ ids.id_text id
            → result ≡ Ok id }
        ensures refused { IfErr result (λ fault. fault ≡ IdFault.BadOpId) }
    {
        let Some((number, name)) = text.split_once(':') else {
            return Err(IdFault::BadOpId);
        };
        let Some(number) = number_in(number) else {
            return Err(IdFault::BadOpId);
        };
        let Ok(name) = ReplicaName::read(name) else {
            return Err(IdFault::BadOpId);
        };
        OpId::new(number, name).ok_or(IdFault::BadOpId)
    }

    /// The id of a number and a name. None exactly where the number is 0 or above 10^15.
    pub fn new(number: u64, name: ReplicaName) -> Option<OpId>
        ensures accepts { IsSome result ↔ IsTrue (ids.is_number number) }
        ensures parts { IfSome result (λ id. id ≡ record { number = number; name = name }) }
    {
        // The name's text shows that it is within its ranges.
        let _ = name.text();
        if is_number(number) {
            Some(OpId { number, name })
        } else {
            None
        }
    }
}

/// Reads an id, as `OpId::read` does.
impl FromStr for OpId {
    type Err = IdFault;

    ghost from_str_gives = { ids.ReadsId };

    fn from_str(text: &str) -> Result<OpId, IdFault> {
        OpId::read(text)
    }
}

/// Writes the id as `OpId::read` reads it: its number in decimal, a colon and its name.
impl fmt::Display for OpId {
    ghost output = { λ id. Some (ids.id_text id) };

    fn fmt<W: fmt::Write>(&self, f: &mut fmt::Formatter<W>) -> fmt::Result {
        let OpId { number, name } = *self;
        write!(f, "{number}:{name}")
    }
}

/// Whether an id may have this number: from 1 to the greatest.
pub fn is_number(number: u64) -> bool
    ensures { result ≡ ids.is_number number }
{
    1 <= number && number <= LAST_NUMBER
}

/// Whether the ids rise, and each has a smaller number than `id`: whether an operation of that id
/// may name them as replaced.
pub fn names_fall(id: &OpId, named: &[OpId]) -> bool
    ensures { result ≡ ids.names_fall id.now named.now }
{
    rise(named) && are_below(named, id.number)
}

fn are_below(named: &[OpId], number: u64) -> bool
    ensures { result ≡ list_all (λ n. nat_lt n.number number) named.now }
{
    named.iter().all(|n| n.number < number)
}

fn rise(named: &[OpId]) -> bool
    ensures { result ≡ ids.ids_rise named.now }
{
    for i in 1..named.len() {
        if !named[i - 1].cmp(&named[i]).is_lt() {
            return false;
        }
    }
    true
}

// The number from 1 on that the text is in decimal, without leading zeros.
fn number_in(text: &str) -> Option<u64>
    ensures reads { IfSome result (λ number. text.now ≡ decimal number) }
    ensures only { (number : ℕ) → 0 < number → number < 2 ^ 64 → text.now ≡ decimal number
        → result ≡ Some number }
{
    if !starts_plainly(text.as_bytes()) {
        return None;
    }
    text.parse::<u64>().ok()
}

// Whether the first byte is one of 1 to 9.
fn starts_plainly(text: &[u8]) -> bool
    ensures { result ≡ ids.starts_plainly text.now }
{
    matches!(text, [b'1'..=b'9', ..])
}

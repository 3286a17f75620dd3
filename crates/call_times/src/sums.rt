// Sums over what calls answer, by which answers are compared.
use usfm_ref::{Key, Place};

/// A sum of bytes, which depends on their order.
pub(crate) fn sum_of(bytes: &[u8]) -> u64 {
    let mut sum = 0u64;
    for byte in bytes {
        sum = sum.wrapping_mul(31).wrapping_add(u64::from(*byte));
    }
    sum
}

/// The sum of a key's chapter and verse.
pub(crate) fn key_sum(key: Key) -> u64 {
    let verse = match key.place {
        Place::Head => 0,
        Place::Verse { number, .. } => u64::from(number),
    };
    u64::from(key.chapter).wrapping_add(verse)
}

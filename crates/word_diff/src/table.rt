ghost use Rattle.std.specs.Prelude.{◌≡◌, ◌+◌, ◌<◌, ◌≤◌, length, drop, IfOk};
ghost use Rattle.word_diff.specs.Table.{common_len, row_of, rows, table_of};
ghost use Rattle.word_diff.specs.Words.{texts};

use std::alloc::{AllocError, Global};

/// How many words a text may have for a longest common subsequence to be sought.
pub const MAX_WORDS: usize = 2000;

// The row of a list of words, from the row of all but the first of them.
fn next_row(
    alloc: Global,
    old: &[&str],
    new: &[&str],
    below: &[u16],
) -> Result<Vec<u16>, AllocError>
    requires some { 0 < length old.now }
    requires small { length old.now ≤ MAX_WORDS }
    requires few { length new.now ≤ MAX_WORDS }
    requires below_is { below.now ≡ row_of (drop 1 (texts old.now)) (texts new.now) }
    ensures { IfOk result (λ row. row.items ≡ row_of (texts old.now) (texts new.now)) }
{
    let mut row = Vec::with_capacity(alloc, new.len() + 1)?;
    row.push(0)?;
    for k in 0..new.len() {
        let longest = if old[0] == new[new.len() - 1 - k] {
            below[k] + 1
        } else {
            below[k + 1].max(row[k])
        };
        row.push(longest)?;
    }
    Ok(row)
}

// For each end of the old list, from the empty one on, its row: for each end of the new list, from
// the empty one on, how many words a longest common subsequence of the two ends has.
pub(crate) fn table(alloc: Global, old: &[&str], new: &[&str]) -> Result<Vec<Vec<u16>>, AllocError>
    requires small { length old.now ≤ MAX_WORDS }
    requires few { length new.now ≤ MAX_WORDS }
    ensures { IfOk result (λ list. rows list.items ≡ table_of (texts old.now) (texts new.now)) }
{
    let mut rows = Vec::with_capacity(alloc, old.len() + 1)?;
    rows.push(vec![in alloc; 0; new.len() + 1]?)?;
    for k in 0..old.len() {
        let row = next_row(alloc, &old[old.len() - 1 - k..], new, &rows[k])?;
        rows.push(row)?;
    }
    Ok(rows)
}

// How many words a longest common subsequence of the ends from `i` and from `j` on has.
pub(crate) fn len_from(list: &[Vec<u16>], old: &[&str], new: &[&str], i: usize, j: usize) -> u16
    requires table { rows list.now ≡ table_of (texts old.now) (texts new.now) }
    requires in_old { i ≤ length old.now }
    requires in_new { j ≤ length new.now }
    ensures { result ≡ common_len (drop i (texts old.now)) (drop j (texts new.now)) }
{
    list[old.len() - i][new.len() - j]
}

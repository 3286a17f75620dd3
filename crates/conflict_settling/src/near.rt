// The keys next to one in a list that rises, each found by binary search.
ghost use Rattle.std.specs.Prelude.{◌≡◌, None, not, IsTrue};
ghost use Rattle.std.specs.List.{find};
ghost use Rattle.std.specs.Ordering.{is_lt};
ghost use Rattle.usfm_ref.specs.Keys.{key_cmp};
ghost use Rattle.usfm_ref.specs.Rising.{rises_by};
ghost use Rattle.conflict_settling.specs.Before.{last_from};

use usfm_ref::Key;

// The last of the keys that is before this one.
pub(crate) fn last_before(keys: &[Key], key: Key) -> Option<Key>
    requires rising { IsTrue (rises_by key_cmp (λ k. k) keys.now) }
    ensures { result ≡ last_from (λ k. is_lt (key_cmp k key)) None keys.now }
{
    let count = keys.partition_point(
        |at| -> bool
            ensures { result ≡ is_lt (key_cmp at.now key) }
        { at.cmp(&key).is_lt() },
    );
    if count == 0 {
        return None;
    }
    Some(keys[count - 1])
}

// The first of the keys that is after this one.
pub(crate) fn first_after(keys: &[Key], key: Key) -> Option<Key>
    requires rising { IsTrue (rises_by key_cmp (λ k. k) keys.now) }
    ensures { result ≡ find (λ k. is_lt (key_cmp key k)) keys.now }
{
    let count = keys.partition_point(
        |at| -> bool
            ensures { result ≡ not (is_lt (key_cmp key at.now)) }
        { !key.cmp(at).is_lt() },
    );
    if count == keys.len() {
        return None;
    }
    Some(keys[count])
}

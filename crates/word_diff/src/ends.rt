ghost use Rattle.std.specs.Prelude.{◌≡◌};
ghost use Rattle.word_diff.specs.Common.{end_len, front_len};
ghost use Rattle.word_diff.specs.Words.{texts};

// How many words two lists have in common at their front.
pub(crate) fn front_len(old: &[&str], new: &[&str]) -> usize
    ensures { result ≡ front_len (texts old.now) (texts new.now) }
{
    let mut len = 0;
    while len < old.len() && len < new.len() && old[len] == new[len] {
        len += 1;
    }
    len
}

// How many words two lists have in common at their end.
pub(crate) fn end_len(old: &[&str], new: &[&str]) -> usize
    ensures { result ≡ end_len (texts old.now) (texts new.now) }
{
    let (old_len, new_len) = (old.len(), new.len());
    let mut len = 0;
    while len < old_len && len < new_len && old[old_len - 1 - len] == new[new_len - 1 - len] {
        len += 1;
    }
    len
}

//! When nothing of a book is missing. The function does nothing: its contract is the law.
ghost use Rattle.missing_verses.specs.Laws.{NothingIsMissing};

/// Of a book that the versification has, and of which there is something, nothing is listed exactly
/// where each verse of each chapter is there, and no other from 1 on; none is there twice; and each
/// segment of a verse has words.
pub fn nothing_is_missing()
    ensures { NothingIsMissing }
{}

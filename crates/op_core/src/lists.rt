// Sets as lists, without an index: operations that rise by id, searched and merged.
pub(crate) mod merge;
pub(crate) mod place;

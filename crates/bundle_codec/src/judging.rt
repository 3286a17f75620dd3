// Bytes judged where they are: the fields of fixed form, ids, keys and operations.
pub(crate) mod fields;
pub(crate) mod ids;
pub(crate) mod keys;
pub(crate) mod operation;

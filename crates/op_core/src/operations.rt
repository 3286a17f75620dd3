// Operations, the walk over them, and what stands for a segment's text.
pub(crate) mod line;
pub(crate) mod op;
pub(crate) mod ops;
pub(crate) mod picked;

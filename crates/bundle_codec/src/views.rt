// Operations that were judged, read where they are in the bytes.
pub(crate) mod view;
pub(crate) mod walk;

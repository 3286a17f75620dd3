// A stretch of a text: where in the text it begins, and its bytes.
#[derive(Clone, Copy, Debug)]
pub(crate) struct Passage<'a> {
    pub(crate) start: usize,
    pub(crate) text: &'a str,
}

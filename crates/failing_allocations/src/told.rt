// What a call gave, put down without an allocation.
use arrayvec::ArrayVec;
use itoa::Buffer;

// As much as the longest of them has.
const ROOM: usize = 512;

/// Texts one after another.
#[derive(Drop)]
pub(crate) struct Told {
    bytes: ArrayVec<u8, ROOM>,
}

impl Told {
    pub(crate) fn new() -> Told {
        Told {
            bytes: ArrayVec::new(),
        }
    }

    pub(crate) fn is_empty(&self) -> bool {
        self.bytes.as_slice().is_empty()
    }

    /// Whether it is these pieces, joined.
    pub(crate) fn is(&self, pieces: &[&[u8]]) -> bool {
        let mut rest = self.bytes.as_slice();
        for piece in pieces {
            match rest.strip_prefix(*piece) {
                None => return false,
                Some(left) => rest = left,
            }
        }
        rest.is_empty()
    }

    /// Puts down as many of the bytes as there is room for.
    pub(crate) fn push(&mut self, bytes: &[u8]) {
        for byte in bytes {
            let _ = self.bytes.try_push(*byte);
        }
    }

    pub(crate) fn push_text(&mut self, text: &str) {
        self.push(text.as_bytes());
    }

    /// In decimal, with a blank after it.
    pub(crate) fn push_number(&mut self, number: u64) {
        let mut buffer = Buffer::new();
        self.push_text(buffer.format(number));
        self.push_text(" ");
    }
}

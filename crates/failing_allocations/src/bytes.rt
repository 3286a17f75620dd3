// Bundles and summaries, byte by byte, and what they make of a book. The lines of a bundle are its
// front, and of each operation first its id, its book and its key, then what it names and its text.

// 1 ana on MAT 0, `\id MAT␊`; 2 ana on MAT 1:1, `\v 1 In␊`.
pub(crate) const B1: &[u8] = b"USFMSR1\n\0\0\0\0\0\0\0\x02\
      \0\0\0\0\0\0\0\x01\x03anaMAT\0\0\0\0\0\0\
      \0\0\0\0\0\0\0\0\x01\0\0\0\0\0\0\0\x08\\id MAT\n\
      \0\0\0\0\0\0\0\x02\x03anaMAT\0\x01\x01\0\x01\0\
      \0\0\0\0\0\0\0\0\x01\0\0\0\0\0\0\0\x08\\v 1 In\n";

// 3 ben on MAT 1:1, naming 2 ana, `\v 1 At␊`.
pub(crate) const Y: &[u8] = b"USFMSR1\n\0\0\0\0\0\0\0\x01\
      \0\0\0\0\0\0\0\x03\x03benMAT\0\x01\x01\0\x01\0\
      \0\0\0\0\0\0\0\x01\0\0\0\0\0\0\0\x02\x03ana\x01\0\0\0\0\0\0\0\x08\\v 1 At\n";

// 3 ana on MAT 1:1, naming 2 ana, `\v 1 To␊`.
pub(crate) const Z: &[u8] = b"USFMSR1\n\0\0\0\0\0\0\0\x01\
      \0\0\0\0\0\0\0\x03\x03anaMAT\0\x01\x01\0\x01\0\
      \0\0\0\0\0\0\0\x01\0\0\0\0\0\0\0\x02\x03ana\x01\0\0\0\0\0\0\0\x08\\v 1 To\n";

// 1 cy on MAT 1, `\c 1␊`; 1 dan on MAT 1:2, `\v 2 b␊`; 2 ana on MAT 1:1, `\v 1 Xx␊`.
pub(crate) const CLASHING: &[u8] = b"USFMSR1\n\0\0\0\0\0\0\0\x03\
      \0\0\0\0\0\0\0\x01\x02cyMAT\0\x01\0\0\0\0\
      \0\0\0\0\0\0\0\0\x01\0\0\0\0\0\0\0\x05\\c 1\n\
      \0\0\0\0\0\0\0\x01\x03danMAT\0\x01\x01\0\x02\0\
      \0\0\0\0\0\0\0\0\x01\0\0\0\0\0\0\0\x07\\v 2 b\n\
      \0\0\0\0\0\0\0\x02\x03anaMAT\0\x01\x01\0\x01\0\
      \0\0\0\0\0\0\0\0\x01\0\0\0\0\0\0\0\x08\\v 1 Xx\n";

// No operation.
pub(crate) const NOTHING: &[u8] = b"USFMSR1\n\0\0\0\0\0\0\0\0";

// The summary of ana, 1 to 3 and 5.
pub(crate) const S1: &[u8] = b"USFMSS1\n\0\0\0\0\0\0\0\x01\
      \x03ana\0\0\0\0\0\0\0\x02\
      \0\0\0\0\0\0\0\x01\0\0\0\0\0\0\0\x03\
      \0\0\0\0\0\0\0\x05\0\0\0\0\0\0\0\x05";

// 4 ana on MAT 1:2, `\v 2 b␊`.
pub(crate) const FOURTH: &[u8] = b"USFMSR1\n\0\0\0\0\0\0\0\x01\
      \0\0\0\0\0\0\0\x04\x03anaMAT\0\x01\x01\0\x02\0\
      \0\0\0\0\0\0\0\0\x01\0\0\0\0\0\0\0\x07\\v 2 b\n";

// The books of B1, and after Y.
pub(crate) const FIRST: &[u8] = b"\\id MAT\n\\c 1\n\\v 1 In\n";

pub(crate) const AFTER: &[u8] = b"\\id MAT\n\\c 1\n\\v 1 At\n";

// 2 ana on MAT 1:1, thinned; 3 ben of Y.
pub(crate) const V2: &[u8] = b"USFMSR2\n\0\0\0\0\0\0\0\x02\
      \0\0\0\0\0\0\0\x02\x03anaMAT\0\x01\x01\0\x01\0\
      \0\0\0\0\0\0\0\0\0\
      \0\0\0\0\0\0\0\x03\x03benMAT\0\x01\x01\0\x01\0\
      \0\0\0\0\0\0\0\x01\0\0\0\0\0\0\0\x02\x03ana\x01\0\0\0\0\0\0\0\x08\\v 1 At\n";

// The first operation of V2 alone, which nothing names.
pub(crate) const UNNAMED: &[u8] =
    b"USFMSR2\n\0\0\0\0\0\0\0\x01\0\0\0\0\0\0\0\x02\x03anaMAT\0\x01\x01\0\x01\0\0\0\0\0\0\0\0\0\0";

// B1, Y and Z, without the text of 2 ana.
pub(crate) const THREE_THINNED: &[u8] = b"USFMSR2\n\0\0\0\0\0\0\0\x04\
      \0\0\0\0\0\0\0\x01\x03anaMAT\0\0\0\0\0\0\
      \0\0\0\0\0\0\0\0\x01\0\0\0\0\0\0\0\x08\\id MAT\n\
      \0\0\0\0\0\0\0\x02\x03anaMAT\0\x01\x01\0\x01\0\
      \0\0\0\0\0\0\0\0\0\
      \0\0\0\0\0\0\0\x03\x03anaMAT\0\x01\x01\0\x01\0\
      \0\0\0\0\0\0\0\x01\0\0\0\0\0\0\0\x02\x03ana\x01\0\0\0\0\0\0\0\x08\\v 1 To\n\
      \0\0\0\0\0\0\0\x03\x03benMAT\0\x01\x01\0\x01\0\
      \0\0\0\0\0\0\0\x01\0\0\0\0\0\0\0\x02\x03ana\x01\0\0\0\0\0\0\0\x08\\v 1 At\n";

// The operations on MAT 1:1 of these.
pub(crate) const VERSE_THINNED: &[u8] = b"USFMSR2\n\0\0\0\0\0\0\0\x03\
      \0\0\0\0\0\0\0\x02\x03anaMAT\0\x01\x01\0\x01\0\
      \0\0\0\0\0\0\0\0\0\
      \0\0\0\0\0\0\0\x03\x03anaMAT\0\x01\x01\0\x01\0\
      \0\0\0\0\0\0\0\x01\0\0\0\0\0\0\0\x02\x03ana\x01\0\0\0\0\0\0\0\x08\\v 1 To\n\
      \0\0\0\0\0\0\0\x03\x03benMAT\0\x01\x01\0\x01\0\
      \0\0\0\0\0\0\0\x01\0\0\0\0\0\0\0\x02\x03ana\x01\0\0\0\0\0\0\0\x08\\v 1 At\n";

// B1 and V2 joined.
pub(crate) const JOINED: &[u8] = b"USFMSR2\n\0\0\0\0\0\0\0\x03\
      \0\0\0\0\0\0\0\x01\x03anaMAT\0\0\0\0\0\0\
      \0\0\0\0\0\0\0\0\x01\0\0\0\0\0\0\0\x08\\id MAT\n\
      \0\0\0\0\0\0\0\x02\x03anaMAT\0\x01\x01\0\x01\0\
      \0\0\0\0\0\0\0\0\0\
      \0\0\0\0\0\0\0\x03\x03benMAT\0\x01\x01\0\x01\0\
      \0\0\0\0\0\0\0\x01\0\0\0\0\0\0\0\x02\x03ana\x01\0\0\0\0\0\0\0\x08\\v 1 At\n";

// The summary of ana, 1 and 3, and ben, 3.
pub(crate) const ALL_BUT_2_ANA: &[u8] = b"USFMSS1\n\0\0\0\0\0\0\0\x02\
      \x03ana\0\0\0\0\0\0\0\x02\
      \0\0\0\0\0\0\0\x01\0\0\0\0\0\0\0\x01\
      \0\0\0\0\0\0\0\x03\0\0\0\0\0\0\0\x03\
      \x03ben\0\0\0\0\0\0\0\x01\
      \0\0\0\0\0\0\0\x03\0\0\0\0\0\0\0\x03";

// The summary of B1, Y and Z.
pub(crate) const ALL_THREE: &[u8] = b"USFMSS1\n\0\0\0\0\0\0\0\x02\
      \x03ana\0\0\0\0\0\0\0\x01\
      \0\0\0\0\0\0\0\x01\0\0\0\0\0\0\0\x03\
      \x03ben\0\0\0\0\0\0\0\x01\
      \0\0\0\0\0\0\0\x03\0\0\0\0\0\0\0\x03";

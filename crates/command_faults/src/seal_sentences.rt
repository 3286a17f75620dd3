// What a person reads of a sealed bundle that is refused, as `sentences.rt` has it of all else.

pub(crate) const BAD_SEAL: &str = "\
The bundle was damaged on its way, or is not whole.
Have it sent again. In a box, move it away: its owner's next sync writes it
anew.";

//! Laws of setups, over the definitions alone. Each function does nothing: its contract is the
//! law.
ghost use Rattle.folder_setup.specs.Laws as laws;

/// What is written of a setup is read as it was, and what is read is written so: of all texts,
/// exactly one is read as a setup.
pub fn spelled_is_read()
    ensures again { laws.SpelledIsRead }
    ensures alone { laws.ReadIsSpelled }
{}

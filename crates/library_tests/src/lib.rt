//! Tests of the libraries' calls that the program never makes. They stand apart from the crates
//! that they call, since a crate with tests is proved once more for them. What the program calls is
//! tested by what it writes (`tests/program`).
#![tactic(auto)]

#[cfg(test)]
mod tests;

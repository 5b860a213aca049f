// Bytes and numbers as hex digits, as they are printed.
#![tactic(auto)]

pub mod text;

// The bench terminal: scripts played line by line, with each outcome in hex and in words on standard output.
#![tactic(auto)]

mod bench;
mod calls;
mod lines;
mod walks;

pub use bench::Bench;
pub use lines::{Player, room};

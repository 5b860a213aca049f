// What the engine answers, as the code says it: the results in the replies to commands, and what a call comes to.
#![tactic(auto)]

pub mod refusals;

// What a call that isn't dropped comes to.
#[derive(Clone, Copy, Debug, PartialEq, Eq)]
pub enum Outcome {
    // the reply buffer's first 48 bytes are to be sent
    Answered,
    // nothing is to be sent
    Quiet,
}

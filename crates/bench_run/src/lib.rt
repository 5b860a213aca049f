// A run of the bench terminal: what is known while a script is played, and what is printed.
#![tactic(auto)]

pub mod complaints;
pub mod printing;
pub mod run;

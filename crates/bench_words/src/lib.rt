// The sentences of the bench terminal: messages, replies, notifications and reports, as they are printed.
#![tactic(auto)]

pub mod alarms;
mod lists;
pub mod masks;
pub mod replies;
pub mod requests;

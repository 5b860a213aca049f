// What numbers are called in document 01, as they are printed. And the bytes of a message whose length isn't known, read without a
// fault.
#![tactic(auto)]

pub mod names;
pub mod reads;

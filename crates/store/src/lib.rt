// A state as bytes: see specs/ and proofs/. The code of this crate is where each part of a store stands.
pub mod layout;

// Every call keeps a state legal: see proofs/. This crate has no code of its own.

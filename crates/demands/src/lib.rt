// What the demands ask of every call, as theorems: see proofs/. This crate has no code of its own.

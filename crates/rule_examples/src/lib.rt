// More of document 01 shown by computation: see proofs/. This crate has no code of its own.

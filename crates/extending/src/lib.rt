// Large does all that Small does, over any two catalogues of which the second extends the first; and extending composes: see specs/ and proofs/. This crate has no code of its own.

// What the bytes of a sound store hold, and which bytes a change of it lays over them: see specs/ and proofs/. This crate has no code of its own.

// Document 01, and what is built of document 02, as definitions: see specs/. This crate has no code of its own.

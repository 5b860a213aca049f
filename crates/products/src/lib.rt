// Small, Large and Meter are well formed, Large extends Small and Small extends Meter; so it is with a made-up pair of which everything that may
// grow does: see proofs/. This crate has no code of its own.

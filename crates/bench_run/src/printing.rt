// Texts onto standard output, and what went wrong onto standard error.
use super::run::Run;
use std::fmt::Display;

impl Run {
    // Prints a text, unless nothing is to be written. std's own buffer takes it, so that no memory is asked for that there might not be.
    pub fn say<R: Print, T: Display>(&mut self, rt: &R, text: &T) {
        if !self.silent && print!(rt; "{text}").is_err() {
            self.written = false;
        }
    }

    // At the end: a line for each thing that went wrong, and none if nothing did. What standard error doesn't take is lost.
    pub fn end<R: Eprint>(&self, rt: &R) {
        if self.wrong != 0 {
            let wrong = self.wrong;
            let _ = eprintln!(rt; "bench: lines that could not be read: {wrong}");
        }
        if !self.readable {
            let _ = eprintln!(rt; "bench: the input could not be read to its end");
        }
        if !self.written {
            let _ = eprintln!(rt; "bench: the output could not be written");
        }
    }
}

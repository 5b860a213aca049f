// The calls of a script: each is handed to the engine, and its outcome told.
use super::bench::Bench;
use bench_names::names::{Dropped, Instance};
use bench_names::reads::{byte_at, number_at};
use bench_words::replies::Sent;
use bench_words::requests::{Message, Raised, Report};
use message_frame::drops::DropReason;
use outcome::Outcome;
use std::fmt;
use store::layout::{MEMORY_AT, MEMORY_END};
use text_buffer::text::Groups;

// What a call came to; an answer to a repeat is the old one.
#[derive(Clone, Copy)]
struct Came<'a> {
    again: bool,
    outcome: Result<Outcome, DropReason>,
    reply: &'a [u8],
}

impl fmt::Display for Came<'_> {
    fn fmt<W: fmt::Write>(&self, f: &mut fmt::Formatter<W>) -> fmt::Result {
        match self.outcome {
            Ok(Outcome::Answered) => write_answer(f, self.again, self.reply),
            Ok(Outcome::Quiet) => f.write_str("\n  quiet: nothing to send\n"),
            Err(reason) => write!(f, "\n  {}\n", Dropped(u8::from(reason))),
        }
    }
}

// An answer: its bytes, and its words.
fn write_answer<W: fmt::Write>(
    f: &mut fmt::Formatter<W>,
    again: bool,
    reply: &[u8],
) -> fmt::Result {
    if again {
        f.write_str("\n  a repeat: it gets the old reply, and nothing changes")?;
    }
    write!(f, "\n  sent: {}\n  {}\n", Groups(reply), Sent(reply))
}

// A product by its number; one that no script asks for has no name.
fn product_name(product: u8) -> Option<&'static str> {
    match product {
        1 => Some("small"),
        2 => Some("large"),
        3 => Some("meter"),
        _ => None,
    }
}

// What a power-on came to.
#[derive(Clone, Copy)]
struct Powered {
    product: u8,
    started: Result<(), DropReason>,
}

impl fmt::Display for Powered {
    fn fmt<W: fmt::Write>(&self, f: &mut fmt::Formatter<W>) -> fmt::Result {
        match self.started {
            Ok(()) => match product_name(self.product) {
                Some(name) => write!(f, "power {name}\n  fresh: the {name} product is on\n"),
                None => f.write_str("power\n  fresh: the product is on\n"),
            },
            Err(reason) => write!(f, "\n  {}\n", Dropped(u8::from(reason))),
        }
    }
}

impl Bench {
    // Has a message the first 40 bytes of the last answered command?
    fn is_again(&self, m: &[u8]) -> bool {
        m.len() == 48 && remembered_command::is_repeat(&self.store[MEMORY_AT..MEMORY_END], m)
    }

    // A command was answered, or not: its id and the head of its answer are remembered, and a section of an upload is kept.
    fn remember(&mut self, outcome: Result<Outcome, DropReason>, m: &[u8], reply: &[u8]) {
        self.run.count = number_at(reply, 8);
        if matches!(outcome, Ok(Outcome::Answered)) {
            self.run.last = number_at(m, 0);
        }
        if byte_at(reply, 2) == 0x2E {
            self.keep(reply);
        }
    }

    // What was asked for in the present line, and what it came to.
    fn tell<R: Print, T: fmt::Display>(&mut self, rt: &R, asked: &T, came: &Came<'_>) {
        let line = self.run.number;
        self.run
            .say(rt, &format_args!("line {line}: {asked}{came}"));
    }

    // A message.
    pub fn exchange<R: Print>(&mut self, rt: &R, m: &[u8]) {
        let mut reply = [0u8; 48];
        let again = self.is_again(m);
        let outcome = engine::handle(&mut self.store, m, &mut reply);
        self.remember(outcome, m, &reply);
        let came = Came {
            again,
            outcome,
            reply: &reply,
        };
        self.tell(rt, &Message(m), &came);
    }

    // A local report of an attribute.
    pub fn report<R: Print>(&mut self, rt: &R, asked: Report<'_>) {
        let mut reply = [0u8; 48];
        let Instance { class, number } = asked.instance;
        let outcome = engine::report_attribute(
            &mut self.store,
            class,
            number,
            asked.attribute,
            asked.content,
            &mut reply,
        );
        let came = Came {
            again: false,
            outcome,
            reply: &reply,
        };
        self.tell(rt, &asked, &came);
    }

    // A local report of an alarm.
    pub fn alarm<R: Print>(&mut self, rt: &R, asked: Raised) {
        let mut reply = [0u8; 48];
        let Instance { class, number } = asked.instance;
        let outcome = engine::report_alarm(
            &mut self.store,
            class,
            number,
            asked.alarm,
            asked.on,
            &mut reply,
        );
        let came = Came {
            again: false,
            outcome,
            reply: &reply,
        };
        self.tell(rt, &asked, &came);
    }

    // Powers a product on: 1 small, 2 large, 3 meter.
    pub fn power<R: Print>(&mut self, rt: &R, product: u8) {
        let started = engine::power_on(&mut self.store, product);
        let line = self.run.number;
        let powered = Powered { product, started };
        self.run.say(rt, &format_args!("line {line}: {powered}"));
    }
}

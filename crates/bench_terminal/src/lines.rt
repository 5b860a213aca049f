// The input, line by line: a line ends with a line feed, the last one perhaps with the input.
ghost use Rattle.std.specs.Prelude.{◌≡◌, length};

use super::bench::Bench;
use bench_names::names::Instance;
use bench_names::reads::part;
use bench_run::run::Run;
use bench_script::Asked;
use bench_words::requests::{Raised, Report};

// How many bytes a line may have.
const LINE: usize = 1048576;

// The room for a line and for the bytes that it holds in hex: two digits each.
const ROOM: usize = LINE + LINE / 2;

// So much room. The contract gives only the length, which lending the array as a slice needs.
pub fn room() -> [u8; ROOM]
    ensures { 1572864 ≡ length result }
{
    [0; ROOM]
}

impl Bench {
    // What a line asks for.
    fn play<R: Print>(&mut self, rt: &R, asked: Asked, bytes: &[u8]) {
        match asked {
            Asked::Power(product) => self.power(rt, product),
            Asked::Message(length) => self.exchange(rt, part(bytes, 0, length)),
            Asked::Report {
                class,
                number,
                attribute,
                length,
            } => self.report(
                rt,
                Report {
                    instance: Instance { class, number },
                    attribute,
                    content: part(bytes, 0, length),
                },
            ),
            Asked::Alarm {
                class,
                number,
                alarm,
                on,
            } => self.alarm(
                rt,
                Raised {
                    instance: Instance { class, number },
                    alarm,
                    on,
                },
            ),
            Asked::Upload => self.upload(rt),
            Asked::Alarms => self.alarms(rt),
        }
    }

    // A line that has ended: so many bytes came of it, and the first ones stand in the room. What it holds in hex goes behind.
    fn play_line<R: Print>(&mut self, rt: &R, room: &mut [u8], length: usize) {
        let (line, bytes) = split(room);
        if line.len() < length {
            self.run.long_line(rt, line.len());
            return;
        }
        match bench_script::read_line(&line[..length], bytes) {
            Ok(None) => {}
            Ok(Some(asked)) => self.play(rt, asked, bytes),
            Err(wrong) => self.run.wrong_line(rt, wrong),
        }
    }
}

// The room for a line, and for the bytes that it holds in hex.
fn split(room: &mut [u8]) -> (&mut [u8], &mut [u8]) {
    let end = LINE.min(room.len());
    room.split_at_mut(end)
}

// A bench, and the room for what is played on it. The room is lent, as the store is to the engine: no line can want for memory.
#[derive(Drop)]
pub struct Player<'a> {
    pub bench: Bench,
    // the present line, as far as there is room for it, and behind it room for its bytes
    room: &'a mut [u8],
    // how many bytes of the line came, those for which there was no room too
    length: usize,
}

impl<'a> Player<'a> {
    pub fn new(run: Run, room: &'a mut [u8]) -> Player<'a> {
        Player {
            bench: Bench::new(run),
            room,
            length: 0,
        }
    }

    // The line has ended, and the next one begins.
    fn end_line<R: Print>(&mut self, rt: &R) {
        let length = self.length;
        self.bench.play_line(rt, self.room, length);
        self.length = 0;
        self.bench.run.next_line();
    }

    // More bytes of the line. Those for which there is no room are counted.
    fn append(&mut self, piece: &[u8]) {
        let length = self.length;
        let (line, _) = split(self.room);
        let from = length.min(line.len());
        let some = piece.len().min(line.len() - from);
        line[from..from + some].copy_from_slice(&piece[..some]);
        self.length = length.wrapping_add(piece.len());
    }

    // A chunk of the input.
    pub fn take_chunk<R: Print>(&mut self, rt: &R, chunk: &[u8]) {
        for piece in chunk.split_inclusive(|&byte| byte == b'\n') {
            match piece.strip_suffix(b"\n") {
                Some(end) => {
                    self.append(end);
                    self.end_line(rt);
                }
                None => self.append(piece),
            }
        }
    }

    // The end of the input: what came behind the last line feed is a line too.
    pub fn take_end<R: Print>(&mut self, rt: &R) {
        if self.length != 0 {
            self.end_line(rt);
        }
    }
}

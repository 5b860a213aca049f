// What is known while a script is played.
ghost use Rattle.std.specs.Prelude.{◌≡◌, ◌≢◌};

#[derive(Clone, Copy)]
pub struct Run {
    // any byte of input came
    pub seen: bool,
    // the input could be read
    pub readable: bool,
    // every text could be written
    pub written: bool,
    // nothing is to be written
    pub silent: bool,
    // how many lines have begun
    pub number: u64,
    // how many could not be read
    pub wrong: u64,
    // the id of the last command of a walk
    pub id: u16,
    // the id of the last command that was answered
    pub last: u16,
    // the number at the head of the last answer's contents
    pub count: u16,
}

impl Run {
    pub fn new() -> Run {
        Run {
            seen: false,
            readable: true,
            written: true,
            silent: false,
            number: 1,
            wrong: 0,
            id: 0x8000,
            last: 0,
            count: 0,
        }
    }

    // A run of which nothing is written.
    pub fn silent() -> Run {
        Run {
            silent: true,
            ..Run::new()
        }
    }

    // A new line begins.
    pub fn next_line(&mut self) {
        self.number = self.number.wrapping_add(1);
    }

    // A line could not be read.
    pub fn one_wrong(&mut self) {
        self.wrong = self.wrong.wrapping_add(1);
    }

    // The id for the next command of a walk: never 0, and never that of the last answered command, so that it is no repeat.
    pub fn next_id(&mut self) -> u16
        ensures no_repeat { (result ≢ 0) × (result ≢ self.old.last) }
        ensures used { self.new.id ≡ result }
    {
        let next = id_after(self.id);
        self.id = if next == self.last {
            id_after(next)
        } else {
            next
        };
        self.id
    }
}

// The ids of walks go round from 0x8001 to 0xFFFF.
fn id_after(id: u16) -> u16
    ensures { (result ≢ 0) × (result ≢ id) }
{
    match id {
        0x8001..=0xFFFE => id + 1,
        _ => 0x8001,
    }
}

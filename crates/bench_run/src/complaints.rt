// Why a line can't be read, in words.
use super::run::Run;
use script_values::Wrong;

impl Run {
    // Names a line that can't be read, with the column, counted from 1, of the first byte that can't be read.
    pub fn wrong_line<R: Print>(&mut self, rt: &R, wrong: Wrong) {
        let line = self.number;
        let column = wrong.place.wrapping_add(1);
        let reason = wrong.why;
        self.one_wrong();
        self.say(
            rt,
            &format_args!("line {line}: can't be read, column {column}: {reason}\n"),
        );
    }

    // Names a line that is longer than the room for lines.
    pub fn long_line<R: Print>(&mut self, rt: &R, room: usize) {
        let line = self.number;
        self.one_wrong();
        self.say(
            rt,
            &format_args!("line {line}: can't be read: it is longer than {room} bytes\n"),
        );
    }
}

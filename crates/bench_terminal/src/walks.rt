// `upload` and `alarms`: the walk is asked for, and every section fetched.
use super::bench::Bench;
use message_frame::commands::Command;

// The type of a command has its number behind this.
const KIND: u8 = 0x40;

impl Bench {
    // A command of a walk, for the ONT data.
    fn ask<R: Print>(&mut self, rt: &R, command: Command, index: u16) {
        let mut m = [0u8; 48];
        let kind = KIND | u8::from(command);
        message_frame::begin(&mut m, self.run.next_id(), kind, 2, 0);
        octets::put_number(&mut m, 8, index);
        self.exchange(rt, &m);
    }

    // A walk: its first command, and a Next for each section.
    fn walk<R: Print>(&mut self, rt: &R, first: Command, next: Command) {
        self.ask(rt, first, 0);
        for index in 0..self.run.count {
            self.ask(rt, next, index);
        }
    }

    pub fn upload<R: Print>(&mut self, rt: &R) {
        self.walk(rt, Command::Upload, Command::UploadNext);
    }

    pub fn alarms<R: Print>(&mut self, rt: &R) {
        self.walk(rt, Command::AllAlarms, Command::AlarmsNext);
    }
}

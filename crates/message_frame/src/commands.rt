// The commands, by the numbers of their messages.
ghost use Rattle.std.specs.Prelude.{◌≡◌};
ghost use Rattle.message_frame.specs.Commands.{command_number, Decodes};

#[derive(Clone, Copy, Debug, PartialEq, Eq)]
pub enum Command {
    Create,
    Delete,
    Set,
    Get,
    AllAlarms,
    AlarmsNext,
    Upload,
    UploadNext,
    Reset,
}

// A number that no command's message has.
#[derive(Clone, Copy, Debug, PartialEq, Eq)]
pub struct NoCommand;

impl From<Command> for u8 {
    ghost from_gives = { λ c n. n ≡ command_number c };

    fn from(command: Command) -> u8 {
        match command {
            Command::Create => 4,
            Command::Delete => 6,
            Command::Set => 8,
            Command::Get => 9,
            Command::AllAlarms => 11,
            Command::AlarmsNext => 12,
            Command::Upload => 13,
            Command::UploadNext => 14,
            Command::Reset => 15,
        }
    }
}

impl TryFrom<u8> for Command {
    type Error = NoCommand;

    ghost try_from_gives = { Decodes };

    fn try_from(number: u8) -> Result<Command, NoCommand> {
        match number {
            4 => Ok(Command::Create),
            6 => Ok(Command::Delete),
            8 => Ok(Command::Set),
            9 => Ok(Command::Get),
            11 => Ok(Command::AllAlarms),
            12 => Ok(Command::AlarmsNext),
            13 => Ok(Command::Upload),
            14 => Ok(Command::UploadNext),
            15 => Ok(Command::Reset),
            _ => Err(NoCommand),
        }
    }
}

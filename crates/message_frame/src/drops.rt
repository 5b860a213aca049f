// Why a call is dropped.
ghost use Rattle.std.specs.Prelude.{◌≡◌};
ghost use Rattle.message_frame.specs.Drops.{drop_number};

// The reasons of document 01's list.
#[derive(Clone, Copy, Debug, PartialEq, Eq)]
pub enum DropReason {
    // 1: the reply buffer has no room for a message
    ShortReply,
    // 2: the store is too short, or isn't sound
    UnsoundStore,
    // 3: the message hasn't 48 bytes
    WrongLength,
    // 4: its device isn't 0x0A
    WrongDevice,
    // 5: the top three bits of its type aren't 0, 1, 0
    WrongType,
    // 6: its correlation id is 0
    NoCorrelationId,
    // 7: its bytes 40 to 43 aren't the fixed ones
    WrongFixedBytes,
    // 11: the report is of an instance that isn't there
    NoSuchInstance,
    // 12: what the call names isn't there for it: an attribute that isn't L or an alarm that isn't declared, in a report;
    // a product that isn't built, at a power-on
    NotReported,
    // 13: the report's content hasn't the attribute's size, or isn't legal
    BadContent,
}

impl From<DropReason> for u8 {
    ghost from_gives = { λ d n. n ≡ drop_number d };

    fn from(reason: DropReason) -> u8 {
        match reason {
            DropReason::ShortReply => 1,
            DropReason::UnsoundStore => 2,
            DropReason::WrongLength => 3,
            DropReason::WrongDevice => 4,
            DropReason::WrongType => 5,
            DropReason::NoCorrelationId => 6,
            DropReason::WrongFixedBytes => 7,
            DropReason::NoSuchInstance => 11,
            DropReason::NotReported => 12,
            DropReason::BadContent => 13,
        }
    }
}

// One message, wrong in every way at first, mended fault by fault: each line tells the drop that it is answered with, and why.
#![tactic(auto)]

use message_frame::drops::DropReason;

// Why a message is dropped by itself, in words; the other reasons are about the store, the call or a report.
fn cause(reason: DropReason) -> &'static str {
    match reason {
        DropReason::WrongLength => "not 48 bytes",
        DropReason::WrongDevice => "device not 0x0A",
        DropReason::WrongType => "top three type bits not 0, 1, 0",
        DropReason::NoCorrelationId => "correlation id 0",
        DropReason::WrongFixedBytes => "bytes 40-43 wrong",
        _ => "not by the message itself",
    }
}

// Tells what becomes of a message. The program does nothing else, so a line that can't be written is passed over.
fn say(rt: &impl Print, message: &[u8]) {
    let _ = match message_frame::message_drop(message) {
        Ok(()) => println!(rt; "taken: Get of class 2, instance 0, mask 8000"),
        Err(reason) => println!(rt; "dropped {}: {}", u8::from(reason), cause(reason)),
    };
}

fn main(rt: HostRuntime) {
    say(&rt, &[0; 47]);
    let mut message = [0u8; 48];
    say(&rt, &message);
    message[3] = 0x0A;
    say(&rt, &message);
    message[2] = 0x49;
    say(&rt, &message);
    message[0] = 0x12;
    message[1] = 0x34;
    say(&rt, &message);
    message[5] = 2;
    message[8] = 0x80;
    message[43] = 0x28;
    say(&rt, &message);
}

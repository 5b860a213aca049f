// Which alarms of a bitmap are on.
use super::lists::write_list;
use bench_names::names::alarm;
use bench_names::reads::byte_at;
use std::fmt;

// How many alarms a bitmap of 28 bytes has.
const ALARMS: u8 = 224;

// Is an alarm of a bitmap on?
fn is_on(bitmap: &[u8], number: u8) -> bool {
    bits::alarm_on(byte_at(bitmap, usize::from(number / 8)), number % 8)
}

// The alarms of a class that are on, or that none is.
#[derive(Clone, Copy)]
pub struct Alarms<'a> {
    pub class: u16,
    pub bitmap: &'a [u8],
}

impl fmt::Display for Alarms<'_> {
    fn fmt<W: fmt::Write>(&self, f: &mut fmt::Formatter<W>) -> fmt::Result {
        let (class, bitmap) = (self.class, self.bitmap);
        if !(0..ALARMS).any(|number| is_on(bitmap, number)) {
            return f.write_str("no alarm is on");
        }
        f.write_str("on: ")?;
        write_list(
            f,
            ALARMS,
            |number| is_on(bitmap, number).then_some(alarm(class, number)),
        )
    }
}

// A list of texts, with a comma between them.
use std::fmt::{Display, Formatter, Result, Write};

// Of the numbers below an end, the texts of those that have one here.
pub fn write_list<W: Write, T: Display + Drop, F: Fn(u8) -> Option<T>>(
    f: &mut Formatter<W>,
    end: u8,
    text: F,
) -> Result
    requires { F.IsAlwaysCallable text }
{
    let mut comma = "";
    for number in 0..end {
        if let Some(item) = text(number) {
            write!(f, "{comma}{item}")?;
            comma = ", ";
        }
    }
    Ok(())
}

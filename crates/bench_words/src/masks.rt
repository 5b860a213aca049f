// Attributes that a mask names: their names, or a line for each with its content.
use super::lists::write_list;
use bench_names::names::attribute;
use class_tables::Product;
use std::fmt;
use text_buffer::text::Hexes;

// Does a mask name an attribute? They are counted from 1.
fn is_named(mask: u16, number: u8) -> bool {
    matches!(number, 1..=16) && mask & bits::bit_of(u16::from(number)) != 0
}

// The names of the attributes in a mask.
#[derive(Clone, Copy)]
pub struct Names {
    pub class: u16,
    pub mask: u16,
}

impl fmt::Display for Names {
    fn fmt<W: fmt::Write>(&self, f: &mut fmt::Formatter<W>) -> fmt::Result {
        let (class, mask) = (self.class, self.mask);
        write_list(
            f,
            17,
            |number| is_named(mask, number).then_some(attribute(class, number)),
        )
    }
}

// A line with the names in a mask behind a word, unless the mask is zero.
#[derive(Clone, Copy)]
pub struct Marked {
    pub word: &'static str,
    pub names: Names,
}

impl fmt::Display for Marked {
    fn fmt<W: fmt::Write>(&self, f: &mut fmt::Formatter<W>) -> fmt::Result {
        if self.names.mask == 0 {
            return Ok(());
        }
        write!(f, "\n    {}: {}", self.word, self.names)
    }
}

// How many bytes an attribute of a class takes; Large has every attribute that the other products have, under the same number.
fn size_of(class: u16, number: u8) -> usize {
    attribute_tables::attribute_of(Product::Large, class, u16::from(number)).size
}

// What a line says of an attribute's content.
#[derive(Clone, Copy)]
struct Content<'a>(&'a [u8]);

impl fmt::Display for Content<'_> {
    fn fmt<W: fmt::Write>(&self, f: &mut fmt::Formatter<W>) -> fmt::Result {
        if self.0.is_empty() {
            return f.write_str(": no content");
        }
        write!(f, " = {}", Hexes(self.0))
    }
}

// A line for each attribute in a mask, whose contents stand one behind the other.
#[derive(Clone, Copy)]
pub struct Contents<'a> {
    pub names: Names,
    pub values: &'a [u8],
}

impl fmt::Display for Contents<'_> {
    fn fmt<W: fmt::Write>(&self, f: &mut fmt::Formatter<W>) -> fmt::Result {
        let Names { class, mask } = self.names;
        let mut rest = self.values;
        for number in 1..=16 {
            if is_named(mask, number) {
                let (content, behind) = rest.split_at(size_of(class, number).min(rest.len()));
                write!(f, "\n    {}{}", attribute(class, number), Content(content))?;
                rest = behind;
            }
        }
        Ok(())
    }
}

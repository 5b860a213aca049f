// What holds of each class as a whole. Where the products agree, `product` isn't asked.
ghost use Rattle.std.specs.Prelude.{◌≡◌, slice_get, eqb};
ghost use Rattle.rules.specs.Maps.{◌and◌, keys, among};
ghost use Rattle.rules.specs.Catalogue.{ont_data, known, is_created, leader};
ghost use Rattle.store.specs.Positions.{inside};
ghost use Rattle.message_frame.specs.Commands.{command_number};
ghost use Rattle.class_tables.specs.Built.{cat_of, class_for};
ghost use Rattle.class_tables.specs.Families.{Companion};
ghost use Rattle.class_tables.specs.Meaning.{unkept_of};

use super::built::{by, provisioned};
use super::{Product, Unkept};
use message_frame::commands::Command;

// The class of the ONT data, whose instance 0 every product has: walks are asked of it, and its one attribute is the sync counter.
pub const ONT_DATA: u16 = 2;

// Is it the ONT data's instance?
pub fn is_ont_data(class: u16, number: u16) -> bool
    ensures { result ≡ (eqb class ont_data and eqb number 0) }
{
    (class == ONT_DATA) & (number == 0)
}

// No product has more classes.
pub const MOST_CLASSES: usize = 5;

// The j-th class of the product, in rising order, if it has as many.
pub fn class_at(product: Product, j: usize) -> Option<u16>
    ensures { result ≡ slice_get (keys (cat_of product).classes) j }
{
    match j {
        0 => Some(2),
        1 => Some(11),
        2 => by(product, Some(45), Some(45), None),
        3 => by(product, Some(46), Some(46), None),
        4 => by(product, Some(47), Some(47), None),
        _ => None,
    }
}

pub fn known(product: Product, class: u16) -> bool
    ensures { result ≡ known (cat_of product) class }
{
    match class {
        2 | 11 => true,
        45 | 46 | 47 => provisioned(product),
        _ => false,
    }
}

// Is it the number of this command's message?
fn is_number_of(message: u8, command: Command) -> bool
    ensures { result ≡ eqb message (command_number command) }
{
    message == u8::from(command)
}

// Is the command with this message number for the class? Most numbers are no command's, and for none.
pub fn allows(product: Product, class: u16, message: u8) -> bool
    ensures { result ≡ among message (class_for product class).commands }
{
    let changes = provisioned(product);
    let set_or_get = (changes & is_number_of(message, Command::Set))
        | is_number_of(message, Command::Get);
    let create_or_delete = is_number_of(message, Command::Create)
        | is_number_of(message, Command::Delete);
    match class {
        2 => set_or_get | is_number_of(message, Command::Reset),
        11 => set_or_get,
        46 => changes & set_or_get,
        45 | 47 => changes & (create_or_delete | set_or_get),
        _ => false,
    }
}

// Do instances of the class come about by a Create?
pub fn is_created(product: Product, class: u16) -> bool
    ensures { result ≡ is_created (class_for product class).creation }
{
    match class {
        45 | 47 => provisioned(product),
        _ => false,
    }
}

// The class with whose instances the class's own come: itself, unless it comes with another.
pub fn leader_of(product: Product, class: u16) -> u16
    ensures { result ≡ leader (cat_of product) class }
{
    match class {
        46 => by(product, 45, 45, 46),
        _ => class,
    }
}

// The class whose instances come with the class's own, if there is one.
pub fn companion_of(product: Product, class: u16) -> Option<u16>
    ensures { Companion product class result }
{
    match class {
        45 => by(product, Some(46), Some(46), None),
        _ => None,
    }
}

// Where an instance's contents begin in the entry that it shares with those that come with it.
pub fn inside(product: Product, class: u16) -> usize
    ensures { result ≡ inside (cat_of product) class }
{
    match class {
        46 => by(product, 11, 11, 0),
        _ => 0,
    }
}

pub fn alarm_declared(product: Product, class: u16, alarm: u8) -> bool
    ensures { result ≡ among alarm (class_for product class).alarms }
{
    match class {
        // LAN loss of signal
        11 => alarm == 0,
        _ => false,
    }
}

// What a Create of the class carries behind the rest and the product doesn't keep, if there is such an attribute.
pub fn unkept(product: Product, class: u16) -> Option<Unkept>
    ensures { unkept_of result ≡ (class_for product class).unkept }
{
    match class {
        // Small's port configuration doesn't keep LANFCSInd
        47 => by(product, Some(Unkept { number: 9, size: 1 }), None, None),
        _ => None,
    }
}

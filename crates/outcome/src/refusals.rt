// Why a command is refused, and the reply's contents that tell it.
ghost use Rattle.std.specs.Prelude.{◌≡◌, replicate};
ghost use Rattle.rules.specs.Bytes.{fill};
ghost use Rattle.outcome.specs.Refusals.{result_of, refused};

#[derive(Clone, Copy, Debug, PartialEq, Eq)]
pub enum Refusal {
    // no place is free
    NoPlace,
    // the class doesn't have the command
    NotSupported,
    // it names no attribute, or more than the message has room for
    BadParameter,
    // what a Create carries isn't legal: the attributes of the mask
    BadValues(u16),
    UnknownClass,
    UnknownInstance,
    InstanceExists,
    // a Set fails by the attributes of two masks
    AttributesFailed {
        // those that the class doesn't have
        unsupported: u16,
        // those that a Set may not write, or whose content isn't legal
        failed: u16,
    },
    // a Get names attributes that the class doesn't have: those of the mask
    AttributesMissing(u16),
}

// The result in the reply's first byte.
impl From<Refusal> for u8 {
    ghost from_gives = { λ r n. n ≡ result_of r };

    fn from(refusal: Refusal) -> u8 {
        match refusal {
            Refusal::NoPlace => 1,
            Refusal::NotSupported => 2,
            Refusal::BadParameter => 3,
            Refusal::BadValues(_) => 3,
            Refusal::UnknownClass => 4,
            Refusal::UnknownInstance => 5,
            Refusal::InstanceExists => 7,
            Refusal::AttributesFailed { .. } => 9,
            Refusal::AttributesMissing(_) => 9,
        }
    }
}

// Where a mask stands in the contents: behind the result; a second one behind it; a Get's behind the values that aren't there.
const MASK: usize = 1;

const SECOND_MASK: usize = 3;

const MISSING_MASK: usize = 28;

// Writes a refusal into the contents of a reply.
pub fn put_refusal(out: &mut [u8], refusal: Refusal)
    requires { out.old ≡ replicate 32 0 }
    ensures { out.new ≡ fill 32 (refused refusal) }
{
    out[0] = u8::from(refusal);
    match refusal {
        Refusal::BadValues(bad) => octets::put_number(out, MASK, bad),
        Refusal::AttributesFailed {
            unsupported,
            failed,
        } => {
            octets::put_number(out, MASK, unsupported);
            octets::put_number(out, SECOND_MASK, failed);
        }
        Refusal::AttributesMissing(missing) => octets::put_number(out, MISSING_MASK, missing),
        _ => {}
    }
}

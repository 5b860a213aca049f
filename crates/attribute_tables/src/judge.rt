// Is a content legal?
ghost use Rattle.std.specs.Prelude.{◌≡◌};
ghost use Rattle.attribute_tables.specs.Judged.{fine_if, Judged};

use class_tables::{Attribute, Rule, Verdict};

fn fine_if(b: bool) -> Verdict
    ensures { result ≡ fine_if b }
{
    if b { Verdict::Fine } else { Verdict::Bad }
}

// `value` is the number in the content; `condition` the number in attribute `a.only_if` of its instance, if there is one.
pub fn judge(a: Attribute, value: u16, condition: u16) -> Verdict
    ensures { Judged a value condition result }
{
    match a.rule {
        Rule::Any => Verdict::Fine,
        Rule::Range(low, high) => fine_if((low <= value) & (value <= high)),
        Rule::Listed(one, other) => fine_if((value == one) | (value == other)),
        Rule::Pointer(class) => {
            if a.only_if.is_none() | (condition == 1) {
                Verdict::Asks(class, value)
            } else {
                Verdict::Fine
            }
        }
    }
}

// The sync counter: attribute 1 of class 2, the byte in front of a live table.
ghost use Rattle.std.specs.Prelude.{◌≡◌, ◌<◌, length};
ghost use Rattle.table.specs.Counts.{moved_on};

// Moves the counter on.
pub fn move_counter(b: &mut [u8])
    requires { 0 < length b.old }
    ensures { b.new ≡ moved_on b.old }
{
    b[0] = bits::next_number(b[0]);
}

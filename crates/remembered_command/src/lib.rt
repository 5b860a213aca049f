// The remembered command: its first 40 bytes and its reply's 48, behind a byte that says whether there is one. The functions take these bytes
// alone, not the store that they are a part of.
#![tactic(auto)]

ghost use Rattle.std.specs.Prelude.{◌≡◌, ◌∷◌, ◌++◌, ◌+◌, ◌≤◌, length, take, drop};
ghost use Rattle.rules.specs.Bytes.{laid};
ghost use Rattle.rules.specs.Run.{reply_length};
ghost use Rattle.store.specs.Layout.{command_length, memory_length};
ghost use Rattle.remembered_command.specs.Remembering.{reply_at, repeats};

use store::layout::{COMMAND, MEMORY, REPLY};

// Where the command and its reply stand.
const COMMAND_AT: usize = 1;

const REPLY_AT: usize = COMMAND_AT + COMMAND;

// Are a message's first 40 bytes those of the remembered command?
pub fn is_repeat(memory: &[u8], m: &[u8]) -> bool
    requires { (length memory.now ≡ 1 + memory_length) × (command_length ≤ length m.now) }
    ensures { result ≡ repeats memory.now m.now }
{
    (memory[0] == 1) & octets::same_bytes(&m[..COMMAND], &memory[COMMAND_AT..REPLY_AT])
}

// Writes the remembered reply into a buffer.
pub fn recall(memory: &[u8], buffer: &mut [u8])
    requires { (length memory.now ≡ 1 + memory_length) × (reply_length ≤ length buffer.old) }
    ensures { buffer.new ≡ laid 0 (take reply_length (drop reply_at memory.now)) buffer.old }
{
    octets::copy_in(buffer, 0, &memory[REPLY_AT..MEMORY]);
}

// Remembers a message and the reply in a buffer's first 48 bytes. Both are gathered in an array first: copied straight from one lent slice into another
// they took 57 instructions, not 47, and four times the code, the likely reason being that the two may overlap for all that the compiler knows.
pub fn remember(memory: &mut [u8], m: &[u8], buffer: &[u8])
    requires { (length memory.old ≡ 1 + memory_length) × (command_length ≤ length m.now) × (reply_length ≤ length buffer.now) }
    ensures { memory.new ≡ 1 ∷ take command_length m.now ++ take reply_length buffer.now }
{
    let mut both = [0u8; MEMORY];
    both[0] = 1;
    octets::copy_in(&mut both, COMMAND_AT, &m[..COMMAND]);
    octets::copy_in(&mut both, REPLY_AT, &buffer[..REPLY]);
    memory.copy_from_slice(&both);
}

// The run that is played where no input came: a bridge is built, the link drops during an upload, and the upload stays whole.
use bench_run::run::Run;
use bench_terminal::{Bench, Player};
use std::mem;

// The script in its parts: before the link drops, the drop, the rest of the upload, and a Get behind it.
const BEFORE: &str =
    "# a bridge is built: a bridge service profile and two ports, and the UNI's admin state is set
power small
0001 44 0A 002D 0001 01010080 00140002 000F0000 00000000 00000000 00000000 00000000 00000000 00000028 00000000
0002 44 0A 002F 0001 00010101 01010080 00010000 00000000 00000000 00000000 00000000 00000000 00000028 00000000
0003 44 0A 002F 0002 00010202 00070080 00010100 00000000 00000000 00000000 00000000 00000000 00000028 00000000
0004 48 0A 000B 0101 08000100 00000000 00000000 00000000 00000000 00000000 00000000 00000000 00000028 00000000
# an upload is asked for, and the first three of its five sections are fetched
0005 4D 0A 0002 0000 00000000 00000000 00000000 00000000 00000000 00000000 00000000 00000000 00000028 00000000
0006 4E 0A 0002 0000 00000000 00000000 00000000 00000000 00000000 00000000 00000000 00000000 00000028 00000000
0007 4E 0A 0002 0000 00010000 00000000 00000000 00000000 00000000 00000000 00000000 00000000 00000028 00000000
0008 4E 0A 0002 0000 00020000 00000000 00000000 00000000 00000000 00000000 00000000 00000000 00000028 00000000
";

const MEANWHILE: &str =
    "# meanwhile the link drops: the operational state changes, and the signal is lost
report 11 0x0101 6 01
alarm 11 0x0101 0 on
";

const AFTER: &str = "# the last two sections are fetched, and the first one, the UNI's, once more
0009 4E 0A 0002 0000 00030000 00000000 00000000 00000000 00000000 00000000 00000000 00000000 00000028 00000000
000A 4E 0A 0002 0000 00040000 00000000 00000000 00000000 00000000 00000000 00000000 00000000 00000028 00000000
000B 4E 0A 0002 0000 00000000 00000000 00000000 00000000 00000000 00000000 00000000 00000000 00000028 00000000
";

const FRESH: &str = "# a fresh Get shows the new operational state
000C 49 0A 000B 0101 04000000 00000000 00000000 00000000 00000000 00000000 00000000 00000000 00000028 00000000
";

const WHOLE: &str = "
The same script was played on a second product whose link does not drop. All six sections that were fetched are the same byte
for byte: the upload shows the table as it stood when it was asked for, while the fresh Get shows the new operational state.
Last year's accident can't happen.
";

const NOT_WHOLE: &str = "\nThe sections differ from those of a product whose link does not drop.\n";

// Shows the script and plays it; then plays the upload without a word on a second product, where the link doesn't drop.
pub fn play<R: Print>(rt: &R, player: &mut Player<'_>) {
    let shown = format_args!(
        "No input came, so this script is played:\n\n{BEFORE}{MEANWHILE}{AFTER}{FRESH}\n"
    );
    player.bench.run.say(rt, &shown);
    for part in [BEFORE, MEANWHILE, AFTER, FRESH] {
        player.take_chunk(rt, part.as_bytes());
    }
    // The second product has the same room: its bench stands in the place of the first meanwhile.
    let first = mem::replace(&mut player.bench, Bench::new(Run::silent()));
    for part in [BEFORE, AFTER] {
        player.take_chunk(rt, part.as_bytes());
    }
    let second = mem::replace(&mut player.bench, first);
    let same = player.bench.has_same_sections(&second);
    tell(rt, same, &mut player.bench.run);
}

// What the comparison came to.
fn tell<R: Print>(rt: &R, same: bool, run: &mut Run) {
    if same {
        run.say(rt, &WHOLE);
    } else {
        run.one_wrong();
        run.say(rt, &NOT_WHOLE);
    }
}

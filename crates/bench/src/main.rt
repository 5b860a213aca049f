// The bench terminal: powers on a product and plays a script from standard input, a call a line, with each outcome in hex and in words.
// Without any input it plays a built-in run. It has no exit status of its own: what went wrong is said in one line on standard error.
#![tactic(auto)]

mod builtin;
mod input;

use bench_run::run::Run;
use bench_terminal::{Player, room};

fn main(rt: HostRuntime) {
    let mut space = room();
    let mut player = Player::new(Run::new(), &mut space);
    input::play(&rt, &mut rt.stdin(), &mut player);
    player.take_end(&rt);
    if !player.bench.run.seen && player.bench.run.readable {
        builtin::play(&rt, &mut player);
    }
    player.bench.run.end(&rt);
}

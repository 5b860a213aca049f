// Standard input, from its first byte to its last.
use bench_terminal::Player;
use std::io::Read;

// A proved loop has to end, and nothing says that the input does: so it has a bound that no run comes to. It also ends where the
// output can't be written any more.
pub fn play<R: Print, I: Read>(rt: &R, input: &mut I, player: &mut Player<'_>) {
    let mut chunk = [0u8; 65536];
    for _ in 0..u64::MAX {
        match input.read(&mut chunk) {
            Err(_) => {
                player.bench.run.readable = false;
                return;
            }
            Ok(0) => return,
            Ok(count) => {
                player.bench.run.seen = true;
                player.take_chunk(rt, &chunk[..count]);
            }
        }
        if !player.bench.run.written {
            return;
        }
    }
}

// What no script of calls can reach: memory of a wrong size, the picture limit, and a slip that a refused closing hands back. And a caller of the
// library as one would write it: the slip goes from call to call and is handed in at the end.
#![tactic(auto)]

ghost use Rattle.std.specs.Prelude.{◌≡◌};
ghost use Rattle.reel.specs.Memories.{held_in};
ghost use Rattle.reel_tests.specs.Recorded.{opened_whole, recorded, rested};

use pictures::Store;
use reel::memory::Memory;
use reel::reels::Reel;
use transform::Transform;

#[cfg(test)]
mod tests;

// Records a picture of one segment: opens it, delivers its bytes and closes it. A memory that an opening was accepted over is not refused at the closing.
// (The kind is the caller's number, as the opening takes it.)
pub fn record_picture<S: Store, T: Transform>(
    reel: Reel,
    memory: &mut Memory<S>,
    transform: &T,
    kind: u32,
    bytes: &[u8],
) -> Reel
    ensures reel { result ≡ rested bytes.now (held_in S.picture memory.old) (opened_whole reel kind (held_in S.picture memory.old)) }
    ensures memory { held_in S.picture memory.new ≡ recorded (T.meaning transform.now) bytes.now (held_in S.picture memory.old) (opened_whole reel kind (held_in S.picture memory.old)) }
{
    match reel.open(memory, kind, 0, 1) {
        Ok((slip, _)) => {
            let (slip, _) = slip.deliver(memory, transform, 0, bytes);
            match slip.close(memory) {
                Ok((rested, _)) => rested,
                Err(_) => unreachable(),
            }
        }
        Err((rested, _)) => rested,
    }
}

// Reading an input whole.
ghost use Rattle.std.specs.Prelude.{◌<◌, ◌≤◌, length, take, IfOk};
ghost use Rattle.std.specs.Io.KnownBytes.{Consumes, IsAtEnd};

use std::io;
use std::io::Read;

// Reads until the space is full or the input ends, and says how many bytes it put at the front.
pub fn read_full<R: Read>(from: &mut R, space: &mut [u8]) -> io::Result<usize>
    ensures fits { IfOk result (λ n. n ≤ length space.new) }
    ensures bytes { IfOk result (λ n. Consumes (R.remaining from.old) (R.remaining from.new) (take n space.new)) }
    ensures whole { IfOk result (λ n. n < length space.new → IsAtEnd (R.remaining from.new)) }
{
    let mut done = 0;
    // How far a turn comes is the reader's to say, so no range counts it.
    while done < space.len() {
        let n = from.read(&mut space[done..])?;
        if n == 0 {
            break;
        }
        done += n;
    }
    Ok(done)
}

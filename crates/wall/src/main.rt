// The front door. Standard input has a configuration on its first line, the width (8, 16 or 32), the order, the shift, the bias and the
// weights, the oldest sample's first, and after that line a wall trace, all as decimal numbers between blanks. The trace is encoded, the
// residuals are cut into pieces, the pieces are decoded in order, and what comes of it is printed. Bad input gets one line and nothing else:
// the refusal's number, or `(text)` where the text is no such input, the place, and what is wrong there. The text is read before anything is
// coded, so a fault of the text is told before a refusal.
#![tactic(auto)]

ghost use Rattle.std.specs.Prelude.{◌≤◌, length};

use reading::{Fault, Head, Wanted};
use std::io;

mod coding;
mod reading;
mod refusing;
mod report;
mod saying;

// The longest input, in bytes. A trace of 4096 numbers of 32 bits, the longest, fits.
const MOST_BYTES: usize = 65536;

const MOST_SAMPLES: usize = 4096;

fn with_trace(
    rt: &impl Print,
    text: &[u8],
    c: Head,
    weights: &[i32],
    trace: &[u64],
) -> io::Result<()>
    requires { (length weights.now ≤ 33) × (length trace.now ≤ 4096) }
{
    match coding::encode(c, weights, trace) {
        Ok(coded) => report::report(rt, c, weights, trace, coded),
        Err(refusal) => refusing::say_refusal(rt, text, c, trace.len(), refusal),
    }
}

fn answer(rt: &impl Print, text: &[u8]) -> io::Result<()> {
    let mut weights = [0; 33];
    let mut trace = [0; MOST_SAMPLES];
    match reading::read(text, &mut weights, &mut trace) {
        Ok(given) => with_trace(
            rt,
            text,
            given.configuration,
            &weights[..given.weights],
            &trace[..given.samples],
        ),
        Err(fault) => refusing::say_fault(rt, text, fault),
    }
}

fn main(rt: HostRuntime) -> io::Result<()> {
    let mut input = [0; MOST_BYTES + 1];
    let n = text::input::read_full(&mut rt.reader(), &mut input)?;
    if MOST_BYTES < n {
        let fault = Fault {
            wanted: Wanted::EndOfInput,
            at: MOST_BYTES,
        };
        return refusing::say_fault(&rt, &input, fault);
    }
    answer(&rt, &input[..n])
}

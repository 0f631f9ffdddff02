// One case by one way, at any width: samples are held as numbers of 64 bits, and `coder` has them as its own around each call.
ghost use Rattle.std.specs.Prelude.{◌<◌, ◌≤◌, ◌^◌};

use crate::saying::{sum, verdict};
use kinds::{Refusal, Width};
use std::{fmt, io};

// A configuration with the first `given` of its weights, and the number of samples.
#[derive(Clone, Copy)]
pub struct Case {
    pub width: Width,
    pub order: usize,
    pub shift: u32,
    pub bias: i64,
    pub weights: [i32; 33],
    pub given: usize,
    pub count: usize,
    ghost listed: { given ≤ 33 },
    ghost room: { count ≤ 2048 },
}

impl fmt::Display for Case {
    fn fmt<W: fmt::Write>(&self, f: &mut fmt::Formatter<W>) -> fmt::Result {
        let bits = match self.width {
            Width::Eight => 8,
            Width::Sixteen => 16,
            Width::ThirtyTwo => 32,
        };
        write!(
            f,
            "{bits} {} {} {} {}",
            self.order, self.shift, self.bias, self.count
        )
    }
}

#[derive(Clone, Copy, Debug, PartialEq, Eq, Hash)]
pub enum Way {
    Encoding,
    General,
    User,
}

// What a coder works on and leaves: what it says, the row of samples or residuals, and the state's array and count.
#[derive(Clone, Copy)]
pub struct Tape {
    pub said: Result<(), Refusal>,
    pub row: [u64; 2048],
    pub held: [u64; 2048],
    pub kept: usize,
}

// The next of a row of numbers that look like chance.
fn next(seed: u64) -> u64
    ensures { result < 2 ^ 32 }
{
    (seed % 4294967291 * 1664525 + 1013904223) % 4294967291
}

// A noisy trace, always the same.
fn trace_of(width: Width) -> [u64; 2048] {
    let mut row = [0; 2048];
    let mut seed = 1;
    for sample in row.iter_mut() {
        seed = next(seed);
        *sample = seed / 7 & admission::limits::greatest_sample(width);
    }
    row
}

// One call of a coder, on the samples from a place on, up to another.
fn call(c: Case, way: Way, from: usize, end: usize, tape: &mut Tape)
    requires { (from ≤ end) × (end ≤ 2048) }
{
    match c.width {
        Width::Eight => crate::coder::call::<u8>(c, way, from, end, tape),
        Width::Sixteen => crate::coder::call::<u16>(c, way, from, end, tape),
        Width::ThirtyTwo => crate::coder::call::<u32>(c, way, from, end, tape),
    }
}

// An empty piece, then pieces of 37 residuals.
fn decode_pieces(c: Case, way: Way, tape: &mut Tape)
    requires { c.order ≤ c.count }
{
    let mut start = c.order;
    call(c, way, start, start, tape);
    // The row is one array of both, and a lent part says nothing of what a chunk wrote, so the pieces are cut by their places.
    while start < c.count {
        let end = start + (c.count - start).min(37);
        call(c, way, start, end, tape);
        start = end;
    }
}

// Decodes in pieces, prints, and compares with the trace.
fn decode(rt: &impl Print, c: Case, way: Way, coded: Tape, trace: [u64; 2048]) -> io::Result<()>
    requires { c.order ≤ c.count }
{
    let mut last = coded;
    decode_pieces(c, way, &mut last);
    let outputs = &last.row[c.order..c.count];
    print!(rt; " {}", sum(outputs))?;
    print!(rt; " {}", sum(&last.held[..32]))?;
    let (early, late) = trace[..c.count].split_at(c.count - c.order);
    print!(rt; " {}", verdict(outputs, early))?;
    print!(rt; " {}", verdict(&last.held[..c.order], late))
}

// Encodes a trace, prints, and goes on where there are residuals.
fn encode(rt: &impl Print, c: Case, way: Way) -> io::Result<()> {
    let trace = trace_of(c.width);
    let mut tape = Tape {
        said: Ok(()),
        row: trace,
        held: [0; 2048],
        kept: 0,
    };
    call(c, Way::Encoding, 0, c.count, &mut tape);
    print!(rt; " {}", kinds::number(tape.said))?;
    print!(rt; " {}", sum(&tape.row[..c.count]))?;
    print!(rt; " {}", sum(&tape.held[..32]))?;
    if tape.said.is_err() || c.count <= c.order {
        return Ok(());
    }
    decode(rt, c, way, tape, trace)
}

pub(crate) fn run(rt: &impl Print, c: Case, way: Way) -> io::Result<()> {
    print!(rt; "{c}:")?;
    encode(rt, c, way)?;
    println!(rt)
}

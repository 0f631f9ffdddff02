// What is printed of a trace that was encoded.
ghost use Rattle.std.specs.Prelude.{◌<◌, ◌≤◌, length};

use crate::coding::{Coded, decode, to_samples};
use crate::reading::Head;
use crate::saying::{say_configuration, say_row};
use std::io;

// Sizes of pieces: 1, 2, 4 and so on up to 64. The first are shorter than most orders, the case in which a state is partly the
// state before it; the last are as long as the pieces that a queue hands on.
fn next_size(size: usize) -> usize
    requires { 0 < size }
    ensures { 0 < result }
{
    if size < 64 { size * 2 } else { size }
}

// Prints each piece of the n - k residuals and decodes it.
fn decode_pieces(
    rt: &impl Print,
    c: Head,
    weights: &[i32],
    n: usize,
    coded: Coded,
) -> io::Result<Coded>
    requires { (length weights.now ≤ 33) × (n ≤ 4096) × (c.order.0 ≤ n) }
{
    let Coded { mut row, mut state } = coded;
    let residuals = to_samples(c.width, &row);
    let mut start = c.order.0;
    let mut size = 1;
    // A piece's size depends on the one before it, so no `chunks` of one size gives these.
    while start < n {
        let end = start + size.min(n - start);
        print!(rt; "a piece of {}, from place {start} on:", end - start)?;
        say_row(rt, &residuals[start..end])?;
        decode(c, weights, &mut state, &mut row, start, end);
        start = end;
        size = next_size(size);
    }
    Ok(Coded { row, state })
}

// How many samples came back: outputs stand from place k on, and after them come the k samples of the last state.
fn agreeing(c: Head, last: Coded, trace: &[u64]) -> usize
    ensures { result ≤ length trace.now }
{
    let k = c.order.0;
    let row = to_samples(c.width, &last.row);
    let state = to_samples(c.width, &last.state);
    let outputs = row.iter().take(trace.len()).skip(k);
    let samples = outputs.chain(state.iter().take(k));
    samples.zip(trace).take_while(|(a, b)| a == b).count()
}

// `same` samples from the front on are those of the trace.
fn say_verdict(rt: &impl Print, same: usize, samples: usize) -> io::Result<()> {
    if same < samples {
        return println!(rt; "NOT WHOLE: the first difference is at place {same}");
    }
    println!(rt; "whole: the {samples} samples came back")
}

pub(crate) fn report(
    rt: &impl Print,
    c: Head,
    weights: &[i32],
    trace: &[u64],
    coded: Coded,
) -> io::Result<()>
    requires { (length weights.now ≤ 33) × (length trace.now ≤ 4096) }
{
    let n = trace.len();
    if n < c.order.0 {
        return Ok(());
    }
    say_configuration(rt, c, weights, n)?;
    print!(rt; "saved state:")?;
    let state = to_samples(c.width, &coded.state);
    say_row(rt, &state[..c.order.0.min(32)])?;
    // MID is half of M and 1. A residual of MID says that the prediction was right.
    let middle = admission::limits::greatest_sample(c.width) / 2 + 1;
    println!(rt;
        "residuals, sample - prediction + MID, where MID is {middle}; places are counted from 0:"
    )?;
    let last = decode_pieces(rt, c, weights, n, coded)?;
    say_verdict(rt, agreeing(c, last, trace), n)
}

// Decodes from states by value whose places past the order hold something, and whose counts are right or forged, with the table's T1 at 16
// bits. A line has the count, the answer's number, the first four places of the state's array afterwards, its count, and the piece.
#![tactic(auto)]

use decoding::by_value::{Decoded, decode_in_place};
use kinds::{Configuration, Order, SampleCount, Shift};
use sample::State;
use std::io;

fn decode(rt: &impl Print, count: usize) -> io::Result<()> {
    let mut samples = [0; 32];
    samples[..4].copy_from_slice(&[10, 77, 78, 79]);
    let forged = State {
        samples,
        count: SampleCount(count),
    };
    let config = Configuration {
        order: Order(1),
        shift: Shift(0),
        bias: 0,
        weights: &[1],
    };
    let mut piece = [32770u16];
    let Decoded { said, state } = decode_in_place(config, forged, &mut piece);
    print!(rt; " {count} {}", kinds::number(said))?;
    for sample in &state.samples[..4] {
        print!(rt; " {sample}")?;
    }
    println!(rt; " {} {}", state.count.0, piece[0])
}

fn main(rt: HostRuntime) -> io::Result<()> {
    for count in [1, 0, 2, 32, 33, 40, usize::MAX] {
        decode(&rt, count)?;
    }
    Ok(())
}

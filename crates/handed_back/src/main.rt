// Writes through the part that encoding hands back, and shows that it is the caller's own slice which changes. A line has the answer's
// number, the part's length, the caller's samples afterwards and the lent state. The first is the table's T2 at 16 bits, whose first
// residual is then overwritten with 7; the second has too few samples.
#![tactic(auto)]

use kinds::{Configuration, Order, Shift};
use std::io;

fn say_samples(rt: &impl Print, samples: &[u16]) -> io::Result<()> {
    for sample in samples {
        print!(rt; " {sample}")?;
    }
    Ok(())
}

// How long the part is, whose first place becomes 7.
fn overwrite(part: &mut [u16]) -> usize {
    if let Some(first) = part.first_mut() {
        *first = 7;
    }
    part.len()
}

fn code(rt: &impl Print, samples: &mut [u16]) -> io::Result<()> {
    let mut state = [0; 2];
    let mut number = 0;
    let config = Configuration {
        order: Order(2),
        shift: Shift(0),
        bias: 0,
        weights: &[-1, 2],
    };
    let part = encoding::by_value::encode(config, samples, &mut state, &mut number);
    let length = overwrite(part);
    print!(rt; " {number} {length}")?;
    say_samples(rt, samples)?;
    say_samples(rt, &state)?;
    println!(rt)
}

fn main(rt: HostRuntime) -> io::Result<()> {
    code(&rt, &mut [10, 12, 14, 15])?;
    code(&rt, &mut [10])
}

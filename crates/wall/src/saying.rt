// Printing: configurations and rows of numbers.
use crate::reading::Head;
use kinds::{Order, Shift, Width};
use std::io;

// Numbers to a line, so that places can be counted.
const ROW: usize = 10;

pub(crate) fn say_row(rt: &impl Print, numbers: &[u64]) -> io::Result<()> {
    for row in numbers.chunks(ROW) {
        print!(rt; "\n ")?;
        for number in row {
            print!(rt; " {number}")?;
        }
    }
    println!(rt)
}

fn bits(width: Width) -> u32 {
    match width {
        Width::Eight => 8,
        Width::Sixteen => 16,
        Width::ThirtyTwo => 32,
    }
}

pub(crate) fn say_configuration(
    rt: &impl Print,
    c: Head,
    weights: &[i32],
    samples: usize,
) -> io::Result<()> {
    let bits = bits(c.width);
    let Order(order) = c.order;
    let Shift(shift) = c.shift;
    let bias = c.bias;
    print!(rt;
        "configuration: samples of {bits} bits, order {order}, shift {shift}, bias {bias}, weights"
    )?;
    for weight in weights {
        print!(rt; " {weight}")?;
    }
    println!(rt; "\nsamples: {samples}")
}

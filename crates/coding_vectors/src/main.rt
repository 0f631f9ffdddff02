// Runs the coders on lengths around every boundary, on every order, on shifts and sums at their edges, and on calls that are refused.
// A line has the width, the order, the shift, the bias and the number of samples; then the answer's number and the check sums of the
// buffer and of the saved state's array. Where there are residuals there follow the check sums of what decoding in pieces gives and of the
// last state's array, and whether the outputs, and the last state, are the trace again. The first line of a case is the general way,
// the second the way that a user calls.
#![tactic(auto)]

ghost use Rattle.std.specs.Prelude.{◌≤◌};

use kinds::Width;
use std::io;
use trial::{Case, Way};

mod coder;
mod saying;
mod trial;

// Weights that the three widths admit, whatever the order.
const NARROW: [i32; 33] = [
    1, -2, -3, -2, 2, 1, -2, 3, 0, 1, 0, 3, -1, 2, -2, -1, -1, 0, -2, 1, 3, -2, -3, 2, -2, 0, 3, 0,
    1, 2, 0, -2, 0,
];

const MIDDLE: [i32; 33] = [
    -892, -369, -573, 115, -55, -673, 565, -672, -428, -433, -72, 157, 684, -169, -428, -768, -285,
    439, -546, -743, -720, 742, -854, -204, -288, -834, 182, -203, -571, 328, -233, -540, 0,
];

const WIDE: [i32; 33] = [
    55616, 57076, -42731, -9613, 30914, 48616, 21579, 5484, 5040, -3534, 33838, -4183, -21603,
    36472, -59740, 43147, -12692, 25543, 28502, 54860, -6941, -24537, -3363, 50206, 28537, -30191,
    -6017, 19418, 17480, -28012, 17682, 22615, 0,
];

// Lengths around the ends of a chunk of 512 samples, of one with the order before it, and of several.
const LENGTHS: [usize; 13] = [
    511, 512, 513, 514, 543, 544, 545, 1023, 1024, 1055, 1056, 1537, 2016,
];

// A line for each way.
fn run(rt: &impl Print, c: Case) -> io::Result<()> {
    trial::run(rt, c, Way::General)?;
    trial::run(rt, c, Way::User)
}

// One order and length at the three widths.
fn at_widths(rt: &impl Print, order: usize, count: usize) -> io::Result<()>
    requires { (order ≤ 33) × (count ≤ 2048) }
{
    let eight = Case {
        width: Width::Eight,
        order,
        shift: 1,
        bias: -100,
        weights: NARROW,
        given: order,
        count,
    };
    let sixteen = Case {
        width: Width::Sixteen,
        order,
        shift: 9,
        bias: -70000,
        weights: MIDDLE,
        given: order,
        count,
    };
    let thirty_two = Case {
        width: Width::ThirtyTwo,
        order,
        shift: 15,
        bias: 8000000000,
        weights: WIDE,
        given: order,
        count,
    };
    run(rt, eight)?;
    run(rt, sixteen)?;
    run(rt, thirty_two)
}

fn every_order(rt: &impl Print) -> io::Result<()> {
    for order in 1..33 {
        at_widths(rt, order, order)?;
        at_widths(rt, order, 511 + order)?;
        at_widths(rt, order, 1025)?;
    }
    Ok(())
}

fn every_length(rt: &impl Print, order: usize) -> io::Result<()>
    requires { order ≤ 32 }
{
    at_widths(rt, order, order + 1)?;
    for count in LENGTHS {
        at_widths(rt, order, count)?;
    }
    Ok(())
}

// The last weight, and one that stands for each before it.
fn edge(
    rt: &impl Print,
    width: Width,
    order: usize,
    shift: u32,
    bias: i64,
    before: i32,
    last: i32,
) -> io::Result<()>
    requires { (1 ≤ order) × (order ≤ 33) }
{
    let mut weights = [before; 33];
    weights[order - 1] = last;
    let case = Case {
        width,
        order,
        shift,
        bias,
        weights,
        given: order,
        count: 600,
    };
    run(rt, case)
}

// As many weights as are given, each the same.
fn refused(
    rt: &impl Print,
    width: Width,
    order: usize,
    shift: u32,
    bias: i64,
    weight: i32,
    given: usize,
    count: usize,
) -> io::Result<()>
    requires { (given ≤ 33) × (count ≤ 2048) }
{
    let case = Case {
        width,
        order,
        shift,
        bias,
        weights: [weight; 33],
        given,
        count,
    };
    run(rt, case)
}

// Shifts at both ends, sums at the accumulator's edges, sums below 0 and predictions that wrap.
fn edges(rt: &impl Print) -> io::Result<()> {
    edge(rt, Width::Eight, 1, 0, 127, 0, 128)?;
    edge(rt, Width::Eight, 1, 0, 128, 0, 128)?;
    edge(rt, Width::Eight, 1, 15, -127, 0, -128)?;
    edge(rt, Width::Eight, 1, 0, -128, 0, -128)?;
    edge(rt, Width::Eight, 1, 16, 0, 0, 1)?;
    edge(rt, Width::Eight, 2, 0, 0, 64, 64)?;
    edge(rt, Width::Eight, 2, 6, 0, -64, 128)?;
    edge(rt, Width::Eight, 1, 0, i64::MIN, 0, 0)?;
    edge(rt, Width::Sixteen, 1, 0, 32767, 0, 32768)?;
    edge(rt, Width::Sixteen, 1, 0, 65535, 0, 32768)?;
    edge(rt, Width::Sixteen, 1, 0, 0, 0, 32769)?;
    edge(rt, Width::Sixteen, 1, 31, -65535, 0, -32767)?;
    edge(rt, Width::Sixteen, 1, 32, 0, 0, 1)?;
    edge(rt, Width::ThirtyTwo, 1, 0, 0, 0, i32::MAX)?;
    edge(rt, Width::ThirtyTwo, 1, 0, 2147483647, 0, i32::MIN)?;
    edge(rt, Width::ThirtyTwo, 1, 0, 2147483648, 0, i32::MIN)?;
    edge(rt, Width::ThirtyTwo, 1, 63, -i64::MAX, 0, 0)?;
    edge(rt, Width::ThirtyTwo, 1, 0, i64::MIN, 0, 0)?;
    edge(rt, Width::ThirtyTwo, 1, 64, 0, 0, 1)?;
    edge(rt, Width::ThirtyTwo, 3, 0, 0, i32::MIN, 2)?;
    edge(rt, Width::ThirtyTwo, 1, 0, 0, 0, 2)
}

// One fault, and faults that meet: the first in the order 1, 2, 4, 3, 5 is told.
fn refusals(rt: &impl Print) -> io::Result<()> {
    refused(rt, Width::Sixteen, 0, 0, 0, 0, 0, 5)?;
    refused(rt, Width::Sixteen, 33, 0, 0, 0, 33, 50)?;
    refused(rt, Width::Sixteen, 33, 32, 0, 0, 1, 5)?;
    refused(rt, Width::Sixteen, 2, 32, 0, 0, 1, 1)?;
    refused(rt, Width::Sixteen, 2, 31, 0, 0, 1, 1)?;
    refused(rt, Width::Sixteen, 2, 0, 0, i32::MIN, 3, 1)?;
    refused(rt, Width::Sixteen, 2, 0, 0, i32::MIN, 2, 1)?;
    refused(rt, Width::Sixteen, 2, 0, 0, 0, 2, 1)?;
    refused(rt, Width::Sixteen, 2, 0, 0, 0, 2, 0)?;
    refused(rt, Width::Sixteen, 2, 0, 0, 0, 2, 2)?;
    refused(rt, Width::ThirtyTwo, 32, 63, i64::MIN, i32::MIN, 32, 100)?;
    refused(rt, Width::ThirtyTwo, 32, 63, 0, 0, 32, 31)?;
    refused(rt, Width::Eight, 32, 15, 0, 0, 32, 32)
}

fn main(rt: HostRuntime) -> io::Result<()> {
    every_order(&rt)?;
    every_length(&rt, 1)?;
    every_length(&rt, 2)?;
    every_length(&rt, 6)?;
    every_length(&rt, 32)?;
    edges(&rt)?;
    refusals(&rt)
}

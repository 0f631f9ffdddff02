// The worked examples of quantising, and the edges of its steps. A line is: the answer's number, the shift, the bias, and the
// lent slice after the call, which held 77 at each place before it.
#![tactic(auto)]

ghost use Rattle.std.specs.Prelude.{◌≤◌};

use floats::rounding::{cut, round_away};
use kinds::Order;
use quantising::Fitted;
use quantising::centred::quantise_fitted;
use sample::Sample;
use std::io;

// The places past the order hold a NaN, which would be refused if it were read.
fn fitted(first: f64, second: f64, bias: f64, order: Order) -> Fitted {
    let mut weights = [f64::NAN; 32];
    weights[0] = first;
    weights[1] = second;
    Fitted {
        weights,
        bias,
        order,
    }
}

fn one(weight: f64, bias: f64) -> Fitted {
    fitted(weight, f64::NAN, bias, Order(1))
}

fn two(first: f64, second: f64, bias: f64) -> Fitted {
    fitted(first, second, bias, Order(2))
}

// One line, of a slice with N places.
fn print_line<S: Sample, const N: usize>(rt: &impl Print, fit: Fitted, centre: S) -> io::Result<()>
    requires { N ≤ 32 }
{
    let mut slice = [77; N];
    let said = quantise_fitted(fit, centre, &mut slice);
    let (shift, bias) = said.map_or((0, 0), |quantised| (quantised.shift.0, quantised.bias));
    print!(rt; "{}: {} {shift} {bias}", 8 * S::BYTES, kinds::number(said))?;
    for weight in &slice {
        print!(rt; " {weight}")?;
    }
    println!(rt; "")
}

fn at<S: Sample>(rt: &impl Print, fit: Fitted, centre: S) -> io::Result<()> {
    print_line::<S, 1>(rt, fit, centre)
}

// One weight, at each width, with the centre 0.
fn at_each(rt: &impl Print, weight: f64, bias: f64) -> io::Result<()> {
    at::<u8>(rt, one(weight, bias), 0)?;
    at::<u16>(rt, one(weight, bias), 0)?;
    at::<u32>(rt, one(weight, bias), 0)
}

// Two weights, at each width, with the centre 1.
fn two_at_each(rt: &impl Print, first: f64, second: f64, bias: f64) -> io::Result<()> {
    let fit = two(first, second, bias);
    print_line::<u8, 2>(rt, fit, 1)?;
    print_line::<u16, 2>(rt, fit, 1)?;
    print_line::<u32, 2>(rt, fit, 1)
}

fn worked(rt: &impl Print) -> io::Result<()> {
    println!(rt; "worked")?;
    at::<u8>(rt, one(1.0, 0.0), 100)?;
    at::<u8>(rt, one(0.3, 0.1), 7)?;
    at::<u32>(rt, one(4194304.000976557, 26.0), 0)?;
    at::<u32>(rt, one(1.0, 0.0), 0)?;
    at::<u16>(rt, one(1.0, 0.0), 30000)?;
    at::<u32>(rt, one(-0.75, 1000000000.5), 4294967295)?;
    at::<u8>(rt, one(0.0, -1.999), 0)?;
    two_at_each(rt, -1.0, 2.0, 0.0)?;
    two_at_each(rt, 0.1, 0.2, -0.3)
}

fn halves(rt: &impl Print) -> io::Result<()> {
    println!(rt; "halves, at shift 0")?;
    for weight in [
        2.5,
        -2.5,
        0.5,
        -0.5,
        0.49999999999999994,
        -0.49999999999999994,
        1.5,
    ] {
        at::<u8>(rt, one(weight, 10000.0), 0)?;
    }
    at::<u8>(rt, one(3.5, -10000.0), 0)
}

// The quotient of step 3 just above, at and just below a power of two.
fn exponents(rt: &impl Print) -> io::Result<()> {
    println!(rt; "exponents")?;
    for bias in [126.99609374999999, 126.99609375, 126.99609375000001] {
        at::<u8>(rt, one(0.0, bias), 0)?;
    }
    for bias in [126.99999994039534, 126.99999994039536, 126.99999994039537] {
        at::<u16>(rt, one(0.0, bias), 0)?;
    }
    for bias in [8589934590.999999, 8589934591.0, 8589934591.000002] {
        at::<u32>(rt, one(0.0, bias), 0)?;
    }
    Ok(())
}

// The least of e-1, 31 and A-1; e of 1, and e of 0, which is refused.
fn shifts(rt: &impl Print) -> io::Result<()> {
    println!(rt; "shifts")?;
    at_each(rt, 0.0, 0.0)?;
    at_each(rt, -0.0, -0.0)?;
    at::<u8>(rt, one(64.0, 62.5), 0)?;
    at::<u8>(rt, one(64.0, 62.50000001), 0)?;
    at::<u8>(rt, one(64.25, 0.0), 0)?;
    at::<u16>(rt, one(16384.0, 16382.5), 0)?;
    at::<u16>(rt, one(16384.0, 16382.50001), 0)?;
    at::<u32>(rt, one(1073741824.0, 1073741824.0), 0)?;
    at::<u32>(rt, one(1073741824.0, 1073743824.0), 0)?;
    at::<u32>(rt, one(-1073741824.0, -1073741824.0), 0)
}

fn print_or_outside(rt: &impl Print, integer: Option<i64>) -> io::Result<()> {
    match integer {
        Some(n) => println!(rt; "{n}"),
        None => println!(rt; "outside"),
    }
}

fn rounded(rt: &impl Print) -> io::Result<()> {
    println!(rt; "to 32 bits, to the nearest")?;
    let numbers = [
        2147483647.0,
        2147483647.4999995,
        2147483647.5,
        2147483648.0,
        -2147483648.0,
        -2147483648.4999995,
        -2147483648.5,
        4503599627370495.5,
        f64::INFINITY,
        f64::NAN,
        5e-324,
    ];
    for x in numbers {
        print_or_outside(rt, round_away(x, 32))?;
    }
    Ok(())
}

fn cut_off(rt: &impl Print) -> io::Result<()> {
    println!(rt; "to 64 bits, cut")?;
    let numbers = [
        9223372036854774784.0,
        9223372036854775808.0,
        -9223372036854775808.0,
        -9223372036854777856.0,
        -0.9999999999999999,
        4503599627370495.5,
        f64::NEG_INFINITY,
        f64::NAN,
    ];
    for x in numbers {
        print_or_outside(rt, cut(x, 64))?;
    }
    Ok(())
}

fn not_finite(rt: &impl Print) -> io::Result<()> {
    println!(rt; "not finite")?;
    two_at_each(rt, f64::NAN, 1.0, 0.0)?;
    two_at_each(rt, 1.0, f64::NAN, 0.0)?;
    two_at_each(rt, f64::INFINITY, 1.0, 0.0)?;
    two_at_each(rt, 1.0, f64::NEG_INFINITY, 0.0)?;
    two_at_each(rt, f64::INFINITY, f64::NEG_INFINITY, 0.0)?;
    for bias in [f64::NAN, f64::INFINITY, f64::NEG_INFINITY] {
        two_at_each(rt, 1.0, 1.0, bias)?;
    }
    Ok(())
}

fn extreme(rt: &impl Print) -> io::Result<()> {
    println!(rt; "sums and products that overflow")?;
    two_at_each(rt, 1e308, 1e308, 0.0)?;
    two_at_each(rt, 1e308, -1e308, 0.0)?;
    two_at_each(rt, 8e307, -8e307, 0.0)?;
    two_at_each(rt, 0.0, 0.0, f64::MAX)?;
    println!(rt; "the least floats")?;
    two_at_each(rt, 5e-324, -5e-324, 5e-324)
}

fn refused(rt: &impl Print) -> io::Result<()> {
    println!(rt; "order and length")?;
    at::<u8>(rt, fitted(1.0, 1.0, 0.0, Order(0)), 0)?;
    at::<u16>(rt, fitted(1.0, 1.0, 0.0, Order(33)), 0)?;
    at::<u32>(rt, two(1.0, 1.0, 0.0), 0)?;
    at::<u32>(rt, fitted(f64::NAN, 1.0, 0.0, Order(0)), 0)?;
    at::<u16>(rt, fitted(f64::NAN, 1.0, 0.0, Order(32)), 0)
}

fn all_places(rt: &impl Print) -> io::Result<()> {
    println!(rt; "all 32 places")?;
    let fit = Fitted {
        weights: [-0.03125; 32],
        bias: 0.5,
        order: Order(32),
    };
    print_line::<u16, 32>(rt, fit, 65535)
}

fn main(rt: HostRuntime) -> io::Result<()> {
    worked(&rt)?;
    halves(&rt)?;
    exponents(&rt)?;
    shifts(&rt)?;
    rounded(&rt)?;
    cut_off(&rt)?;
    not_finite(&rt)?;
    extreme(&rt)?;
    refused(&rt)?;
    all_places(&rt)
}

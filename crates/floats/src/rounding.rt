// The integer that a float is taken to, worked out from its digits and so exactly: the nearest, or the next toward zero.
ghost use Rattle.std.specs.Prelude.{◌≡◌, cond, ◌-◌, ◌*◌, ◌/◌, ◌^◌, ◌≤◌, min, false, MatchOption};
ghost use Rattle.std.specs.Float.Ieee.Scale.{finite};
ghost use Rattle.floats.specs.Values.{Digits, Unpacked};
ghost use Rattle.floats.specs.Integers.{half_up, signed, in_bits, rounded_of, cut_of, held};

use crate::{Parts, unpack};

// The integer part of digits * 2^shift units. From 2^64 on it is 2^64 - 1, which is outside whatever is asked for.
fn integer_part(digits: u64, shift: u64) -> u64
    requires { Digits digits shift }
    ensures { result ≡ min (digits * 2 ^ shift / 2 ^ 1074) (2 ^ 64 - 1) }
{
    if shift >= 1086 {
        return u64::MAX;
    }
    if shift >= 1074 {
        return digits << (shift - 1074);
    }
    if shift <= 1010 {
        return 0;
    }
    digits >> (1074 - shift)
}

// The same, to the nearest integer and a half up: a half is a 1 in the first of the digits that are dropped, added before they go.
fn nearest_integer(digits: u64, shift: u64) -> u64
    requires { Digits digits shift }
    ensures { result ≡ min (half_up (digits * 2 ^ shift) (2 ^ 1074)) (2 ^ 64 - 1) }
{
    if shift >= 1074 {
        return integer_part(digits, shift);
    }
    if shift <= 1010 {
        return 0;
    }
    let dropped = 1074 - shift;
    (digits + (1 << (dropped - 1))) >> dropped
}

// None where it does not fit. 128 bits hold every size with either sign.
fn with_sign(negative: bool, size: u64, bits: u32) -> Option<i64>
    requires { (1 ≤ bits) × (bits ≤ 64) }
    ensures { result ≡ cond (in_bits bits (signed negative size)) (Some (signed negative size)) None }
{
    let size = i128::from(size);
    let n = if negative { -size } else { size };
    let half = 1i128 << (bits - 1);
    if n < -half || half <= n {
        return None;
    }
    Some(n as i64)
}

// None for an infinity or a NaN.
fn finite_parts(x: f64) -> Option<Parts>
    ensures { MatchOption result (finite x ≡ false) (λ r. Unpacked x r.negative r.digits r.shift) }
{
    if x.is_finite() { Some(unpack(x)) } else { None }
}

// To the nearest integer, halves away from zero. Adding 0.5 and cutting would take 0.49999999999999994 to 1.
pub fn round_away(x: f64, bits: u32) -> Option<i64>
    requires { (1 ≤ bits) × (bits ≤ 64) }
    ensures { result ≡ held bits x (rounded_of x) }
{
    let parts = finite_parts(x)?;
    let size = nearest_integer(parts.digits, parts.shift);
    with_sign(parts.negative, size, bits)
}

// Toward zero.
pub fn cut(x: f64, bits: u32) -> Option<i64>
    requires { (1 ≤ bits) × (bits ≤ 64) }
    ensures { result ≡ held bits x (cut_of x) }
{
    let parts = finite_parts(x)?;
    let size = integer_part(parts.digits, parts.shift);
    with_sign(parts.negative, size, bits)
}

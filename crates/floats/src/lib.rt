// Floats taken apart: exponents and integers are worked out from the bits, so none is an estimate.
#![tactic(auto)]

ghost use Rattle.std.specs.Prelude.{◌≡◌, T};
ghost use Rattle.std.specs.Float.Ieee.{minus};
ghost use Rattle.std.specs.Float.Ieee.Scale.{finite};
ghost use Rattle.std.specs.Float.Ieee.Positive.{positive};
ghost use Rattle.floats.specs.Values.{Unpacked, exponent_of};

// A finite float: its size is digits * 2^shift units of 2^-1074, the least float above zero.
#[derive(Clone, Copy, Debug, PartialEq, Eq, Hash)]
pub struct Parts {
    pub negative: bool,
    pub digits: u64,
    pub shift: u64,
}

// Below its sign bit a pattern is eleven bits for the exponent, and the digits below the leading one, which is left out.
const HIDDEN_DIGIT: u64 = 0x10_0000_0000_0000;

// The exponent field counts from 1 for numbers with the hidden leading digit; field 0 has none and the same unit as field 1.
pub fn unpack(x: f64) -> Parts
    requires { T (finite x) }
    ensures { Unpacked x result.negative result.digits result.shift }
{
    let negative = x.is_sign_negative();
    let size = x.abs();
    let bits = size.to_bits();
    let field = bits / HIDDEN_DIGIT;
    let low = bits % HIDDEN_DIGIT;
    if field == 0 {
        return Parts {
            negative,
            digits: low,
            shift: 0,
        };
    }
    Parts {
        negative,
        digits: HIDDEN_DIGIT + low,
        shift: field - 1,
    }
}

// The greatest e with 2^e not above x, plus 1074, which is never negative.
pub fn exponent(x: f64) -> u64
    requires { T (positive x) }
    ensures { minus result 1074 ≡ exponent_of x }
{
    let parts = unpack(x);
    u64::from(63 - parts.digits.leading_zeros()) + parts.shift
}

pub mod rounding;

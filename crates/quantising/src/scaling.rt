// The shift that float weights are scaled by: steps 1 to 4 of quantising, at any width.
//
// Each f64 line is one operation at a time, from the left, since float sums and products depend on their order. The exponent is worked
// out from the quotient's bits.
ghost use Rattle.std.specs.Prelude.{◌≡◌, true, false, MatchOption};
ghost use Rattle.std.specs.Float.Ieee.Scale.{finite};
ghost use Rattle.kinds.specs.Widths.{bits_of};
ghost use Rattle.quantising.specs.Scale as definition;
ghost use Rattle.quantising.specs.Scale.{scale_of};

use kinds::{Shift, Width};
use record::MAX_CONV1_DELTA_QUANTIZATION;
use std::num::nearest_u64_to_f64;

// The shift and the float bias, before anything is rounded or cut.
#[derive(Clone, Copy, Debug)]
pub struct Scale {
    pub shift: Shift,
    pub bias: f64,
}

// Step 1.
fn total(weights: &[f64]) -> f64
    ensures { result ≡ definition.total weights.now }
{
    weights.iter().fold(0.0, |sum, w| sum + *w)
}

fn abs_total(weights: &[f64]) -> f64
    ensures { result ≡ definition.abs_total weights.now }
{
    weights.iter().fold(0.0, |sum, w| sum + w.abs())
}

// None for an infinity or a NaN.
fn if_finite(x: f64) -> Option<f64>
    ensures { MatchOption result (finite x ≡ false) (λ y. (y ≡ x) × (finite x ≡ true)) }
{
    x.is_finite().then_some(x)
}

// Steps 1 to 4. The divisor is at least 1.0 and finite, so the quotient is above zero and has an exponent, which `exponent` gives
// plus 1074. The accumulator's limit at 64 bits is 2^63-1, and the nearest float 2^63.
pub fn choose_scale(width: Width, weights: &[f64], centre: u32, centred_bias: f64) -> Option<Scale>
    ensures { result ≡ scale_of (bits_of width) weights.now centre centred_bias }
{
    let sum = if_finite(total(weights))?;
    let abs_sum = if_finite(abs_total(weights))?;
    let bias = (1.0 - sum) * f64::from(centre) + centred_bias;
    let greatest = nearest_u64_to_f64(admission::limits::greatest_sample(width));
    let divisor = if_finite(abs_sum * greatest + bias.abs() + 1.0)?;
    let limit = nearest_u64_to_f64(admission::limits::accumulator_limit(width));
    let less = floats::exponent(limit / divisor).checked_sub(1075)?;
    let recorded = less.min(u64::from(MAX_CONV1_DELTA_QUANTIZATION));
    let shift = recorded.min(u64::from(admission::limits::accumulator_bits(width) - 1));
    Some(Scale {
        shift: Shift(shift as u32),
        bias,
    })
}

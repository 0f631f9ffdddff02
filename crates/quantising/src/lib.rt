// Quantising float weights: the tail of the Rust's `choose_config`, at any width. `scaling` has its steps 1 to 4; the integers of step 5
// are worked out from the floats' bits.
#![tactic(auto)]

ghost use Rattle.std.specs.Prelude.{◌≡◌, false, ◌≤◌, length, take, MatchOption};
ghost use Rattle.kinds.specs.Widths.{bits_of};
ghost use Rattle.quantising.specs.Steps.{weights_hold, found, outcome};
ghost use Rattle.quantising.specs.Calls.{left, quantised_fitted};
ghost use Rattle.quantising.specs.Stages.{RoundedTo};

use crate::scaling::choose_scale;
use kinds::{Order, Refusal, Shift, WeightCount, Width};

// What fitting gives: a weight for each of the `order` samples looked back at, and the bias of the samples less their centre. The
// places past the order are never read.
#[derive(Clone, Copy, Debug)]
pub struct Fitted {
    pub weights: [f64; 32],
    pub bias: f64,
    pub order: Order,
}

// The configuration's shift and bias; its weights fill the lent slice.
#[derive(Clone, Copy, Debug, PartialEq, Eq, Hash)]
pub struct Quantised {
    pub shift: Shift,
    pub bias: i64,
}

// What the six steps come to, with the weights in the first places.
#[derive(Clone, Copy)]
struct Configuration {
    quantised: Quantised,
    weights: [i32; 32],
}

// Step 5 of the weights: the integers in the first places, where all of them fit 32 bits.
fn round_weights(weights: &[f64], factor: f64) -> Option<[i32; 32]>
    requires { length weights.now ≤ 32 }
    ensures { MatchOption result (weights_hold factor weights.now ≡ false) (λ made. RoundedTo factor weights.now made) }
{
    let mut rounded = [0; 32];
    for (i, w) in weights.iter().enumerate() {
        rounded[i] = floats::rounding::round_away(*w * factor, 32)? as i32;
    }
    Some(rounded)
}

// The six steps.
fn configure(width: Width, weights: &[f64], centre: u32, centred_bias: f64) -> Option<Configuration>
    requires { length weights.now ≤ 32 }
    ensures { let steps = outcome (bits_of width) weights.now centre centred_bias in MatchOption result (steps ≡ None) (λ r. steps ≡ found r.quantised.shift r.quantised.bias (take (length weights.now) r.weights)) }
{
    let scale = choose_scale(width, weights, centre, centred_bias)?;
    let shift = scale.shift;
    let factor = (1u64 << shift.0) as f64;
    let rounded = round_weights(weights, factor)?;
    let bias = floats::rounding::cut(scale.bias * factor, 64)?;
    if !admission::accumulator::is_admitted(width, bias, &rounded[..weights.len()]) {
        return None;
    }
    Some(Configuration {
        quantised: Quantised { shift, bias },
        weights: rounded,
    })
}

// Tests 1, 4 and 6 in this order. The lent slice is not touched before the last of them.
pub fn quantise(
    width: Width,
    fitted: Fitted,
    centre: u32,
    weights: &mut [i32],
) -> Result<Quantised, Refusal>
    ensures { left result weights.new ≡ quantised_fitted (bits_of width) fitted centre weights.old }
{
    lent::fitted_answer(fitted.order, WeightCount(weights.len()))?;
    let floats = &fitted.weights[..weights.len()];
    let found = configure(width, floats, centre, fitted.bias).ok_or(Refusal::NoConfiguration)?;
    weights.copy_from_slice(&found.weights[..floats.len()]);
    Ok(found.quantised)
}

pub mod centred;
pub mod lent;
pub mod scaling;

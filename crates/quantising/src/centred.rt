// Quantising around a centre that is a sample, so that every value of it is in range.
ghost use Rattle.std.specs.Prelude.{◌≡◌};
ghost use Rattle.quantising.specs.Calls.{left, quantised, quantised_fitted};

use crate::{Fitted, Quantised};
use kinds::{Order, Refusal, WeightCount};
use sample::Sample;

pub fn quantise_fitted<S: Sample>(
    fitted: Fitted,
    centre: S,
    weights: &mut [i32],
) -> Result<Quantised, Refusal>
    ensures { left result weights.new ≡ quantised_fitted S.W fitted (S.number centre) weights.old }
{
    crate::quantise(S::WIDTH, fitted, centre.to_number(), weights)
}

// The same with the fitted weights lent. They are tested before they are copied, and the lent places where the six steps are.
pub fn quantise<S: Sample>(
    order: Order,
    fitted: &[f64],
    centred_bias: f64,
    centre: S,
    weights: &mut [i32],
) -> Result<Quantised, Refusal>
    ensures { left result weights.new ≡ quantised S.W order.0 fitted.now (S.number centre) centred_bias weights.old }
{
    crate::lent::fitted_answer(order, WeightCount(fitted.len()))?;
    let record = Fitted {
        weights: crate::lent::held(fitted),
        bias: centred_bias,
        order,
    };
    quantise_fitted(record, centre, weights)
}

// Fitted weights that are lent as a slice of floats.
ghost use Rattle.std.specs.Prelude.{◌≡◌, not, ◌≤◌, eqb, length, take};
ghost use Rattle.kinds.specs.Answers.{refuse, Done};
ghost use Rattle.kinds.specs.declared.Refusal.TheVariants.{BadOrder, BadLength};
ghost use Rattle.rule.specs.Refusals.{order_fits};

use kinds::{Order, Refusal, WeightCount};

// Tests 1 and 4 of a number of weights. Only lent floats that pass have room in an array of 32.
pub fn fitted_answer(order: Order, count: WeightCount) -> Result<(), Refusal>
    ensures { result ≡ refuse (not (order_fits order.0)) BadOrder (refuse (not (eqb count.0 order.0)) BadLength Done) }
{
    if !admission::limits::is_order(order) {
        return Err(Refusal::BadOrder);
    }
    if count.0 != order.0 {
        return Err(Refusal::BadLength);
    }
    Ok(())
}

// The lent floats in the first places of an array. They are counted by hand: so a wrong program can leave out every second of them.
pub fn held(fitted: &[f64]) -> [f64; 32]
    requires { length fitted.now ≤ 32 }
    ensures { take (length fitted.now) result ≡ fitted.now }
{
    let mut weights = [0.0; 32];
    let mut i = 0;
    while i < fitted.len() {
        weights[i] = fitted[i];
        i += 1;
    }
    weights
}

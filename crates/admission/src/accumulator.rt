// The accumulator rule, at any width. Nothing here overflows, whatever the weights and the bias are: the rule is tested by spending a
// budget, so that no total is ever made that could pass 64 bits.
ghost use Rattle.std.specs.Prelude.{◌≡◌, ◌*◌, ◌<◌, ◌^◌, leb};
ghost use Rattle.kinds.specs.Widths.{bits_of};
ghost use Rattle.rule.specs.Prediction.{sum_abs, admitted};

use kinds::Width;

// Whether `most` times each absolute weight can be paid out of the budget.
#[tactic(auto, using(crate::proofs::Budget::turn))]
fn is_affordable(weights: &[i32], most: u64, budget: u64) -> bool
    requires { most < 2 ^ 32 }
    ensures { result ≡ leb (most * sum_abs weights.now) budget }
{
    let mut left = budget;
    for &weight in weights {
        let cost = most * u64::from(weight.unsigned_abs());
        if left < cost {
            return false;
        }
        left -= cost;
    }
    true
}

// The accumulator rule: |bias| + M * Σ |weight| is at most 2^(A-1)-1.
#[tactic(auto, using(crate::proofs::Budget::bias_spent, crate::proofs::Budget::bias_over))]
pub fn is_admitted(width: Width, bias: i64, weights: &[i32]) -> bool
    ensures { result ≡ admitted (bits_of width) bias weights.now }
{
    let most = crate::limits::accumulator_limit(width);
    let spent = bias.unsigned_abs();
    spent <= most && is_affordable(weights, crate::limits::greatest_sample(width), most - spent)
}

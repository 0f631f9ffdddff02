// A configuration whose tests have passed.
ghost use Rattle.std.specs.Prelude.{◌≡◌, ◌++◌, ◌-◌, ◌≤◌, pos, length, map, take, replicate};
ghost use Rattle.rule.specs.Configuration.{given};
ghost use Rattle.rule.specs.Prediction.{Ready};
ghost use Rattle.predict.specs.Configuration.{config_of};

use kinds::{Configuration, Order, Shift};
use sample::Sample;

// Its numbers as the accumulator holds them. Places past the order are 0.
#[derive(Clone, Copy)]
pub struct Config<C> {
    pub order: Order,
    pub shift: Shift,
    pub bias: C,
    pub weights: [C; 32],
}

impl<C> Config<C> {
    pub fn weights(&self) -> &[C]
        requires { self.now.order.0 ≤ 32 }
        ensures { result.now ≡ take self.now.order.0 self.now.weights }
    {
        &self.weights[..self.order.0]
    }
}

// A call's numbers at the accumulator's width, once its tests have passed.
pub fn conv<S: Sample>(config: Configuration<'_>) -> Config<S::Conv>
    requires { Ready S.W (given config) }
    ensures result_value { config_of S.integer result ≡ given config.entry }
    ensures weights_value { map S.integer result.weights ≡ config.entry.weights.now ++ replicate (32 - length config.entry.weights.now) (pos 0) }
{
    let mut weights = [S::conv(0); 32];
    for (i, &weight) in config.weights.iter().enumerate() {
        weights[i] = S::conv(i64::from(weight));
    }
    Config {
        order: config.order,
        shift: config.shift,
        bias: S::conv(config.bias),
        weights,
    }
}

// Predictions from windows of samples.
ghost use Rattle.std.specs.Prelude.{◌≡◌, ℕ, ◌+◌, ◌-◌, ◌≤◌, length};
ghost use Rattle.rule.specs.Prediction.{Ready, prediction};
ghost use Rattle.rule.specs.Coding.{tabulate, window};
ghost use Rattle.predict.specs.Configuration.{config_of};

use crate::config::Config;
use sample::Sample;

// The prediction from a window that has a sample for each weight, the oldest first.
pub fn predict_one<S: Sample>(config: &Config<S::Conv>, window: &[S]) -> S
    requires { (length window.now ≡ config.now.order.0) × Ready S.W (config_of S.integer config.now) }
    ensures { S.number result ≡ prediction S.W (config_of S.integer config.now) (S.numbers window.now) }
{
    let mut sum = config.bias;
    for (i, weight) in config.weights().iter().enumerate() {
        sum = window[i].add_product(sum, *weight);
    }
    S::settle(S::widened(sum), config.shift)
}

// Fills `predictions`: each place from its own window of `samples`, the first from the first samples. There is a sample after each window.
pub fn predict_into<S: Sample>(config: &Config<S::Conv>, samples: &[S], predictions: &mut [S])
    requires { (length predictions.old ≤ length samples.now - config.now.order.0) × Ready S.W (config_of S.integer config.now) }
    ensures { S.numbers predictions.new ≡ tabulate (length predictions.old) (λ (i : ℕ). prediction S.W (config_of S.integer config.now) (window config.now.order.0 (i + config.now.order.0) (S.numbers samples.now))) }
{
    let order = config.order.0;
    for i in 0..predictions.len() {
        predictions[i] = predict_one(config, &samples[i..i + order]);
    }
}

// Encoding samples where they lie, at any width.
#![tactic(auto)]

ghost use Rattle.std.specs.Prelude.{◌≡◌, ◌++◌, ℕ, ◌+◌, ◌-◌, ◌≤◌, min, length, get_or, take, drop};
ghost use Rattle.rule.specs.Configuration.{given};
ghost use Rattle.rule.specs.Prediction.{Ready, prediction};
ghost use Rattle.rule.specs.Coding.{tabulate, residual, encoded_buffer};
ghost use Rattle.calls.specs.Encode.{left, encode};
ghost use Rattle.predict.specs.Configuration.{config_of};

use kinds::{Configuration, Refusal, SampleCount};
use predict::config::Config;
use sample::Sample;

pub mod by_value;

// Samples to a batch. Their predictions, and up to 32 for the batch after, stand in one array.
const BATCH: usize = 512;

// How many predictions a batch makes, with `left` samples to code and `held` predictions held over: one for each sample that has
// none yet, up to a batch.
fn predicted_ahead(left: usize, held: usize) -> usize
    ensures { result ≡ min (left - held) 512 }
{
    left.saturating_sub(held).min(BATCH)
}

// Each sample becomes its residual.
fn take_residuals<S: Sample>(samples: &mut [S], predictions: &[S])
    requires { length samples.old ≤ length predictions.now }
    ensures { S.numbers samples.new ≡ tabulate (length samples.old) (λ (i : ℕ). residual S.W (get_or (S.numbers samples.old) i 0) (get_or (S.numbers predictions.now) i 0)) }
{
    for i in 0..samples.len() {
        samples[i] = predict::centre::residual_of(samples[i], predictions[i]);
    }
}

// The predictions past a whole batch, `count` of them, move to the front, for the batch after.
fn hold_over<S: Sample>(predictions: &mut [S], count: usize)
    requires count_in_bounds { 512 + count ≤ length predictions.old }
    requires count_bound { count ≤ 512 }
    ensures { predictions.new ≡ take count (drop 512 predictions.old) ++ drop count predictions.old }
{
    predictions.copy_within(BATCH..BATCH + count, 0);
}

// Codes the whole slice by a configuration whose tests have passed: sample + MID in the first `order` places, sample - prediction + MID
// after them. It goes batch by batch. A batch's predictions are made before its samples become residuals, and those for the first
// `order` places of the batch after are held over, since their windows reach back into this one. Before the first samples nothing is
// predicted: the zeros that the array is made of stand for that.
pub fn encode_samples<S: Sample>(config: &Config<S::Conv>, samples: &mut [S])
    requires { Ready S.W (config_of S.integer config.now) }
    ensures { S.numbers samples.new ≡ encoded_buffer S.W config.now.order.0 (prediction S.W (config_of S.integer config.now)) (S.numbers samples.old) }
{
    let order = config.order.0;
    let n = samples.len();
    let predictions = &mut [S::ZERO; 544][..];
    for start in (0..n).step_by(BATCH) {
        let left = n - start;
        let end = start + left.min(BATCH);
        let ahead = order + predicted_ahead(left, order);
        predict::prediction::predict_into(
            config,
            &samples[start..],
            &mut predictions[order..ahead],
        );
        take_residuals(&mut samples[start..end], predictions);
        hold_over(predictions, order);
    }
}

// The tests of a call, and then all of it. The first `order` samples, which start the decoding, go into `state`, whose length counts
// for test 4.
pub fn encode_into<S: Sample>(
    config: Configuration<'_>,
    samples: &mut [S],
    state: &mut [S],
) -> Result<(), Refusal>
    ensures { left result (S.numbers samples.new) (S.numbers state.new) ≡ encode S.W (given config.entry) (S.numbers samples.old) (S.numbers state.old) }
{
    let held = SampleCount(state.len());
    let count = SampleCount(samples.len());
    admission::encoding_answer(S::WIDTH, config, held, count)?;
    state.copy_from_slice(&samples[..config.order.0]);
    encode_samples(&predict::config::conv::<S>(config), samples);
    Ok(())
}

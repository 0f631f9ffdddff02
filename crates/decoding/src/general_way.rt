// Decoding the general way, at any order.
ghost use Rattle.std.specs.Prelude.{map, ◌+◌, ◌≤◌, length, take, drop};
ghost use Rattle.rule.specs.Coding.{toggled};
ghost use Rattle.predict.specs.Configuration.{config_of};
ghost use Rattle.decoding.specs.Steps.{Startable, Decodes};

use predict::config::Config;
use sample::Sample;

// Residuals to a batch. Their samples, behind up to 32 of state, stand in one array, which a short piece does not fill.
const BATCH: usize = 128;

// The first k samples are known. Each residual, which has MID off, gives the sample behind the k that it is predicted from, and the oldest
// of these takes its place.
fn decode_residuals<S: Sample>(config: &Config<S::Conv>, samples: &mut [S], residuals: &mut [S])
    requires { Startable S.W (config_of S.integer config.now) (take config.now.order.0 (S.numbers samples.old)) × (config.now.order.0 + length residuals.old ≤ length samples.old) }
    ensures { Decodes S.W (config_of S.integer config.now) (take config.now.order.0 (S.numbers samples.old)) (map (toggled S.W) (S.numbers residuals.old)) (S.numbers residuals.new) (take config.now.order.0 (drop (length residuals.old) (S.numbers samples.new))) }
{
    let order = config.order.0;
    for i in 0..residuals.len() {
        let end = i + order;
        let prediction = predict::prediction::predict_one(config, &samples[i..end]);
        samples[end] = residuals[i].wrapping_add(prediction);
        residuals[i] = samples[i];
    }
}

// Decodes residuals whose samples have room behind their state; what stands there first does not matter. MID goes off first, so that no
// sample waits for it.
fn decode_batch<S: Sample>(
    config: &Config<S::Conv>,
    samples: &mut [S],
    state: &mut [S],
    residuals: &mut [S],
)
    requires { Startable S.W (config_of S.integer config.now) (S.numbers state.old) × (length state.old + length residuals.old ≤ length samples.old) }
    ensures { Decodes S.W (config_of S.integer config.now) (S.numbers state.old) (S.numbers residuals.old) (S.numbers residuals.new) (S.numbers state.new) }
{
    predict::centre::toggle_center_in_place(residuals);
    samples[..state.len()].copy_from_slice(state);
    decode_residuals(config, samples, residuals);
    let count = residuals.len();
    state.copy_from_slice(&samples[count..count + state.len()]);
}

// Decodes a piece where it lies, by a configuration whose tests have passed: outputs lag by k, and the samples that are still to come
// out take the state's place, for the piece that follows. It goes batch after batch, each from the state that the one before it left;
// the Rust copies all residuals at once, into memory that it asks for.
pub fn decode_samples<S: Sample>(config: &Config<S::Conv>, state: &mut [S], piece: &mut [S])
    requires { Startable S.W (config_of S.integer config.now) (S.numbers state.old) }
    ensures { Decodes S.W (config_of S.integer config.now) (S.numbers state.old) (S.numbers piece.old) (S.numbers piece.new) (S.numbers state.new) }
{
    let mut samples = [S::ZERO; 160];
    let n = piece.len();
    for start in (0..n).step_by(BATCH) {
        let end = start + (n - start).min(BATCH);
        decode_batch(config, &mut samples, state, &mut piece[start..end]);
    }
}

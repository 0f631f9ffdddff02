// Decoding at order 6, with six running sums.
ghost use Rattle.std.specs.Prelude.{◌≡◌, true, map, length, take};
ghost use Rattle.rule.specs.Configuration.{held};
ghost use Rattle.rule.specs.Prediction.{admitted};
ghost use Rattle.predict.specs.Configuration.{config_of};
ghost use Rattle.decoding.specs.Steps.{Startable, Decodes};
ghost use Rattle.decoding.specs.Running.{Runs, shifted};

use kinds::Shift;
use predict::config::Config;
use sample::Sample;

// A configuration of order 6 in a register's width.
#[derive(Clone, Copy)]
struct Six<Z> {
    weights: [Z; 6],
    bias: Z,
    shift: Shift,
}

// The last six samples, the oldest first, and the sums of the next six predictions as far as these samples go.
#[derive(Clone, Copy)]
struct Running<S, Z> {
    samples: [S; 6],
    sums: [Z; 6],
}

fn six_of<S: Sample>(config: &Config<S::Conv>) -> Six<S::Wide>
    requires { config.now.order.0 ≡ 6 }
    ensures { held result.shift (S.wide result.bias) (map S.wide result.weights) ≡ config_of S.integer config.now }
{
    let weights = &config.weights;
    Six {
        weights: [
            S::widened(weights[0]),
            S::widened(weights[1]),
            S::widened(weights[2]),
            S::widened(weights[3]),
            S::widened(weights[4]),
            S::widened(weights[5]),
        ],
        bias: S::widened(config.bias),
        shift: config.shift,
    }
}

// A new sample's terms go into the six sums at once: a prediction then waits for one product alone. The oldest sample goes.
fn next<S: Sample>(
    running: Running<S, S::Wide>,
    six: Six<S::Wide>,
    sample: S,
) -> Running<S, S::Wide>
    requires { Runs S.W (S.wide six.bias) (map S.wide six.weights) (S.numbers running.samples) (map S.wide running.sums) }
    ensures { (S.numbers result.samples ≡ shifted (S.numbers running.samples) (S.number sample)) × Runs S.W (S.wide six.bias) (map S.wide six.weights) (S.numbers result.samples) (map S.wide result.sums) }
{
    let [_, b, c, d, e, f] = running.samples;
    let [_, n1, n2, n3, n4, n5] = running.sums;
    let w = six.weights;
    Running {
        samples: [b, c, d, e, f, sample],
        sums: [
            sample.add_wide_product(n1, w[5]),
            sample.add_wide_product(n2, w[4]),
            sample.add_wide_product(n3, w[3]),
            sample.add_wide_product(n4, w[2]),
            sample.add_wide_product(n5, w[1]),
            sample.add_wide_product(six.bias, w[0]),
        ],
    }
}

// The sums over the state. Before any sample came they are those of six zeros: the bias alone.
fn begun<S: Sample>(six: Six<S::Wide>, state: &[S]) -> Running<S, S::Wide>
    requires { (admitted S.W (S.wide six.bias) (map S.wide six.weights) ≡ true) × (length state.now ≡ 6) }
    ensures { (S.numbers result.samples ≡ S.numbers state.now) × Runs S.W (S.wide six.bias) (map S.wide six.weights) (S.numbers result.samples) (map S.wide result.sums) }
{
    let mut running = Running {
        samples: [S::ZERO; 6],
        sums: [six.bias; 6],
    };
    for &sample in state {
        running = next(running, six, sample);
    }
    running
}

// Each residual gives a sample, and the oldest takes its place; MID goes off first, so that no sample waits for it. The sums are made
// anew from the state: only samples outlive a call.
fn decode_residuals<S: Sample>(six: Six<S::Wide>, state: &mut [S], residuals: &mut [S])
    requires { Startable S.W (held six.shift (S.wide six.bias) (map S.wide six.weights)) (S.numbers state.old) }
    ensures { Decodes S.W (held six.shift (S.wide six.bias) (map S.wide six.weights)) (S.numbers state.old) (S.numbers residuals.old) (S.numbers residuals.new) (S.numbers state.new) }
{
    predict::centre::toggle_center_in_place(residuals);
    let mut running = begun(six, state);
    for i in 0..residuals.len() {
        let prediction = S::settle(running.sums[0], six.shift);
        let sample = residuals[i].wrapping_add(prediction);
        residuals[i] = running.samples[0];
        running = next(running, six, sample);
    }
    // One by one: lent as they lie, the six would have their place in memory in each turn of the loop.
    let [a, b, c, d, e, f] = running.samples;
    state.copy_from_slice(&[a, b, c, d, e, f]);
}

// Decodes a piece where it lies, as the general way does, by a configuration of order 6 whose tests have passed: outputs lag by 6, and
// the last six samples are the new state.
pub fn decode_in_place_order_6<S: Sample>(
    config: &Config<S::Conv>,
    state: &mut [S],
    piece: &mut [S],
)
    requires { Startable S.W (config_of S.integer config.now) (S.numbers state.old) × (config.now.order.0 ≡ 6) }
    ensures { Decodes S.W (config_of S.integer config.now) (S.numbers state.old) (S.numbers piece.old) (S.numbers piece.new) (S.numbers state.new) }
{
    decode_residuals(six_of::<S>(config), state, piece);
}

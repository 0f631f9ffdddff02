// Encoding samples that lie in bytes.
ghost use Rattle.std.specs.Prelude.{◌≡◌, ◌++◌, ◌*◌, ◌/◌, take, drop};
ghost use Rattle.rule.specs.Configuration.{given};
ghost use Rattle.rule.specs.Prediction.{Ready, prediction};
ghost use Rattle.rule.specs.Coding.{encoded_buffer};
ghost use Rattle.calls.specs.Encode.{left};
ghost use Rattle.predict.specs.Configuration.{config_of};
ghost use Rattle.byte_coding.specs.Bytes.{samples_in, samples_bytes, laid, ragged};
ghost use Rattle.byte_coding.specs.Calls.{encode_laid, encode_bytes};
ghost use Rattle.byte_coding.specs.Lengths.{Entire, Chunk};

use kinds::{Configuration, Refusal, SampleCount};
use predict::config::Config;
use sample::Sample;

// Samples to a chunk.
const CHUNK: usize = 512;

// Codes the samples from `start` on, and leaves those before it. The order's samples before them are loaded too, for the predictions.
fn encode_chunk<S: Sample>(config: &Config<S::Conv>, start: usize, samples: &mut [u8])
    requires { Ready S.W (config_of S.integer config.now) × Chunk S.W start samples.old }
    ensures { samples.new ≡ take (S.W / 8 * start) samples.old ++ samples_bytes S.W (drop start (encoded_buffer S.W config.now.order.0 (prediction S.W (config_of S.integer config.now)) (samples_in S.W samples.old))) }
{
    let skip = start.min(config.order.0);
    let from = start - skip;
    let n = samples.len() / S::BYTES - from;
    let mut room = [S::ZERO; 544];
    entries::samples::load(&samples[S::BYTES * from..], &mut room);
    encoding::encode_samples(config, &mut room[..n]);
    let coded = &room[..n];
    entries::samples::store(&coded[skip..], &mut samples[S::BYTES * start..]);
}

// Chunk by chunk from the last to the first, so that every prediction is made from samples and none from residuals.
fn encode_chunks<S: Sample>(config: &Config<S::Conv>, samples: &mut [u8])
    requires { Ready S.W (config_of S.integer config.now) × Entire S.W samples.old }
    ensures { samples.new ≡ samples_bytes S.W (encoded_buffer S.W config.now.order.0 (prediction S.W (config_of S.integer config.now)) (samples_in S.W samples.old)) }
{
    let mut end = samples.len() / S::BYTES;
    // Tried: `(0..n).step_by(CHUNK).rev()` goes by its iterator, and its proof has no bound on a start.
    while 0 < end {
        let start = (end - 1) / CHUNK * CHUNK;
        encode_chunk::<S>(config, start, &mut samples[..S::BYTES * end]);
        end = start;
    }
}

// Encodes with the weights at hand, once every byte length is known to be entire.
fn encode_laid<S: Sample>(
    config: Configuration<'_>,
    samples: &mut [u8],
    state: &mut [u8],
) -> Result<(), Refusal>
    requires { Entire S.W state.old × Entire S.W samples.old }
    ensures { left result samples.new state.new ≡ encode_laid S.W (given config.entry) samples.old state.old }
{
    let held = SampleCount(state.len() / S::BYTES);
    let count = SampleCount(samples.len() / S::BYTES);
    admission::encoding_answer(S::WIDTH, config, held, count)?;
    state.copy_from_slice(&samples[..state.len()]);
    encode_chunks::<S>(&predict::config::conv::<S>(config), samples);
    Ok(())
}

// Codes the samples where they lie, and puts the bytes of the first `order` of them into the state.
pub fn encode<S: Sample>(
    config: Configuration<'_, u8>,
    samples: &mut [u8],
    state: &mut [u8],
) -> Result<(), Refusal>
    ensures { left result samples.new state.new ≡ encode_bytes S.W (laid config.entry) (ragged S.W config.entry.weights.now state.old samples.old) samples.old state.old }
{
    crate::layout_answer(
        S::WIDTH,
        config.order,
        config.shift,
        config.weights.len(),
        state.len(),
        samples.len(),
    )?;
    let mut numbers = [0; 32];
    entries::weights::load_i32(config.weights, &mut numbers);
    encode_laid::<S>(config.with(&numbers[..config.order.0]), samples, state)
}

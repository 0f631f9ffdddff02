// Decoding samples that lie in bytes.
ghost use Rattle.std.specs.Prelude.{◌≡◌, ◌/◌, ◌≤◌, length};
ghost use Rattle.rule.specs.Configuration.{given};
ghost use Rattle.rule.specs.Prediction.{prediction};
ghost use Rattle.rule.specs.Coding.{decoded_piece, new_state};
ghost use Rattle.calls.specs.declared.Way.TheVariants.{General};
ghost use Rattle.calls.specs.Decode.{left};
ghost use Rattle.calls.specs.Pieces.{Fits};
ghost use Rattle.predict.specs.Configuration.{config_of};
ghost use Rattle.decoding.specs.Steps.{Startable};
ghost use Rattle.byte_coding.specs.Bytes.{samples_in, samples_bytes, laid, ragged};
ghost use Rattle.byte_coding.specs.Calls.{decode_laid, decode_bytes};
ghost use Rattle.byte_coding.specs.Lengths.{Entire};

use calls::Way;
use kinds::{Configuration, Refusal, SampleCount};
use predict::config::Config;
use sample::Sample;

// Samples to a chunk.
const CHUNK: usize = 512;

// Decodes what fits the room.
fn decode_chunk<S: Sample>(
    way: Way,
    config: &Config<S::Conv>,
    state: &mut [S],
    room: &mut [S],
    piece: &mut [u8],
)
    requires startable { Startable S.W (config_of S.integer config.now) (S.numbers state.old) × Fits (config_of S.integer config.now) way }
    requires entire { Entire S.W piece.old × (length piece.old / (S.W / 8) ≤ length room.old) }
    ensures piece_after { piece.new ≡ samples_bytes S.W (decoded_piece S.W config.now.order.0 (prediction S.W (config_of S.integer config.now)) (S.numbers state.old) (samples_in S.W piece.old)) }
    ensures state_after { S.numbers state.new ≡ new_state S.W config.now.order.0 (prediction S.W (config_of S.integer config.now)) (S.numbers state.old) (samples_in S.W piece.old) }
{
    let n = piece.len() / S::BYTES;
    entries::samples::load(piece, room);
    decoding::decode_samples(way, config, state, &mut room[..n]);
    entries::samples::store(&room[..n], piece);
}

// Chunk after chunk, each from the state that the one before it left.
fn decode_chunks<S: Sample>(way: Way, config: &Config<S::Conv>, state: &mut [S], piece: &mut [u8])
    requires startable { Startable S.W (config_of S.integer config.now) (S.numbers state.old) × Fits (config_of S.integer config.now) way }
    requires entire { Entire S.W piece.old }
    ensures piece_after { piece.new ≡ samples_bytes S.W (decoded_piece S.W config.now.order.0 (prediction S.W (config_of S.integer config.now)) (S.numbers state.old) (samples_in S.W piece.old)) }
    ensures state_after { S.numbers state.new ≡ new_state S.W config.now.order.0 (prediction S.W (config_of S.integer config.now)) (S.numbers state.old) (samples_in S.W piece.old) }
{
    let mut room = [S::ZERO; 512];
    let n = piece.len() / S::BYTES;
    for start in (0..n).step_by(CHUNK) {
        let end = start + (n - start).min(CHUNK);
        decode_chunk(
            way,
            config,
            state,
            &mut room,
            &mut piece[S::BYTES * start..S::BYTES * end],
        );
    }
}

// Decodes with the weights at hand, once every byte length is known to be entire.
fn decode_laid<S: Sample>(
    way: Way,
    config: Configuration<'_>,
    state: &mut [u8],
    piece: &mut [u8],
) -> Result<(), Refusal>
    requires { Entire S.W state.old × Entire S.W piece.old }
    ensures { left result state.new piece.new ≡ decode_laid way S.W (given config.entry) state.old piece.old }
{
    let count = SampleCount(state.len() / S::BYTES);
    decoding::answer_by(way, S::WIDTH, config, count)?;
    let k = config.order.0;
    let mut held = [S::ZERO; 32];
    entries::samples::load(state, &mut held);
    decode_chunks(
        way,
        &predict::config::conv::<S>(config),
        &mut held[..k],
        piece,
    );
    entries::samples::store(&held[..k], state);
    Ok(())
}

// Decodes a piece where it lies, by the way that is asked for; the bytes of the new state take the state's place.
pub fn decode_by<S: Sample>(
    way: Way,
    config: Configuration<'_, u8>,
    state: &mut [u8],
    piece: &mut [u8],
) -> Result<(), Refusal>
    ensures { left result state.new piece.new ≡ decode_bytes way S.W (laid config.entry) (ragged S.W config.entry.weights.now state.old piece.old) state.old piece.old }
{
    crate::layout_answer_by(
        way,
        S::WIDTH,
        config.order,
        config.shift,
        config.weights.len(),
        state.len(),
        piece.len(),
    )?;
    let mut numbers = [0; 32];
    entries::weights::load_i32(config.weights, &mut numbers);
    decode_laid::<S>(way, config.with(&numbers[..config.order.0]), state, piece)
}

// The same by the quicker way.
pub fn decode<S: Sample>(
    config: Configuration<'_, u8>,
    state: &mut [u8],
    piece: &mut [u8],
) -> Result<(), Refusal>
    ensures { left result state.new piece.new ≡ decode_bytes General S.W (laid config.entry) (ragged S.W config.entry.weights.now state.old piece.old) state.old piece.old }
{
    decode_by::<S>(decoding::quickest_way(config.order), config, state, piece)
}

// Coding at any width. The coders that are called work on bytes, a sample in as many as its width has, the least significant first. The
// width is asked for here alone: which coder to call, how many bytes samples have, and which number stands in them.
ghost use Rattle.std.specs.Prelude.{◌+◌, ◌*◌, ◌<◌, ◌≤◌, length};

use crate::reading::Head;
use byte_coding::decoder::decode as decode_at;
use byte_coding::encoder::encode as encode_at;
use kinds::{Configuration, Refusal, Width};

// What encoding leaves: residuals and the state, as bytes, each in the first places.
#[derive(Clone, Copy)]
pub struct Coded {
    pub row: [u8; 16384],
    pub state: [u8; 128],
}

fn configuration(c: Head, weights: &[u8]) -> Configuration<'_, u8> {
    Configuration {
        order: c.order,
        shift: c.shift,
        bias: c.bias,
        weights,
    }
}

fn encode_bytes(c: Head, weights: &[u8], row: &mut [u8], state: &mut [u8]) -> Result<(), Refusal> {
    let config = configuration(c, weights);
    match c.width {
        Width::Eight => encode_at::<u8>(config, row, state),
        Width::Sixteen => encode_at::<u16>(config, row, state),
        Width::ThirtyTwo => encode_at::<u32>(config, row, state),
    }
}

fn decode_bytes(
    c: Head,
    weights: &[u8],
    state: &mut [u8],
    piece: &mut [u8],
) -> Result<(), Refusal> {
    let config = configuration(c, weights);
    match c.width {
        Width::Eight => decode_at::<u8>(config, state, piece),
        Width::Sixteen => decode_at::<u16>(config, state, piece),
        Width::ThirtyTwo => decode_at::<u32>(config, state, piece),
    }
}

// How many bytes samples have.
fn bytes_in(width: Width, samples: usize) -> usize
    requires { samples ≤ 4096 }
    ensures { (samples ≤ result) × (result ≤ 4 * samples) }
{
    match width {
        Width::Eight => samples,
        Width::Sixteen => 2 * samples,
        Width::ThirtyTwo => 4 * samples,
    }
}

// The first bytes of both, as many as the shorter has.
fn copy(to: &mut [u8], from: &[u8]) {
    for (place, byte) in to.iter_mut().zip(from) {
        *place = *byte;
    }
}

fn weight_bytes(weights: &[i32]) -> [u8; 132] {
    let mut bytes = [0; 132];
    for (place, weight) in bytes.chunks_exact_mut(4).zip(weights) {
        copy(place, &weight.to_le_bytes());
    }
    bytes
}

fn sample_bytes(width: Width, samples: &[u64]) -> [u8; 16384] {
    let mut bytes = [0; 16384];
    for (place, sample) in bytes.chunks_exact_mut(bytes_in(width, 1)).zip(samples) {
        copy(place, &sample.to_le_bytes());
    }
    bytes
}

// The samples that stand in the bytes, in the first places.
pub(crate) fn to_samples(width: Width, bytes: &[u8]) -> [u64; 4096] {
    let mut samples = [0; 4096];
    for (place, sample) in samples
        .iter_mut()
        .zip(bytes.chunks_exact(bytes_in(width, 1)))
    {
        let mut wide = [0; 8];
        copy(&mut wide, sample);
        *place = u64::from_le_bytes(wide);
    }
    samples
}

// Encodes the trace. Where the order is refused the state has no length that could be right.
pub(crate) fn encode(c: Head, weights: &[i32], trace: &[u64]) -> Result<Coded, Refusal>
    requires { (length weights.now ≤ 33) × (length trace.now ≤ 4096) }
{
    let bytes = weight_bytes(weights);
    let mut row = sample_bytes(c.width, trace);
    let mut state = [0; 128];
    let n = bytes_in(c.width, trace.len());
    let k = bytes_in(c.width, c.order.0.min(32));
    encode_bytes(
        c,
        &bytes[..4 * weights.len()],
        &mut row[..n],
        &mut state[..k],
    )?;
    Ok(Coded { row, state })
}

// Decodes the residuals of a row from a place on, up to another. A refusal leaves them as they are, and the trace then comes back not whole.
pub(crate) fn decode(
    c: Head,
    weights: &[i32],
    state: &mut [u8; 128],
    row: &mut [u8; 16384],
    from: usize,
    end: usize,
)
    requires { (length weights.now ≤ 33) × (from ≤ end) × (end ≤ 4096) }
{
    let bytes = weight_bytes(weights);
    let a = bytes_in(c.width, from);
    let b = a + bytes_in(c.width, end - from);
    let k = bytes_in(c.width, c.order.0.min(32));
    let _ = decode_bytes(
        c,
        &bytes[..4 * weights.len()],
        &mut state[..k],
        &mut row[a..b],
    );
}

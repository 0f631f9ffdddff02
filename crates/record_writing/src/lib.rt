// The delta record's writer: the tests first, so that a refused call changes nothing, and then the fields in order.
#![tactic(auto)]

ghost use Rattle.std.specs.Prelude.{false, ◌≡◌, ◌≤◌, ◌<◌, length, []};
ghost use Rattle.bits.specs.Fields.{with_field};
ghost use Rattle.record.specs.Format.{weight_fields, bits_of, weights_at};
ghost use Rattle.record.specs.Signed.{raised};
ghost use Rattle.record.specs.Writing.{stored_weights, put_fields, put_record, unused, misordered, unfit, write_answer, bytes_after};

use crate::fit::refusal;
use bits::writing::write_uint;
use kinds::{Order, Refusal, Shift};
use record::{
    AFTER_BIAS, AFTER_N_WEIGHTS, AFTER_ORDER, AFTER_QUANTIZATION, AFTER_STATE, AFTER_VARIANT,
    AFTER_WINDOW, BITS_TO_ENCODE_DELTA_CONV_BIAS, BITS_TO_ENCODE_DELTA_CONV_N_WEIGHTS,
    BITS_TO_ENCODE_DELTA_CONV_QUANTIZATION, BITS_TO_ENCODE_DELTA_CONV_WEIGHT,
    BITS_TO_ENCODE_DELTA_ENCODING_ORDER, BITS_TO_ENCODE_DELTA_ENCODING_VARIANT,
    BITS_TO_ENCODE_DELTA_LOOKBACK_STATE_N_LOG, BITS_TO_ENCODE_DELTA_LOOKBACK_WINDOW_N_LOG,
    BITS_TO_ENCODE_FLAG, DeltaEncoding, DeltaRecord,
};

// More 2^31.
fn weight_to_latent_ordered(weight: i32) -> u64
    ensures { result ≡ raised 31 weight }
{
    (weight as i64 + 2147483648) as u64
}

// More 2^63.
fn bias_to_latent_ordered(bias: i64) -> u64
    ensures { result ≡ raised 63 bias }
{
    (bias as i128 + 9223372036854775808) as u64
}

fn write_no_op(bytes: &mut [u8]) -> usize
    ensures value { result ≡ bits_of DeltaEncoding.NoOp }
    ensures bytes_after { bytes.new ≡ put_record DeltaEncoding.NoOp [] bytes.old }
{
    write_uint(bytes, 0, BITS_TO_ENCODE_DELTA_ENCODING_VARIANT, 0);
    AFTER_VARIANT
}

fn write_consecutive(order: Order, flag: bool, bytes: &mut [u8]) -> usize
    ensures value { result ≡ bits_of (DeltaEncoding.Consecutive order flag) }
    ensures bytes_after { bytes.new ≡ put_record (DeltaEncoding.Consecutive order flag) [] bytes.old }
{
    let k = order.0;
    write_uint(bytes, 0, BITS_TO_ENCODE_DELTA_ENCODING_VARIANT, 1);
    write_uint(
        bytes,
        AFTER_VARIANT,
        BITS_TO_ENCODE_DELTA_ENCODING_ORDER,
        k as u64,
    );
    write_uint(bytes, AFTER_ORDER, BITS_TO_ENCODE_FLAG, u64::from(flag));
    AFTER_ORDER + BITS_TO_ENCODE_FLAG
}

fn write_lookback(window_n_log: u32, state_n_log: u32, flag: bool, bytes: &mut [u8]) -> usize
    requires { 0 < window_n_log }
    ensures value { result ≡ bits_of (DeltaEncoding.Lookback window_n_log state_n_log flag) }
    ensures bytes_after { bytes.new ≡ put_record (DeltaEncoding.Lookback window_n_log state_n_log flag) [] bytes.old }
{
    write_uint(bytes, 0, BITS_TO_ENCODE_DELTA_ENCODING_VARIANT, 2);
    write_uint(
        bytes,
        AFTER_VARIANT,
        BITS_TO_ENCODE_DELTA_LOOKBACK_WINDOW_N_LOG,
        (window_n_log - 1) as u64,
    );
    write_uint(
        bytes,
        AFTER_WINDOW,
        BITS_TO_ENCODE_DELTA_LOOKBACK_STATE_N_LOG,
        state_n_log as u64,
    );
    write_uint(bytes, AFTER_STATE, BITS_TO_ENCODE_FLAG, u64::from(flag));
    AFTER_STATE + BITS_TO_ENCODE_FLAG
}

fn write_weights(weights: [i32; 32], order: Order, bytes: &mut [u8])
    requires { order.0 ≤ 32 }
    ensures { bytes.new ≡ put_fields bytes.old weights_at (weight_fields order.0) (stored_weights order.0 weights) }
{
    for (i, weight) in weights[..order.0].iter().enumerate() {
        write_uint(
            bytes,
            AFTER_N_WEIGHTS + BITS_TO_ENCODE_DELTA_CONV_WEIGHT * i,
            BITS_TO_ENCODE_DELTA_CONV_WEIGHT,
            weight_to_latent_ordered(*weight),
        );
    }
}

#[tactic(auto, using(record::proofs::Put::weights_total))]
fn write_conv1(
    quantization: Shift,
    bias: i64,
    order: Order,
    weights: [i32; 32],
    bytes: &mut [u8],
) -> usize
    requires { (0 < order.0) × (order.0 ≤ 32) }
    ensures value { result ≡ bits_of (DeltaEncoding.Conv1 quantization bias order) }
    ensures bytes_after { bytes.new ≡ put_record (DeltaEncoding.Conv1 quantization bias order) weights bytes.old }
{
    let k = order.0;
    let q = quantization.0;
    write_uint(bytes, 0, BITS_TO_ENCODE_DELTA_ENCODING_VARIANT, 3);
    write_uint(
        bytes,
        AFTER_VARIANT,
        BITS_TO_ENCODE_DELTA_CONV_QUANTIZATION,
        q as u64,
    );
    write_uint(
        bytes,
        AFTER_QUANTIZATION,
        BITS_TO_ENCODE_DELTA_CONV_BIAS,
        bias_to_latent_ordered(bias),
    );
    write_uint(
        bytes,
        AFTER_BIAS,
        BITS_TO_ENCODE_DELTA_CONV_N_WEIGHTS,
        (k - 1) as u64,
    );
    write_weights(weights, order, bytes);
    AFTER_N_WEIGHTS + BITS_TO_ENCODE_DELTA_CONV_WEIGHT * k
}

// The fields of a record that no test refuses, and how many bits they take.
fn write_fields(encoding: DeltaEncoding, weights: [i32; 32], bytes: &mut [u8]) -> usize
    requires { (misordered encoding ≡ false) × (unfit encoding ≡ false) }
    ensures value { result ≡ bits_of encoding }
    ensures bytes_after { bytes.new ≡ put_record encoding weights bytes.old }
{
    match encoding {
        DeltaEncoding::NoOp => write_no_op(bytes),
        DeltaEncoding::Consecutive {
            order,
            secondary_uses_delta,
        } => write_consecutive(order, secondary_uses_delta, bytes),
        DeltaEncoding::Lookback {
            window_n_log,
            state_n_log,
            secondary_uses_delta,
        } => write_lookback(window_n_log, state_n_log, secondary_uses_delta, bytes),
        DeltaEncoding::Conv1 {
            quantization,
            bias,
            order,
        } => write_conv1(quantization, bias, order, weights, bytes),
    }
}

// Clears the bits past `bits` up to the end of their byte.
fn finish_byte(bits: usize, bytes: &mut [u8])
    ensures { bytes.new ≡ with_field bytes.old bits (unused bits) 0 }
{
    write_uint(bytes, bits, (8 - bits % 8) % 8, 0);
}

// Writes the record from the buffer's first bit on, always in the form with variants, and says how many bits it wrote.
#[tactic(auto, unfolding(record::specs::Writing::write_answer, record::specs::Writing::bytes_after, record::specs::Writing::written))]
pub fn write_to(delta: DeltaRecord, bytes: &mut [u8]) -> Result<usize, Refusal>
    ensures value { result ≡ write_answer delta (length bytes.old) }
    ensures bytes_after { bytes.new ≡ bytes_after delta bytes.old }
{
    refusal(delta.encoding, bytes.len())?;
    let bits = write_fields(delta.encoding, delta.weights, bytes);
    finish_byte(bits, bytes);
    Ok(bits)
}

pub mod fit;

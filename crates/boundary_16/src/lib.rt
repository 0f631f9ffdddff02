// What other languages call for samples of this width. Every function answers with a refusal number; a refusal changes no lent slice.
// include/claspotter.h describes it. C links a function by its name, so each width has its own; the bodies are the generic calls.
#![tactic(auto)]

ghost use Rattle.std.specs.Prelude.{◌≡◌, not};
ghost use Rattle.kinds.specs.declared.Refusal.TheVariants.{Overflows};
ghost use Rattle.kinds.specs.Answers.{Done, answer_number, refuse};
ghost use Rattle.rule.specs.Prediction.{admitted};
ghost use Rattle.calls.specs.declared.Way.TheVariants.{General, OrderSix};
ghost use Rattle.calls.specs.Encode as encoding;
ghost use Rattle.calls.specs.Decode as decoding;
ghost use Rattle.byte_coding.specs.Bytes.{weights_in, ragged};
ghost use Rattle.byte_coding.specs.Calls.{encode_bytes, decode_bytes};
ghost use Rattle.boundary.specs.Calls.{W_16, given};
ghost use Rattle.quantising.specs.Lent.{quantised_from, filled_from, shift_of, bias_of};

use calls::Way;
use kinds::{Configuration, Order, Refusal, Shift};
use sample::Sample;

// The accumulator rule alone: 0 where it holds, 3 where it fails.
#[unsafe(no_mangle)]
pub extern "C" fn claspotter_admits_16(bias: i64, weights: &[i32]) -> u32
    ensures { result ≡ answer_number (refuse (not (admitted W_16 bias weights.now)) Overflows Done) }
{
    if admission::accumulator::is_admitted(u16::WIDTH, bias, weights) {
        0
    } else {
        Refusal::Overflows.number()
    }
}

// Encodes the samples in place; the first `order` of them go into the state.
#[unsafe(no_mangle)]
pub extern "C" fn claspotter_encode_u16(
    order: usize,
    shift: u32,
    bias: i64,
    weights: &[i32],
    samples: &mut [u16],
    state: &mut [u16],
) -> u32
    ensures { encoding.left_numbered result samples.new state.new ≡ encoding.numbered (encoding.encode W_16 (given order shift bias weights.now) samples.old state.old) }
{
    let config = Configuration {
        order: Order(order),
        shift: Shift(shift),
        bias,
        weights,
    };
    kinds::number(encoding::encode_into(config, samples, state))
}

// Decodes a piece in place from the state, which becomes the one for the piece that follows.
#[unsafe(no_mangle)]
pub extern "C" fn claspotter_decode_u16(
    order: usize,
    shift: u32,
    bias: i64,
    weights: &[i32],
    state: &mut [u16],
    piece: &mut [u16],
) -> u32
    ensures { decoding.left_numbered result state.new piece.new ≡ decoding.numbered (decoding.decode W_16 (given order shift bias weights.now) state.old piece.old) }
{
    let config = Configuration {
        order: Order(order),
        shift: Shift(shift),
        bias,
        weights,
    };
    kinds::number(decoding::decode_into(config, state, piece))
}

// The same by the general way, at order 6 too.
#[unsafe(no_mangle)]
pub extern "C" fn claspotter_decode_general_u16(
    order: usize,
    shift: u32,
    bias: i64,
    weights: &[i32],
    state: &mut [u16],
    piece: &mut [u16],
) -> u32
    ensures { decoding.left_numbered result state.new piece.new ≡ decoding.numbered (decoding.decode_by General W_16 (given order shift bias weights.now) state.old piece.old) }
{
    let config = Configuration {
        order: Order(order),
        shift: Shift(shift),
        bias,
        weights,
    };
    kinds::number(decoding::decode_by(Way::General, config, state, piece))
}

// The same by the way of order 6, which refuses every other order.
#[unsafe(no_mangle)]
pub extern "C" fn claspotter_decode_order_6_u16(
    order: usize,
    shift: u32,
    bias: i64,
    weights: &[i32],
    state: &mut [u16],
    piece: &mut [u16],
) -> u32
    ensures { decoding.left_numbered result state.new piece.new ≡ decoding.numbered (decoding.decode_by OrderSix W_16 (given order shift bias weights.now) state.old piece.old) }
{
    let config = Configuration {
        order: Order(order),
        shift: Shift(shift),
        bias,
        weights,
    };
    kinds::number(decoding::decode_by(Way::OrderSix, config, state, piece))
}

// `claspotter_encode_u16` over bytes: little-endian samples, and weights of four bytes.
#[unsafe(no_mangle)]
pub extern "C" fn claspotter_encode_bytes_16(
    order: usize,
    shift: u32,
    bias: i64,
    weights: &[u8],
    samples: &mut [u8],
    state: &mut [u8],
) -> u32
    ensures { encoding.left_numbered result samples.new state.new ≡ encoding.numbered (encode_bytes W_16 (given order shift bias (weights_in weights.now)) (ragged W_16 weights.now state.old samples.old) samples.old state.old) }
{
    let config = Configuration {
        order: Order(order),
        shift: Shift(shift),
        bias,
        weights,
    };
    kinds::number(byte_coding::encoder::encode::<u16>(config, samples, state))
}

// `claspotter_decode_u16` over bytes.
#[unsafe(no_mangle)]
pub extern "C" fn claspotter_decode_bytes_16(
    order: usize,
    shift: u32,
    bias: i64,
    weights: &[u8],
    state: &mut [u8],
    piece: &mut [u8],
) -> u32
    ensures { decoding.left_numbered result state.new piece.new ≡ decoding.numbered (decode_bytes General W_16 (given order shift bias (weights_in weights.now)) (ragged W_16 weights.now state.old piece.old) state.old piece.old) }
{
    let config = Configuration {
        order: Order(order),
        shift: Shift(shift),
        bias,
        weights,
    };
    kinds::number(byte_coding::decoder::decode::<u16>(config, state, piece))
}

// `claspotter_decode_general_u16` over bytes.
#[unsafe(no_mangle)]
pub extern "C" fn claspotter_decode_general_bytes_16(
    order: usize,
    shift: u32,
    bias: i64,
    weights: &[u8],
    state: &mut [u8],
    piece: &mut [u8],
) -> u32
    ensures { decoding.left_numbered result state.new piece.new ≡ decoding.numbered (decode_bytes General W_16 (given order shift bias (weights_in weights.now)) (ragged W_16 weights.now state.old piece.old) state.old piece.old) }
{
    let config = Configuration {
        order: Order(order),
        shift: Shift(shift),
        bias,
        weights,
    };
    kinds::number(byte_coding::decoder::decode_by::<u16>(Way::General, config, state, piece))
}

// `claspotter_decode_order_6_u16` over bytes.
#[unsafe(no_mangle)]
pub extern "C" fn claspotter_decode_order_6_bytes_16(
    order: usize,
    shift: u32,
    bias: i64,
    weights: &[u8],
    state: &mut [u8],
    piece: &mut [u8],
) -> u32
    ensures { decoding.left_numbered result state.new piece.new ≡ decoding.numbered (decode_bytes OrderSix W_16 (given order shift bias (weights_in weights.now)) (ragged W_16 weights.now state.old piece.old) state.old piece.old) }
{
    let config = Configuration {
        order: Order(order),
        shift: Shift(shift),
        bias,
        weights,
    };
    kinds::number(byte_coding::decoder::decode_by::<u16>(Way::OrderSix, config, state, piece))
}

// Float weights to a configuration: its weights fill the lent slice, its shift and bias go to the lent numbers. Beside a refusal both
// are 0.
#[unsafe(no_mangle)]
pub extern "C" fn claspotter_quantise_16(
    order: usize,
    fitted: &[f64],
    centred_bias: f64,
    centre: u16,
    weights: &mut [i32],
    shift: &mut u32,
    bias: &mut i64,
) -> u32
    ensures value { result ≡ answer_number (quantised_from W_16 order fitted.now centre centred_bias weights.old) }
    ensures weights_after { weights.new ≡ filled_from W_16 order fitted.now centre centred_bias weights.old }
    ensures shift_after { shift.new ≡ shift_of (quantised_from W_16 order fitted.now centre centred_bias weights.old) }
    ensures bias_after { bias.new ≡ bias_of (quantised_from W_16 order fitted.now centre centred_bias weights.old) }
{
    let said = quantising::centred::quantise(Order(order), fitted, centred_bias, centre, weights);
    *shift = said.map_or(0, |quantised| quantised.shift.0);
    *bias = said.map_or(0, |quantised| quantised.bias);
    kinds::number(said)
}

// What other languages call for the delta record, in plain numbers: variant 0 is nothing, 1 Consecutive, 2 Lookback, 3 Conv1. Every
// function answers with a refusal number; a refusal changes no lent slice. include/claspotter.h describes it.
#![tactic(auto)]

ghost use Rattle.std.specs.Prelude.{◌≡◌, length};
ghost use Rattle.std.specs.Result.{result_unwrap_or};
ghost use Rattle.kinds.specs.Answers.{answer_number};
ghost use Rattle.record.specs.Writing.{flag_value};
ghost use Rattle.record_numbers.specs.Numbers.{given};
ghost use Rattle.record_numbers.specs.Calls.{given_out, read_numbers, weights_after, write_numbers, bytes_after_numbers};

use kinds::{Order, Shift};
use record_numbers::numbers::Numbers;

// Reads the record at the start of the bytes; `variants` is false for files that hold only an order. What the variant does not have
// is 0. Any content of the numbers at entry will do, which is why the flag is a number, 0 or 1, and no bool.
#[unsafe(no_mangle)]
pub extern "C" fn claspotter_read_record(
    bytes: &[u8],
    variants: bool,
    variant: &mut u32,
    order: &mut usize,
    window_n_log: &mut u32,
    state_n_log: &mut u32,
    secondary_uses_delta: &mut u32,
    quantization: &mut u32,
    bias: &mut i64,
    weights: &mut [i32],
    bits: &mut usize,
) -> u32
    ensures value { result ≡ answer_number (read_numbers bytes.now variants weights.old) }
    ensures variant_after { variant.new ≡ (given_out bytes.now variants weights.old).numbers.variant }
    ensures order_after { order.new ≡ (given_out bytes.now variants weights.old).numbers.order.0 }
    ensures window_n_log_after { window_n_log.new ≡ (given_out bytes.now variants weights.old).numbers.window_n_log }
    ensures state_n_log_after { state_n_log.new ≡ (given_out bytes.now variants weights.old).numbers.state_n_log }
    ensures secondary_uses_delta_after { secondary_uses_delta.new ≡ flag_value (given_out bytes.now variants weights.old).numbers.secondary_uses_delta }
    ensures quantization_after { quantization.new ≡ (given_out bytes.now variants weights.old).numbers.quantization.0 }
    ensures bias_after { bias.new ≡ (given_out bytes.now variants weights.old).numbers.bias }
    ensures weights_after { weights.new ≡ weights_after bytes.now variants weights.old }
    ensures bits_after { bits.new ≡ (given_out bytes.now variants weights.old).bits }
{
    let read = record_numbers::read(bytes, variants, weights);
    let readout = read.unwrap_or_default();
    let numbers = readout.numbers;
    *variant = numbers.variant;
    *order = numbers.order.0;
    *window_n_log = numbers.window_n_log;
    *state_n_log = numbers.state_n_log;
    *secondary_uses_delta = u32::from(numbers.secondary_uses_delta);
    *quantization = numbers.quantization.0;
    *bias = numbers.bias;
    *bits = readout.bits;
    kinds::number(read)
}

// Writes the record from the buffer's first bit on. What the variant does not have is not looked at; a Conv1 lends as many weights as
// its order says.
#[unsafe(no_mangle)]
pub extern "C" fn claspotter_write_record(
    variant: u32,
    order: usize,
    window_n_log: u32,
    state_n_log: u32,
    secondary_uses_delta: bool,
    quantization: u32,
    bias: i64,
    weights: &[i32],
    bytes: &mut [u8],
    bits: &mut usize,
) -> u32
    ensures value { result ≡ answer_number (write_numbers (given variant order window_n_log state_n_log secondary_uses_delta quantization bias) weights.now (length bytes.old)) }
    ensures bytes_after { bytes.new ≡ bytes_after_numbers (given variant order window_n_log state_n_log secondary_uses_delta quantization bias) weights.now bytes.old }
    ensures bits_after { bits.new ≡ result_unwrap_or (write_numbers (given variant order window_n_log state_n_log secondary_uses_delta quantization bias) weights.now (length bytes.old)) 0 }
{
    let numbers = Numbers::new(
        variant,
        Order(order),
        window_n_log,
        state_n_log,
        secondary_uses_delta,
        Shift(quantization),
        bias,
    );
    let written = record_numbers::write(numbers, weights, bytes);
    *bits = written.unwrap_or(0);
    kinds::number(written)
}

// Cases of reading and writing a delta record. Buffers have 144 bytes, more than any record takes.
use crate::casts::{count, place, word, word_bits};
use crate::lines::Line;
use crate::sums::{EMPTY, with, with_answer, with_weights};
use kinds::{Order, Refusal, Shift};
use record::{DeltaEncoding, DeltaRecord, Reading};

// A record's fields in the order of a line: variant, order, window, state, flag, shift, bias. What a variant does not have is 0.
fn to_fields(encoding: DeltaEncoding) -> [u64; 7] {
    match encoding {
        DeltaEncoding::NoOp => [0; 7],
        DeltaEncoding::Consecutive {
            order,
            secondary_uses_delta: flag,
        } => [1, count(order.0), 0, 0, u64::from(flag), 0, 0],
        DeltaEncoding::Lookback {
            window_n_log: window,
            state_n_log: state,
            secondary_uses_delta: flag,
        } => [
            2,
            0,
            word_bits(window),
            word_bits(state),
            u64::from(flag),
            0,
            0,
        ],
        DeltaEncoding::Conv1 {
            quantization: shift,
            bias,
            order,
        } => {
            let bias = crate::casts::signed_bits(bias);
            [3, count(order.0), 0, 0, 0, word_bits(shift.0), bias]
        }
    }
}

fn weights_in(encoding: DeltaEncoding) -> usize {
    match encoding {
        DeltaEncoding::Conv1 { order, .. } => order.0,
        _ => 0,
    }
}

// A sum that goes on with the fields, the number of weights and the weights.
fn with_record(before: u64, delta: DeltaRecord) -> u64 {
    let fields = to_fields(delta.encoding);
    let sum = fields.iter().fold(before, |sum, field| with(sum, *field));
    let k = weights_in(delta.encoding);
    with_weights(with(sum, count(k)), delta.weights, k)
}

// A sum that goes on with the answer, and after answer 0 with the bits used and the record.
fn with_reading(before: u64, got: Result<Reading, Refusal>) -> u64 {
    let sum = with_answer(before, got);
    match got {
        Ok(Reading { delta, bits }) => with_record(with(sum, count(bits)), delta),
        Err(_) => sum,
    }
}

// The 144 numbers from place 3 on, as bytes; a number that is no byte loses its high bits, and the sum then differs.
fn bytes_from(numbers: [u64; 256]) -> [u8; 144] {
    let mut bytes = [0; 144];
    for (byte, number) in bytes.iter_mut().zip(&numbers[3..]) {
        *byte = (*number % 256) as u8;
    }
    bytes
}

fn with_bytes(before: u64, bytes: &[u8]) -> u64 {
    bytes
        .iter()
        .fold(before, |sum, byte| with(sum, u64::from(*byte)))
}

// 1 for files with variants, the number of bytes, the bytes, what they are read as.
pub(crate) fn read(line: Line) -> bool {
    let numbers = line.numbers;
    let bytes = bytes_from(numbers);
    let Some(bytes) = bytes.get(..place(numbers[2])) else {
        return false;
    };
    let got = record_reading::read_from(bytes, numbers[1] == 1);
    with_reading(with_bytes(EMPTY, bytes), got) == crate::sums::kept(line, 3)
}

fn encoding_from(numbers: [u64; 256]) -> DeltaEncoding {
    let order = Order(place(numbers[2]));
    let flag = numbers[5] == 1;
    match numbers[1] {
        1 => DeltaEncoding::Consecutive {
            order,
            secondary_uses_delta: flag,
        },
        2 => DeltaEncoding::Lookback {
            window_n_log: word(numbers[3]),
            state_n_log: word(numbers[4]),
            secondary_uses_delta: flag,
        },
        3 => DeltaEncoding::Conv1 {
            quantization: Shift(word(numbers[6])),
            bias: crate::casts::signed(numbers[7]),
            order,
        },
        _ => DeltaEncoding::NoOp,
    }
}

// The fields, the number of weights, the weights, the answer, the bits written, the number of bytes, the bytes.
pub(crate) fn write(line: Line) -> bool {
    let numbers = line.numbers;
    let k = place(numbers[8]).min(32);
    let weights = crate::casts::weights(numbers, 9);
    let delta = DeltaRecord {
        encoding: encoding_from(numbers),
        weights,
    };
    let mut bytes = [255; 144];
    let written = record_writing::write_to(delta, &mut bytes);
    let n = numbers[11 + k];
    let answered = with_answer(with_weights(EMPTY, weights, k), written);
    let sum = with(with(answered, count(written.unwrap_or(0))), n);
    with_bytes(sum, &bytes[..place(n).min(144)]) == crate::sums::kept(line, 9)
}

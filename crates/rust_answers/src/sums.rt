// A sum stands for a list of numbers, each in its place. The modulus is a prime above 2^32, so two lists that differ in one number of 32
// bits never have the same sum. harness/src/sample.rs has the same sum.
ghost use Rattle.std.specs.Prelude.{◌^◌, ◌<◌};

use crate::casts::weight_bits;
use crate::lines::Line;
use kinds::Refusal;

// The sum of the empty list.
pub const EMPTY: u64 = 7;

// No sum is as large.
pub const NO_SUM: u64 = u64::MAX;

const MODULUS: u64 = 1099511627689;

fn with_half(sum: u64, x: u64) -> u64
    ensures { result < 2 ^ 40 }
{
    (sum % MODULUS * 65599 + x % 4294967296) % MODULUS
}

// The sum with one number more: its low half and then its high half.
pub(crate) fn with(sum: u64, x: u64) -> u64 {
    with_half(with_half(sum, x), x / 4294967296)
}

pub(crate) fn with_answer<T: Drop>(sum: u64, answer: Result<T, Refusal>) -> u64 {
    with(sum, u64::from(kinds::number(answer)))
}

pub(crate) fn with_weights(before: u64, weights: [i32; 32], k: usize) -> u64 {
    let first = weights.iter().take(k);
    first.fold(before, |sum, weight| with(sum, weight_bits(*weight)))
}

// What is kept: the sum of a line's numbers from a place on.
pub(crate) fn kept(line: Line, from: usize) -> u64 {
    let rest = line.numbers.iter().take(line.count).skip(from);
    rest.fold(EMPTY, |sum, number| with(sum, *number))
}

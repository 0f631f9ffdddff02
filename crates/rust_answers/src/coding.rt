// Cases of encoding and decoding, at any width. A row is the list of samples that is coded in place, in the first places of an array.
ghost use Rattle.std.specs.Prelude.{◌^◌, ◌<◌, ◌≤◌};

use crate::casts::place;
use crate::lines::Line;
use crate::sums::NO_SUM;

// What a case begins with, but for its width and its weights. `count` is the number of samples.
#[derive(Clone, Copy, Debug, PartialEq, Eq, Hash)]
pub struct Config {
    pub order: usize,
    pub shift: u32,
    pub bias: i64,
    pub count: usize,
}

// The sum of the weights, the row and all that comes of it; nothing where the case has no width, or more than there is room for.
fn run(numbers: [u64; 256], row: [u64; 1088]) -> Option<u64> {
    let c = Config {
        order: place(numbers[2]),
        shift: crate::casts::word(numbers[3]),
        bias: crate::casts::signed(numbers[4]),
        count: place(numbers[5]),
    };
    if 32 < c.order || 1088 < c.count {
        return None;
    }
    let weights = crate::casts::weights(numbers, 6);
    let sum = crate::sums::with_weights(crate::sums::EMPTY, weights, c.order);
    match numbers[1] {
        8 => Some(crate::coder::code::<u8>(c, weights, sum, row)),
        16 => Some(crate::coder::code::<u16>(c, weights, sum, row)),
        32 => Some(crate::coder::code::<u32>(c, weights, sum, row)),
        _ => None,
    }
}

// The place behind the weights.
fn behind_weights(numbers: [u64; 256]) -> usize
    ensures { result ≤ 38 }
{
    6 + place(numbers[2]).min(32)
}

// The numbers from a place on.
fn row_from(numbers: [u64; 256], from: usize) -> [u64; 1088]
    requires { from ≤ 256 }
{
    let mut row = [0; 1088];
    row[..256 - from].copy_from_slice(&numbers[from..]);
    row
}

// The weights, the row, and all that comes of it are kept.
pub(crate) fn code(line: Line) -> bool {
    let numbers = line.numbers;
    let row = row_from(numbers, behind_weights(numbers));
    run(numbers, row) == Some(crate::sums::kept(line, 6))
}

// The next of a row of numbers that look like chance.
fn next(x: u64) -> u64
    ensures { result < 2 ^ 32 }
{
    (x % 4294967291 * 1664525 + 1013904223) % 4294967291
}

// The row of a seed; a sample takes the low bits. harness/src/sample.rs makes the same.
fn row_of(seed: u64) -> [u64; 1088] {
    let mut row = [0; 1088];
    let mut x = seed;
    for place in row.iter_mut() {
        x = next(x);
        *place = x;
    }
    row
}

// A seed is kept for the row, and the sum for the rest.
pub(crate) fn code_row(line: Line) -> bool {
    let numbers = line.numbers;
    let at = behind_weights(numbers);
    if line.count != at + 2 {
        return false;
    }
    run(numbers, row_of(numbers[at])).unwrap_or(NO_SUM) == numbers[at + 1]
}

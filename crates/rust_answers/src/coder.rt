// The port at any width.
ghost use Rattle.std.specs.Prelude.{◌≤◌, length};

use crate::coding::Config;
use crate::sums::with_answer;
use calls::Way;
use decoding::by_value::{Decoded, decode_by, decode_in_place};
use encoding::by_value::{Encoded, encode_in_place};
use kinds::{Configuration, Order, Shift};
use sample::Sample;

// A number that is no sample loses its high bits, and the sum then differs.
fn narrow<S: Sample>(list: &[u64]) -> [S; 1088] {
    let mut row = [S::ZERO; 1088];
    for (place, number) in row.iter_mut().zip(list) {
        *place = S::low_bits(*number);
    }
    row
}

fn with_row<S: Sample>(before: u64, row: &[S]) -> u64 {
    row.iter().fold(before, |sum, sample| {
        crate::sums::with(sum, u64::from(sample.to_number()))
    })
}

// A sum that goes on with the row, and then with the answer and the row after each of three calls: encoding; decoding of what came out,
// from the saved state, by the way that a user calls; and decoding of what came out of that, from the state after it, by the general way.
// A state needs no sum of its own, since the outputs of the next piece begin with it.
fn chain<S: Sample>(config: Configuration<'_>, before: u64, room: &mut [S], count: usize) -> u64
    requires { count ≤ length room.old }
{
    let row = &mut room[..count];
    let given = with_row(before, row);
    let Encoded { said, state } = encode_in_place(config, row);
    let coded = with_row(with_answer(given, said), row);
    let Decoded { said, state } = decode_in_place(config, state, row);
    let once = with_row(with_answer(coded, said), row);
    let Decoded { said, .. } = decode_by(Way::General, config, state, row);
    with_row(with_answer(once, said), row)
}

pub(crate) fn code<S: Sample>(c: Config, weights: [i32; 32], before: u64, list: [u64; 1088]) -> u64
    requires { (c.order ≤ 32) × (c.count ≤ 1088) }
{
    let config = Configuration {
        order: Order(c.order),
        shift: Shift(c.shift),
        bias: c.bias,
        weights: &weights[..c.order],
    };
    let mut row = narrow::<S>(&list);
    chain(config, before, &mut row, c.count)
}

// The coders at any width, around a tape of numbers of 64 bits.
ghost use Rattle.std.specs.Prelude.{◌≤◌, length};

use crate::trial::{Case, Tape, Way};
use decoding::by_value::Decoded;
use kinds::{Configuration, Order, SampleCount, Shift};
use sample::{Sample, State};

// The samples of the first numbers.
fn narrow<S: Sample, const N: usize>(numbers: &[u64]) -> [S; N] {
    let mut row = [S::ZERO; N];
    for (place, number) in row.iter_mut().zip(numbers) {
        *place = S::low_bits(*number);
    }
    row
}

// The samples' numbers in the first places.
fn widen<S: Sample>(samples: &[S], numbers: &mut [u64]) {
    for (place, sample) in numbers.iter_mut().zip(samples) {
        *place = u64::from(sample.to_number());
    }
}

// One call, on the samples from a place on, up to another.
fn code<S: Sample>(
    c: Case,
    way: Way,
    state: State<S>,
    row: &mut [S],
    from: usize,
    end: usize,
) -> Decoded<S>
    requires { (from ≤ end) × (end ≤ length row.old) }
{
    let config = Configuration {
        order: Order(c.order),
        shift: Shift(c.shift),
        bias: c.bias,
        weights: &c.weights[..c.given],
    };
    let samples = &mut row[from..end];
    match way {
        Way::General => {
            decoding::by_value::decode_by(calls::Way::General, config, state, samples)
        }
        Way::User => decoding::by_value::decode_in_place(config, state, samples),
        Way::Encoding => {
            let done = encoding::by_value::encode_in_place(config, samples);
            Decoded {
                said: done.said,
                state: done.state,
            }
        }
    }
}

// The tape is lent: it is long, and a piece changes little of it.
pub(crate) fn call<S: Sample>(c: Case, way: Way, from: usize, end: usize, tape: &mut Tape)
    requires { (from ≤ end) × (end ≤ 2048) }
{
    let mut row: [S; 2048] = narrow(&tape.row);
    let state = State {
        samples: narrow(&tape.held),
        count: SampleCount(tape.kept),
    };
    let done = code(c, way, state, &mut row, from, end);
    tape.said = done.said;
    widen(&row, &mut tape.row);
    widen(&done.state.samples, &mut tape.held);
    tape.kept = done.state.count.0;
}

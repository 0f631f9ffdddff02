// Decoding: by the general way, at any order; by the way of order 6; and what a user calls, by either way or by the quicker one.
#![tactic(auto)]

ghost use Rattle.std.specs.Prelude.{◌≡◌};
ghost use Rattle.kinds.specs.Widths.{bits_of};
ghost use Rattle.rule.specs.Configuration.{given};
ghost use Rattle.calls.specs.Decode.{left, refusal_by, decode_by, decode};
ghost use Rattle.calls.specs.ByValue.{lent};
ghost use Rattle.calls.specs.Pieces.{Fits};
ghost use Rattle.predict.specs.Configuration.{config_of};
ghost use Rattle.decoding.specs.Steps.{Startable, Decodes};
ghost use Rattle.decoding.specs.Ways.{quickest};

use calls::Way;
use kinds::{Configuration, Order, Refusal, SampleCount, Width};
use predict::config::Config;
use sample::Sample;

pub mod by_value;
pub mod general_way;
pub mod order_six;

// The quicker of the ways that an order has.
pub fn quickest_way(order: Order) -> Way
    ensures { result ≡ quickest order.0 }
{
    match order.0 {
        6 => Way::OrderSix,
        _ => Way::General,
    }
}

// The tests of a call that decodes by a way from a state of `state` samples.
pub fn answer_by(
    way: Way,
    width: Width,
    config: Configuration<'_>,
    state: SampleCount,
) -> Result<(), Refusal>
    ensures { result ≡ refusal_by way (bits_of width) (given config.entry) state.0 }
{
    match way {
        Way::General => admission::coding_answer(width, config, state),
        Way::OrderSix => admission::order_six_answer(width, config, state),
    }
}

// How many places of a state's array are lent. A count that no array holds is refused by its length, and so is a state of none.
pub fn places_lent(count: SampleCount) -> usize
    ensures { result ≡ lent count.0 }
{
    if count.0 <= 32 { count.0 } else { 0 }
}

// Decodes a piece where it lies, by a configuration whose tests have passed.
pub fn decode_samples<S: Sample>(
    way: Way,
    config: &Config<S::Conv>,
    state: &mut [S],
    piece: &mut [S],
)
    requires { Startable S.W (config_of S.integer config.now) (S.numbers state.old) × Fits (config_of S.integer config.now) way }
    ensures { Decodes S.W (config_of S.integer config.now) (S.numbers state.old) (S.numbers piece.old) (S.numbers piece.new) (S.numbers state.new) }
{
    match way {
        Way::General => general_way::decode_samples(config, state, piece),
        Way::OrderSix => order_six::decode_in_place_order_6(config, state, piece),
    }
}

// The tests of a call, and then all of it, by the way that is asked for. The state's length counts for test 4, and the new state takes
// its place.
pub fn decode_by<S: Sample>(
    way: Way,
    config: Configuration<'_>,
    state: &mut [S],
    piece: &mut [S],
) -> Result<(), Refusal>
    ensures { left result (S.numbers state.new) (S.numbers piece.new) ≡ decode_by way S.W (given config.entry) (S.numbers state.old) (S.numbers piece.old) }
{
    answer_by(way, S::WIDTH, config, SampleCount(state.len()))?;
    decode_samples(way, &predict::config::conv::<S>(config), state, piece);
    Ok(())
}

// The same by the quicker way.
pub fn decode_into<S: Sample>(
    config: Configuration<'_>,
    state: &mut [S],
    piece: &mut [S],
) -> Result<(), Refusal>
    ensures { left result (S.numbers state.new) (S.numbers piece.new) ≡ decode S.W (given config.entry) (S.numbers state.old) (S.numbers piece.old) }
{
    decode_by(quickest_way(config.order), config, state, piece)
}

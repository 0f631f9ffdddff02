// The tests of a call in their order, at any width.
#![tactic(auto)]

ghost use Rattle.std.specs.Prelude.{◌≡◌};
ghost use Rattle.kinds.specs.Widths.{bits_of};
ghost use Rattle.rule.specs.Configuration.{given};
ghost use Rattle.rule.specs.Refusals.{coding_refusal, order_six_refusal, encoding_refusal};

use kinds::{Configuration, Refusal, SampleCount, Width};

// Tests 1, 2, 4, 3, where a state of `state` samples is given.
#[tactic(auto, unfolding(rule::specs::Refusals::coding_refusal))]
pub fn coding_answer(
    width: Width,
    config: Configuration<'_>,
    state: SampleCount,
) -> Result<(), Refusal>
    ensures { result ≡ coding_refusal (bits_of width) (given config.entry) state.0 }
{
    if !crate::limits::is_order(config.order) {
        return Err(Refusal::BadOrder);
    }
    if !crate::limits::is_shift(width, config.shift) {
        return Err(Refusal::BadShift);
    }
    if config.weights.len() != config.order.0 || state.0 != config.order.0 {
        return Err(Refusal::BadLength);
    }
    if !crate::accumulator::is_admitted(width, config.bias, config.weights) {
        return Err(Refusal::Overflows);
    }
    Ok(())
}

// The tests of the order-6 way: any other order is refused before them.
#[tactic(auto, unfolding(rule::specs::Refusals::order_six_refusal))]
pub fn order_six_answer(
    width: Width,
    config: Configuration<'_>,
    state: SampleCount,
) -> Result<(), Refusal>
    ensures { result ≡ order_six_refusal (bits_of width) (given config.entry) state.0 }
{
    if config.order.0 != 6 {
        return Err(Refusal::BadOrder);
    }
    coding_answer(width, config, state)
}

// The tests of encoding `count` samples: 1, 2, 4, 3, 5. A call that lends no state gives the order for its length.
#[tactic(auto, unfolding(rule::specs::Refusals::encoding_refusal))]
pub fn encoding_answer(
    width: Width,
    config: Configuration<'_>,
    state: SampleCount,
    count: SampleCount,
) -> Result<(), Refusal>
    ensures { result ≡ encoding_refusal (bits_of width) (given config.entry) state.0 count.0 }
{
    coding_answer(width, config, state)?;
    if count.0 < config.order.0 {
        return Err(Refusal::TooFewSamples);
    }
    Ok(())
}

pub mod accumulator;
pub mod limits;

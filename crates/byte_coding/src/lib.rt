// Coding of samples that lie in bytes, little-endian, chunk by chunk through fixed arrays. Here are the tests that need nothing but the
// lengths of byte slices.
#![tactic(auto)]

ghost use Rattle.std.specs.Prelude.{◌≡◌, ◌/◌};
ghost use Rattle.kinds.specs.Widths.{bits_of};
ghost use Rattle.byte_coding.specs.Lengths.{layout_refusal, layout_by};

use calls::Way;
use kinds::{Order, Refusal, Shift, Width};

pub mod decoder;
pub mod encoder;

// How many bytes a sample takes.
fn sample_bytes(width: Width) -> usize
    ensures { result ≡ bits_of width / 8 }
{
    match width {
        Width::Eight => 1,
        Width::Sixteen => 2,
        Width::ThirtyTwo => 4,
    }
}

// The tests that need no weight, from the lengths in bytes: 1, 2, then 4, ragged lengths first.
#[tactic(auto, unfolding(crate::specs::Lengths::layout_refusal))]
pub fn layout_answer(
    width: Width,
    order: Order,
    shift: Shift,
    weights: usize,
    state: usize,
    samples: usize,
) -> Result<(), Refusal>
    ensures { result ≡ layout_refusal (bits_of width) order.0 shift.0 weights state samples }
{
    if !admission::limits::is_order(order) {
        return Err(Refusal::BadOrder);
    }
    if !admission::limits::is_shift(width, shift) {
        return Err(Refusal::BadShift);
    }
    let bytes = sample_bytes(width);
    if weights % 4 != 0 || state % bytes != 0 || samples % bytes != 0 || weights / 4 != order.0 {
        return Err(Refusal::BadLength);
    }
    Ok(())
}

// The same for decoding by a way: the way of order 6 refuses every other order first.
#[tactic(auto, unfolding(crate::specs::Lengths::layout_by))]
pub fn layout_answer_by(
    way: Way,
    width: Width,
    order: Order,
    shift: Shift,
    weights: usize,
    state: usize,
    samples: usize,
) -> Result<(), Refusal>
    ensures { result ≡ layout_by way (bits_of width) order.0 shift.0 weights state samples }
{
    if way == Way::OrderSix && order.0 != 6 {
        return Err(Refusal::BadOrder);
    }
    layout_answer(width, order, shift, weights, state, samples)
}

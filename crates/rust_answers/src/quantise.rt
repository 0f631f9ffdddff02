// Cases of quantising. Floats are kept as their 64 bits.
use crate::casts::{place, signed_bits, word_bits};
use crate::lines::Line;
use crate::sums::{EMPTY, kept, with, with_answer, with_weights};
use kinds::{Order, Refusal};
use quantising::{Fitted, Quantised};
use std::num::f64_from_bits_with_nan;

// The 32 numbers from place 5 on, as floats.
fn floats(numbers: [u64; 256]) -> [f64; 32] {
    let mut list = [0.0; 32];
    for (place, bits) in list.iter_mut().zip(&numbers[5..]) {
        *place = f64_from_bits_with_nan(*bits);
    }
    list
}

// Nothing for what is no width, or no sample of it.
fn quantise_at(
    width: u64,
    fitted: Fitted,
    centre: u64,
    weights: &mut [i32],
) -> Option<Result<Quantised, Refusal>> {
    let said = match width {
        8 => quantising::centred::quantise_fitted(fitted, u8::try_from(centre).ok()?, weights),
        16 => quantising::centred::quantise_fitted(fitted, u16::try_from(centre).ok()?, weights),
        32 => quantising::centred::quantise_fitted(fitted, u32::try_from(centre).ok()?, weights),
        _ => return None,
    };
    Some(said)
}

// The sum of the answer, and after answer 0 of the shift, the bias and the weights.
fn sum_of(said: Result<Quantised, Refusal>, weights: [i32; 32], k: usize) -> u64 {
    let sum = with_answer(EMPTY, said);
    let Ok(quantised) = said else {
        return sum;
    };
    let shifted = with(sum, word_bits(quantised.shift.0));
    let biased = with(shifted, signed_bits(quantised.bias));
    with_weights(biased, weights, k)
}

// Width, order, centre, the centred bias, the weights; what they give.
pub(crate) fn quantise(line: Line) -> bool {
    let numbers = line.numbers;
    let k = place(numbers[2]).min(32);
    let fitted = Fitted {
        weights: floats(numbers),
        bias: f64_from_bits_with_nan(numbers[4]),
        order: Order(k),
    };
    let mut weights = [0; 32];
    let said = quantise_at(numbers[1], fitted, numbers[3], &mut weights[..k]);
    said.is_some_and(|said| sum_of(said, weights, k) == kept(line, 5 + k))
}

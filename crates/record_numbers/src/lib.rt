// A delta record read and written in plain numbers, its weights in a lent slice.
#![tactic(auto)]

ghost use Rattle.std.specs.Prelude.{◌≡◌, ◌≤◌, length};
ghost use Rattle.record_numbers.specs.Numbers.{weights_of};
ghost use Rattle.record_numbers.specs.Calls.{readout, nothing, read_numbers, weights_after, write_numbers, bytes_after_numbers};

use crate::numbers::{CONV1, Numbers, tested_encoding};
use kinds::{Refusal, WeightCount};
use record::{DeltaRecord, MAX_CONV1_DELTA_ORDER, Reading};

// A record that was read but for its weights, and how many bits it took.
#[derive(Clone, Copy, Debug, PartialEq, Eq, Hash)]
pub struct Readout {
    pub numbers: Numbers,
    pub bits: usize,
}

impl From<Reading> for Readout {
    ghost from_gives = { λ reading result. result ≡ readout reading };

    fn from(reading: Reading) -> Self {
        Readout {
            numbers: Numbers::from(reading.delta.encoding),
            bits: reading.bits,
        }
    }
}

// What the numbers say beside a refusal: each is 0.
impl Default for Readout {
    ghost is_default = { λ readout. readout ≡ nothing };

    fn default() -> Self {
        Readout::from(Reading::default())
    }
}

// Reads a record; its array of weights goes into the lent slice, which is tested first. `variants` is false for files that hold only
// an order.
#[tactic(auto, unfolding(crate::specs::Calls::read_into))]
pub fn read(bytes: &[u8], variants: bool, weights: &mut [i32]) -> Result<Readout, Refusal>
    ensures value { result ≡ read_numbers bytes.now variants weights.old }
    ensures weights_after { weights.new ≡ weights_after bytes.now variants weights.old }
{
    if weights.len() != MAX_CONV1_DELTA_ORDER {
        return Err(Refusal::BadLength);
    }
    let reading = record_reading::read_from(bytes, variants)?;
    weights.copy_from_slice(&reading.delta.weights);
    Ok(Readout::from(reading))
}

// Conv1's weights in an array; no other variant has any, and then they may be of any length.
fn weights_of(variant: u32, weights: &[i32]) -> [i32; 32]
    requires { variant ≡ 3 → length weights.now ≤ 32 }
    ensures { result ≡ weights_of variant weights.now }
{
    let mut array = [0i32; 32];
    if variant == CONV1 {
        array[..weights.len()].copy_from_slice(weights);
    }
    array
}

// Writes the record of the numbers; a Conv1 has as many weights as its order says.
#[tactic(auto, using(crate::proofs::Weights::few), unfolding(crate::specs::Calls::write_numbers, crate::specs::Calls::bytes_after_numbers))]
pub fn write(numbers: Numbers, weights: &[i32], bytes: &mut [u8]) -> Result<usize, Refusal>
    ensures value { result ≡ write_numbers numbers weights.now (length bytes.old) }
    ensures bytes_after { bytes.new ≡ bytes_after_numbers numbers weights.now bytes.old }
{
    let encoding = tested_encoding(numbers, WeightCount(weights.len()))?;
    let delta = DeltaRecord {
        encoding,
        weights: weights_of(numbers.variant, weights),
    };
    record_writing::write_to(delta, bytes)
}

pub mod numbers;

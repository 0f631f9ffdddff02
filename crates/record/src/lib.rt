// The delta record by value, its field widths and limits, and what reading and writing it answer; specs/ says how it lies in bits.
#![tactic(auto)]

ghost use Rattle.std.specs.Prelude.{◌≡◌};
ghost use Rattle.record.specs.Reading.{given, nothing};

use kinds::{Order, Refusal, Shift};

// Field widths, in bits.
pub const BITS_TO_ENCODE_DELTA_ENCODING_VARIANT: usize = 4;

pub const BITS_TO_ENCODE_DELTA_ENCODING_ORDER: usize = 3;

pub const BITS_TO_ENCODE_DELTA_CONV_QUANTIZATION: usize = 5;

pub const BITS_TO_ENCODE_DELTA_CONV_BIAS: usize = 64;

pub const BITS_TO_ENCODE_DELTA_CONV_N_WEIGHTS: usize = 5;

pub const BITS_TO_ENCODE_DELTA_CONV_WEIGHT: usize = 32;

pub const BITS_TO_ENCODE_DELTA_LOOKBACK_WINDOW_N_LOG: usize = 5;

pub const BITS_TO_ENCODE_DELTA_LOOKBACK_STATE_N_LOG: usize = 4;

pub const BITS_TO_ENCODE_FLAG: usize = 1;

// Bit places, each behind the field that it names.
pub const AFTER_VARIANT: usize = BITS_TO_ENCODE_DELTA_ENCODING_VARIANT;

pub const AFTER_ORDER: usize = AFTER_VARIANT + BITS_TO_ENCODE_DELTA_ENCODING_ORDER;

pub const AFTER_WINDOW: usize = AFTER_VARIANT + BITS_TO_ENCODE_DELTA_LOOKBACK_WINDOW_N_LOG;

pub const AFTER_STATE: usize = AFTER_WINDOW + BITS_TO_ENCODE_DELTA_LOOKBACK_STATE_N_LOG;

pub const AFTER_QUANTIZATION: usize = AFTER_VARIANT + BITS_TO_ENCODE_DELTA_CONV_QUANTIZATION;

pub const AFTER_BIAS: usize = AFTER_QUANTIZATION + BITS_TO_ENCODE_DELTA_CONV_BIAS;

pub const AFTER_N_WEIGHTS: usize = AFTER_BIAS + BITS_TO_ENCODE_DELTA_CONV_N_WEIGHTS;

// The log of the greatest number of entries of a chunk: no larger window could be used.
pub const MAX_DELTA_LOOKBACK_WINDOW_N_LOG: u32 = 24;

pub const MAX_CONV1_DELTA_ORDER: usize = 32;

// The greatest numbers that fit their fields.
pub const MAX_CONSECUTIVE_DELTA_ORDER: usize = 7;

pub const MAX_DELTA_LOOKBACK_STATE_N_LOG: u32 = 15;

pub const MAX_CONV1_DELTA_QUANTIZATION: u32 = 31;

// A window's log is stored less 1.
pub const MAX_WINDOW_N_LOG_FIELD: u32 = 32;

#[derive(Clone, Copy, Debug, PartialEq, Eq, Hash)]
pub enum DeltaEncoding {
    NoOp,
    Consecutive {
        order: Order,
        secondary_uses_delta: bool,
    },
    Lookback {
        window_n_log: u32,
        state_n_log: u32,
        secondary_uses_delta: bool,
    },
    Conv1 {
        quantization: Shift,
        bias: i64,
        order: Order,
    },
}

// Conv1's weights stand beside the encoding, in the first `order` places; for every other encoding none is used. They are no field of Conv1,
// since the theorems say of every encoding which of the 32 the format keeps.
#[derive(Clone, Copy, Debug, PartialEq, Eq, Hash)]
pub struct DeltaRecord {
    pub encoding: DeltaEncoding,
    pub weights: [i32; 32],
}

// A record that was read, and how many bits it took.
#[derive(Clone, Copy, Debug, PartialEq, Eq, Hash)]
pub struct Reading {
    pub delta: DeltaRecord,
    pub bits: usize,
}

// What stands for a reading where there is none and numbers are asked for: the empty record, and no bits.
impl Default for Reading {
    ghost is_default = { λ reading. reading ≡ nothing };

    fn default() -> Self {
        let delta = DeltaRecord {
            encoding: DeltaEncoding::NoOp,
            weights: [0i32; 32],
        };
        Reading { delta, bits: 0 }
    }
}

pub fn give(encoding: DeltaEncoding, weights: [i32; 32], bits: usize) -> Result<Reading, Refusal>
    ensures { result ≡ given encoding weights bits }
{
    let delta = DeltaRecord { encoding, weights };
    Ok(Reading { delta, bits })
}

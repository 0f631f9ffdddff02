// The delta record's reader. Each field is asked for at its bit place, so the first that is missing decides.
#![tactic(auto)]

ghost use Rattle.std.specs.Prelude.{true, false, ◌≡◌, ◌^◌, ◌≤◌, ◌<◌, IfOk, IfErr};
ghost use Rattle.bits.specs.Fields.{holds, field_at};
ghost use Rattle.record.specs.Reading.{read_consecutive, read_lookback, read_variant, read_order, read_record};
ghost use Rattle.record.specs.Widths.{variant_bits};

use crate::conv1::read_conv1;
use bits::reading::read_uint;
use kinds::{Order, Refusal};
use record::{
    AFTER_ORDER, AFTER_STATE, AFTER_VARIANT, AFTER_WINDOW, BITS_TO_ENCODE_DELTA_ENCODING_ORDER,
    BITS_TO_ENCODE_DELTA_ENCODING_VARIANT, BITS_TO_ENCODE_DELTA_LOOKBACK_STATE_N_LOG,
    BITS_TO_ENCODE_DELTA_LOOKBACK_WINDOW_N_LOG, BITS_TO_ENCODE_FLAG, DeltaEncoding,
    MAX_DELTA_LOOKBACK_WINDOW_N_LOG, Reading, give,
};

// The number in a field of at most 64 bits, where the bytes hold all of it.
fn read_field(bytes: &[u8], at: usize, width: usize) -> Result<u64, Refusal>
    requires { width ≤ 64 }
    ensures there { IfOk result (λ v. (holds bytes.now at width ≡ true) × (field_at bytes.now at width ≡ v) × (v < 2 ^ width)) }
    ensures missing { IfErr result (λ refusal. (holds bytes.now at width ≡ false) × (refusal ≡ Refusal.BytesEnd)) }
{
    read_uint(bytes, at, width).ok_or(Refusal::BytesEnd)
}

// The form without variants: an order alone, 0 for no encoding.
#[tactic(auto, unfolding(record::specs::Reading::reading, record::specs::Reading::read_order))]
fn read_from_pre_v3(bytes: &[u8]) -> Result<Reading, Refusal>
    ensures { result ≡ read_order bytes.now }
{
    let order = read_field(bytes, 0, BITS_TO_ENCODE_DELTA_ENCODING_ORDER)?;
    if order == 0 {
        return give(
            DeltaEncoding::NoOp,
            [0i32; 32],
            BITS_TO_ENCODE_DELTA_ENCODING_ORDER,
        );
    }
    let encoding = DeltaEncoding::Consecutive {
        order: Order(order as usize),
        secondary_uses_delta: false,
    };
    give(encoding, [0i32; 32], BITS_TO_ENCODE_DELTA_ENCODING_ORDER)
}

#[tactic(auto, unfolding(record::specs::Reading::reading, record::specs::Reading::read_consecutive))]
fn read_consecutive(bytes: &[u8]) -> Result<Reading, Refusal>
    ensures { result ≡ read_consecutive bytes.now variant_bits }
{
    let order = read_field(bytes, AFTER_VARIANT, BITS_TO_ENCODE_DELTA_ENCODING_ORDER)?;
    if order == 0 {
        return Err(Refusal::BadRecord);
    }
    let flag = read_field(bytes, AFTER_ORDER, BITS_TO_ENCODE_FLAG)?;
    let encoding = DeltaEncoding::Consecutive {
        order: Order(order as usize),
        secondary_uses_delta: flag == 1,
    };
    give(encoding, [0i32; 32], AFTER_ORDER + BITS_TO_ENCODE_FLAG)
}

#[tactic(auto, unfolding(record::specs::Reading::reading, record::specs::Reading::read_lookback))]
fn read_lookback(bytes: &[u8]) -> Result<Reading, Refusal>
    ensures { result ≡ read_lookback bytes.now variant_bits }
{
    let window = read_field(
        bytes,
        AFTER_VARIANT,
        BITS_TO_ENCODE_DELTA_LOOKBACK_WINDOW_N_LOG,
    )?;
    let state = read_field(
        bytes,
        AFTER_WINDOW,
        BITS_TO_ENCODE_DELTA_LOOKBACK_STATE_N_LOG,
    )?;
    let window_n_log = window as u32 + 1;
    let state_n_log = state as u32;
    if window_n_log > MAX_DELTA_LOOKBACK_WINDOW_N_LOG || state_n_log > window_n_log {
        return Err(Refusal::BadRecord);
    }
    let flag = read_field(bytes, AFTER_STATE, BITS_TO_ENCODE_FLAG)?;
    let encoding = DeltaEncoding::Lookback {
        window_n_log,
        state_n_log,
        secondary_uses_delta: flag == 1,
    };
    give(encoding, [0i32; 32], AFTER_STATE + BITS_TO_ENCODE_FLAG)
}

#[tactic(auto, unfolding(record::specs::Reading::reading, record::specs::Reading::read_variant))]
fn read_variant(bytes: &[u8]) -> Result<Reading, Refusal>
    ensures { result ≡ read_variant bytes.now }
{
    match read_field(bytes, 0, BITS_TO_ENCODE_DELTA_ENCODING_VARIANT)? {
        0 => give(DeltaEncoding::NoOp, [0i32; 32], AFTER_VARIANT),
        1 => read_consecutive(bytes),
        2 => read_lookback(bytes),
        3 => read_conv1(bytes),
        _ => Err(Refusal::UnknownVariant),
    }
}

// The record at the start of the bytes, and the bits it takes; `variants` is false for files that hold only an order.
#[tactic(auto, unfolding(record::specs::Reading::read_record))]
pub fn read_from(bytes: &[u8], variants: bool) -> Result<Reading, Refusal>
    ensures { result ≡ read_record bytes.now variants }
{
    if variants {
        read_variant(bytes)
    } else {
        read_from_pre_v3(bytes)
    }
}

pub mod conv1;

// What of a record can be written: the tests, of which the lowest number decides, and the record's size in bits.
ghost use Rattle.std.specs.Prelude.{false, not, ◌≡◌};
ghost use Rattle.record.specs.Format.{bits_of, logs_malformed};
ghost use Rattle.record.specs.Writing.{misordered, malformed, logs_unfit, unfit, writing_refusal};
ghost use Rattle.rule.specs.Refusals.{order_fits};

use kinds::{Order, Refusal};
use record::{
    AFTER_N_WEIGHTS, AFTER_ORDER, AFTER_STATE, AFTER_VARIANT, BITS_TO_ENCODE_DELTA_CONV_WEIGHT,
    BITS_TO_ENCODE_FLAG, DeltaEncoding, MAX_CONSECUTIVE_DELTA_ORDER, MAX_CONV1_DELTA_ORDER,
    MAX_CONV1_DELTA_QUANTIZATION, MAX_DELTA_LOOKBACK_STATE_N_LOG, MAX_DELTA_LOOKBACK_WINDOW_N_LOG,
    MAX_WINDOW_N_LOG_FIELD,
};

fn order_out_of_range(order: Order) -> bool
    ensures { result ≡ not (order_fits order.0) }
{
    order.0 == 0 || order.0 > MAX_CONV1_DELTA_ORDER
}

// Test 1, for Conv1 alone.
fn is_misordered(encoding: DeltaEncoding) -> bool
    ensures { result ≡ misordered encoding }
{
    matches!(encoding, DeltaEncoding::Conv1 { order, .. } if order_out_of_range(order))
}

fn logs_malformed(window_n_log: u32, state_n_log: u32) -> bool
    ensures { result ≡ logs_malformed window_n_log state_n_log }
{
    window_n_log > MAX_DELTA_LOOKBACK_WINDOW_N_LOG || state_n_log > window_n_log
}

// Test 9.
fn is_malformed(encoding: DeltaEncoding) -> bool
    ensures { result ≡ malformed encoding }
{
    match encoding {
        DeltaEncoding::Consecutive { order, .. } => order.0 == 0,
        DeltaEncoding::Lookback {
            window_n_log,
            state_n_log,
            ..
        } => logs_malformed(window_n_log, state_n_log),
        _ => false,
    }
}

// A window's log is stored less 1, so 0 does not fit.
fn logs_unfit(window_n_log: u32, state_n_log: u32) -> bool
    ensures { result ≡ logs_unfit window_n_log state_n_log }
{
    window_n_log == 0
        || window_n_log > MAX_WINDOW_N_LOG_FIELD
        || state_n_log > MAX_DELTA_LOOKBACK_STATE_N_LOG
}

// Test 10.
fn is_unfit(encoding: DeltaEncoding) -> bool
    ensures { result ≡ unfit encoding }
{
    match encoding {
        DeltaEncoding::NoOp => false,
        DeltaEncoding::Consecutive { order, .. } => order.0 > MAX_CONSECUTIVE_DELTA_ORDER,
        DeltaEncoding::Lookback {
            window_n_log,
            state_n_log,
            ..
        } => logs_unfit(window_n_log, state_n_log),
        DeltaEncoding::Conv1 { quantization, .. } => quantization.0 > MAX_CONV1_DELTA_QUANTIZATION,
    }
}

// How many bits a record takes.
#[tactic(auto, using(record::proofs::Put::weights_total))]
fn bit_size(encoding: DeltaEncoding) -> usize
    requires { misordered encoding ≡ false }
    ensures { result ≡ bits_of encoding }
{
    match encoding {
        DeltaEncoding::NoOp => AFTER_VARIANT,
        DeltaEncoding::Consecutive { .. } => AFTER_ORDER + BITS_TO_ENCODE_FLAG,
        DeltaEncoding::Lookback { .. } => AFTER_STATE + BITS_TO_ENCODE_FLAG,
        DeltaEncoding::Conv1 { order, .. } => {
            AFTER_N_WEIGHTS + BITS_TO_ENCODE_DELTA_CONV_WEIGHT * order.0
        }
    }
}

// The tests for a buffer of `room` bytes: the first that holds, in the order of their numbers.
#[tactic(auto, unfolding(record::specs::Writing::writing_refusal))]
pub fn refusal(encoding: DeltaEncoding, room: usize) -> Result<(), Refusal>
    ensures { result ≡ writing_refusal encoding room }
{
    if is_misordered(encoding) {
        return Err(Refusal::BadOrder);
    }
    if is_malformed(encoding) {
        return Err(Refusal::BadRecord);
    }
    if is_unfit(encoding) {
        return Err(Refusal::UnfitField);
    }
    if room < bit_size(encoding).div_ceil(8) {
        return Err(Refusal::NoRoom);
    }
    Ok(())
}

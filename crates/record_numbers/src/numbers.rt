// A delta record's encoding as plain numbers, and back. The fields of all variants stand side by side; what a variant does not have is 0
// where the numbers come from an encoding, and is not looked at where an encoding comes from them.
ghost use Rattle.std.specs.Prelude.{◌≡◌};
ghost use Rattle.record_numbers.specs.Numbers.{given, numbers_of, encoding_of, known_encoding};
ghost use Rattle.record_numbers.specs.Refusals.{conv1_refusal, tested_encoding};

use kinds::{Order, Refusal, Shift, WeightCount};
use record::DeltaEncoding;

// The variants' numbers are those of the record's first field: 0 nothing, 1 Consecutive, 2 Lookback, 3 Conv1.
pub const CONV1: u32 = 3;

// A record but for its weights.
#[derive(Clone, Copy, Debug, PartialEq, Eq, Hash)]
pub struct Numbers {
    pub variant: u32,
    pub order: Order,
    pub window_n_log: u32,
    pub state_n_log: u32,
    pub secondary_uses_delta: bool,
    pub quantization: Shift,
    pub bias: i64,
}

impl Numbers {
    pub fn new(
        variant: u32,
        order: Order,
        window_n_log: u32,
        state_n_log: u32,
        secondary_uses_delta: bool,
        quantization: Shift,
        bias: i64,
    ) -> Self
        ensures { result ≡ given variant order.0 window_n_log state_n_log secondary_uses_delta quantization.0 bias }
    {
        Self {
            variant,
            order,
            window_n_log,
            state_n_log,
            secondary_uses_delta,
            quantization,
            bias,
        }
    }
}

impl From<DeltaEncoding> for Numbers {
    ghost from_gives = { λ encoding numbers. numbers ≡ numbers_of encoding };

    fn from(encoding: DeltaEncoding) -> Self {
        match encoding {
            DeltaEncoding::NoOp => Numbers::new(0, Order(0), 0, 0, false, Shift(0), 0),
            DeltaEncoding::Consecutive {
                order,
                secondary_uses_delta,
            } => Numbers::new(1, order, 0, 0, secondary_uses_delta, Shift(0), 0),
            DeltaEncoding::Lookback {
                window_n_log,
                state_n_log,
                secondary_uses_delta,
            } => Numbers::new(
                2,
                Order(0),
                window_n_log,
                state_n_log,
                secondary_uses_delta,
                Shift(0),
                0,
            ),
            DeltaEncoding::Conv1 {
                quantization,
                bias,
                order,
            } => Numbers::new(CONV1, order, 0, 0, false, quantization, bias),
        }
    }
}

// The encoding of a variant that is 0 to 3; a greater one is taken for the last.
pub fn encoding_of(numbers: Numbers) -> DeltaEncoding
    ensures { result ≡ encoding_of numbers }
{
    match numbers.variant {
        0 => DeltaEncoding::NoOp,
        1 => DeltaEncoding::Consecutive {
            order: numbers.order,
            secondary_uses_delta: numbers.secondary_uses_delta,
        },
        2 => DeltaEncoding::Lookback {
            window_n_log: numbers.window_n_log,
            state_n_log: numbers.state_n_log,
            secondary_uses_delta: numbers.secondary_uses_delta,
        },
        _ => DeltaEncoding::Conv1 {
            quantization: numbers.quantization,
            bias: numbers.bias,
            order: numbers.order,
        },
    }
}

impl TryFrom<Numbers> for DeltaEncoding {
    type Error = Refusal;

    ghost try_from_gives = { λ numbers result. result ≡ known_encoding numbers };

    fn try_from(numbers: Numbers) -> Result<Self, Refusal> {
        if numbers.variant > CONV1 {
            return Err(Refusal::UnknownVariant);
        }
        Ok(encoding_of(numbers))
    }
}

// Tests 1 and 4 of Conv1.
fn conv1_answer(order: Order, weights: WeightCount) -> Result<(), Refusal>
    ensures { result ≡ conv1_refusal order.0 weights.0 }
{
    if !admission::limits::is_order(order) {
        return Err(Refusal::BadOrder);
    }
    if weights.0 != order.0 {
        return Err(Refusal::BadLength);
    }
    Ok(())
}

// The encoding that the numbers name, after the tests that come before there is a record.
#[tactic(auto, unfolding(crate::specs::Refusals::numbers_refusal))]
pub fn tested_encoding(numbers: Numbers, weights: WeightCount) -> Result<DeltaEncoding, Refusal>
    ensures { result ≡ tested_encoding numbers weights.0 }
{
    let encoding = DeltaEncoding::try_from(numbers)?;
    if let DeltaEncoding::Conv1 { order, .. } = encoding {
        conv1_answer(order, weights)?;
    }
    Ok(encoding)
}

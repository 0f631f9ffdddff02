// The kinds of number that must never stand for one another, and the refusals of every call.
#![tactic(auto)]

ghost use Rattle.std.specs.Prelude.{◌≡◌, Some};
ghost use Rattle.kinds.specs.Answers.{number_of, answer_number, refusal_text};

use std::error::Error;
use std::fmt;

// The width of a sample, in bits.
#[derive(Clone, Copy, Debug, PartialEq, Eq, Hash)]
pub enum Width {
    Eight,
    Sixteen,
    ThirtyTwo,
}

// How many samples a prediction looks back at, and so the number of weights: 1 to 32.
#[derive(Clone, Copy, Debug, PartialEq, Eq, Hash)]
pub struct Order(pub usize);

// By how many bits a sum is shifted down: 0 to A-1.
#[derive(Clone, Copy, Debug, PartialEq, Eq, Hash)]
pub struct Shift(pub u32);

// How many samples a list of them holds.
#[derive(Clone, Copy, Debug, PartialEq, Eq, Hash)]
pub struct SampleCount(pub usize);

// How many weights a list of them holds.
#[derive(Clone, Copy, Debug, PartialEq, Eq, Hash)]
pub struct WeightCount(pub usize);

// What a coding call is given. The weights, the oldest sample's first, are lent as numbers, or as their bytes.
#[derive(Clone, Copy)]
pub struct Configuration<'a, N = i32> {
    pub order: Order,
    pub shift: Shift,
    pub bias: i64,
    pub weights: &'a [N],
}

impl<N> Configuration<'_, N> {
    // The same with these weights.
    pub fn with<'b, M>(self, weights: &'b [M]) -> Configuration<'b, M>
        ensures order { result.order ≡ self.entry.order }
        ensures shift { result.shift ≡ self.entry.shift }
        ensures bias { result.bias ≡ self.entry.bias }
        ensures weights { result.weights.now ≡ weights.now }
    {
        Configuration {
            order: self.order,
            shift: self.shift,
            bias: self.bias,
            weights,
        }
    }
}

// Why a call refused and left everything as it was.
#[derive(Clone, Copy, Debug, PartialEq, Eq, Hash)]
pub enum Refusal {
    BadOrder,
    BadShift,
    Overflows,
    BadLength,
    TooFewSamples,
    NoConfiguration,
    BytesEnd,
    UnknownVariant,
    BadRecord,
    UnfitField,
    NoRoom,
}

impl Refusal {
    // The number in the refusal table.
    pub fn number(self) -> u32
        ensures { result ≡ number_of self }
    {
        match self {
            Refusal::BadOrder => 1,
            Refusal::BadShift => 2,
            Refusal::Overflows => 3,
            Refusal::BadLength => 4,
            Refusal::TooFewSamples => 5,
            Refusal::NoConfiguration => 6,
            Refusal::BytesEnd => 7,
            Refusal::UnknownVariant => 8,
            Refusal::BadRecord => 9,
            Refusal::UnfitField => 10,
            Refusal::NoRoom => 11,
        }
    }
}

impl fmt::Display for Refusal {
    ghost output = { λ refusal. Some (refusal_text refusal) };

    fn fmt<W: fmt::Write>(&self, f: &mut fmt::Formatter<W>) -> fmt::Result {
        write!(f, "refused {}", self.number())
    }
}

impl Error for Refusal {}

// What a call says in numbers: 0 where it did its work, and otherwise the refusal's.
pub fn number<T: Drop>(answer: Result<T, Refusal>) -> u32
    ensures { result ≡ answer_number answer }
{
    match answer {
        Ok(_) => 0,
        Err(refusal) => refusal.number(),
    }
}

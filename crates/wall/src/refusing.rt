// The one line that bad input gets: who refuses, the place, and what is wrong there.
use crate::reading::{Fault, Head, Wanted};
use admission::limits::{accumulator_bits, accumulator_limit, greatest_sample};
use kinds::{Order, Refusal, Shift};
use std::{fmt, io};

impl fmt::Display for Wanted {
    fn fmt<W: fmt::Write>(&self, f: &mut fmt::Formatter<W>) -> fmt::Result {
        let words = match self {
            Wanted::Sample(most) => {
                return write!(f, "a sample was expected, a whole number from 0 to {most}");
            }
            Wanted::Width => "a width was expected: 8, 16 or 32",
            Wanted::Order => "an order was expected, a whole number from 1 to 32",
            Wanted::Shift => "a shift was expected, a whole number below twice the width",
            Wanted::Bias => {
                "a bias was expected, a whole number from -9223372036854775808 to 9223372036854775807"
            }
            Wanted::Weight =>
                "a weight was expected, a whole number from -2147483648 to 2147483647",
            Wanted::EndOfTrace => "the end was expected: a trace has at most 4096 samples",
            Wanted::EndOfInput => "the end was expected: an input has at most 65536 bytes",
        };
        write!(f, "{words}")
    }
}

// A place of a text, by its number.
fn place(text: &[u8], at: usize) -> text::places::Place {
    text::places::place_after(&text[..at.min(text.len())])
}

// The text is no configuration and trace. No refusal has a number for that.
pub(crate) fn say_fault(rt: &impl Print, text: &[u8], fault: Fault) -> io::Result<()> {
    let place = place(text, fault.at);
    println!(rt; "refused (text): {place}: {}", fault.wanted)
}

// Where the n-th word of a text starts, from 0 on.
fn nth_start(text: &[u8], n: u32) -> usize {
    let mut at = 0;
    for _ in 0..n {
        at = text::next_word(text, at).end;
    }
    text::next_word(text, at).start
}

// The place that a refusal speaks of. After the width stand the order, the shift, the bias and the weights, which refusals 1 to 4
// speak of: the refusal's number is that of its word. Samples are missing at the end of the text.
fn place_of(text: &[u8], refusal: Refusal) -> usize {
    if refusal == Refusal::TooFewSamples {
        return text.len();
    }
    nth_start(&text[..text::places::line_length(text)], refusal.number())
}

// What a coder refused, and of how many samples.
#[derive(Clone, Copy, Debug, PartialEq, Eq, Hash)]
struct Refused {
    configuration: Head,
    samples: usize,
    refusal: Refusal,
}

impl fmt::Display for Refused {
    fn fmt<W: fmt::Write>(&self, f: &mut fmt::Formatter<W>) -> fmt::Result {
        let Head {
            width,
            order: Order(order),
            shift: Shift(shift),
            ..
        } = self.configuration;
        match self.refusal {
            Refusal::BadOrder => write!(f, "the order is {order}, and must be 1 to 32"),
            Refusal::BadShift => write!(
                f,
                "the shift is {shift}, and must be below {}",
                accumulator_bits(width)
            ),
            Refusal::Overflows => write!(
                f,
                "the absolute bias plus {} times the sum of the absolute weights must be at most {}",
                greatest_sample(width),
                accumulator_limit(width)
            ),
            Refusal::BadLength => write!(f, "the weights must number {order}, which is the order"),
            _ => write!(
                f,
                "the trace has {} samples, and must have at least {order}, which is the order",
                self.samples
            ),
        }
    }
}

// The coder's own answer.
pub(crate) fn say_refusal(
    rt: &impl Print,
    text: &[u8],
    configuration: Head,
    samples: usize,
    refusal: Refusal,
) -> io::Result<()> {
    let place = place(text, place_of(text, refusal));
    let refused = Refused {
        configuration,
        samples,
        refusal,
    };
    println!(rt; "{refusal}: {place}: {refused}")
}

// The configuration and the trace, read from the text.
ghost use Rattle.std.specs.Prelude.{◌≤◌, length, IfOk};

use kinds::{Order, Shift, Width};
use text::Word;
use text::signed::to_signed_64;

// What the text had to hold at a place where it holds something else.
#[derive(Clone, Copy, Debug, PartialEq, Eq, Hash)]
pub enum Wanted {
    Width,
    Order,
    Shift,
    Bias,
    Weight,
    // A sample, which is at most this number.
    Sample(u64),
    EndOfTrace,
    EndOfInput,
}

#[derive(Clone, Copy, Debug, PartialEq, Eq, Hash)]
pub struct Fault {
    pub wanted: Wanted,
    pub at: usize,
}

impl Wanted {
    fn at(self, word: Word) -> Fault {
        Fault {
            wanted: self,
            at: word.start,
        }
    }
}

// The first four numbers of the first line.
#[derive(Clone, Copy, Debug, PartialEq, Eq, Hash)]
pub struct Head {
    pub width: Width,
    pub order: Order,
    pub shift: Shift,
    pub bias: i64,
}

// What was read, with the number of weights and of samples. No heap is used, so the caller has the room for both.
#[derive(Clone, Copy, Debug, PartialEq, Eq, Hash)]
pub struct Given {
    pub configuration: Head,
    pub weights: usize,
    pub samples: usize,
}

// How many numbers were read, and the word before which reading stopped. It is empty where the text ends.
#[derive(Clone, Copy, Debug, PartialEq, Eq, Hash)]
struct Stop {
    count: usize,
    word: Word,
}

impl Stop {
    fn at_end(self, wanted: Wanted) -> Result<(), Fault> {
        let word = self.word;
        if word.start == word.end {
            return Ok(());
        }
        Err(wanted.at(word))
    }
}

// A word's number where it has no sign.
fn unsigned(word: Word) -> Option<u64> {
    if word.negative { None } else { word.found }
}

fn sample(word: Word, most: u64) -> Option<u64> {
    unsigned(word).filter(|n| *n <= most)
}

fn weight(word: Word) -> Option<i32> {
    i32::try_from(to_signed_64(word)?).ok()
}

fn width(word: Word) -> Option<Width> {
    match unsigned(word)? {
        8 => Some(Width::Eight),
        16 => Some(Width::Sixteen),
        32 => Some(Width::ThirtyTwo),
        _ => None,
    }
}

fn order(word: Word) -> Option<Order> {
    Some(Order(unsigned(word)? as usize))
}

fn shift(word: Word) -> Option<Shift> {
    Some(Shift(u32::try_from(unsigned(word)?).ok()?))
}

// The first four numbers of a line, and where the fourth ends.
fn read_head(line: &[u8]) -> Result<(Head, usize), Fault> {
    let first = text::next_word(line, 0);
    let width = width(first).ok_or(Wanted::Width.at(first))?;
    let second = text::next_word(line, first.end);
    let order = order(second).ok_or(Wanted::Order.at(second))?;
    let third = text::next_word(line, second.end);
    let shift = shift(third).ok_or(Wanted::Shift.at(third))?;
    let fourth = text::next_word(line, third.end);
    let bias = to_signed_64(fourth).ok_or(Wanted::Bias.at(fourth))?;
    let configuration = Head {
        width,
        order,
        shift,
        bias,
    };
    Ok((configuration, fourth.end))
}

// Puts the numbers from a place on into the front of a space, as many as there are and as it has room for.
fn read_numbers<T: Copy, F: Fn(Word) -> Option<T> + Drop>(
    text: &[u8],
    from: usize,
    space: &mut [T],
    number_of: F,
) -> Stop
    requires { F.IsAlwaysCallable number_of }
    ensures { result.count ≤ length space.new }
{
    let mut at = from;
    for (i, place) in space.iter_mut().enumerate() {
        let word = text::next_word(text, at);
        let Some(number) = number_of(word) else {
            return Stop { count: i, word };
        };
        *place = number;
        at = word.end;
    }
    Stop {
        count: space.len(),
        word: text::next_word(text, at),
    }
}

// An order is at most 32, so that with more weights than 32 every coder gives the same refusal, whatever they are and however many: room
// for one more than that is enough, and once it is full the rest of the line may hold anything.
pub(crate) fn read(text: &[u8], weights: &mut [i32], trace: &mut [u64]) -> Result<Given, Fault>
    ensures { IfOk result (λ given. (given.weights ≤ length weights.new) × (given.samples ≤ length trace.new)) }
{
    let line = &text[..text::places::line_length(text)];
    let (configuration, end) = read_head(line)?;
    let listed = read_numbers(line, end, weights, weight);
    if listed.count < weights.len() {
        listed.at_end(Wanted::Weight)?;
    }
    let most = admission::limits::greatest_sample(configuration.width);
    let samples = read_numbers(text, line.len(), trace, |word| sample(word, most));
    let wanted = if samples.count < trace.len() {
        Wanted::Sample(most)
    } else {
        Wanted::EndOfTrace
    };
    samples.at_end(wanted)?;
    Ok(Given {
        configuration,
        weights: listed.count,
        samples: samples.count,
    })
}

// Decimal numbers in text: the words between blanks, and the number that a word stands for.
#![tactic(auto)]

ghost use Rattle.std.specs.Prelude.{◌≡◌, ◌≤◌, length};
ghost use Rattle.text.specs.Words.{front, is_blank, is_negative, meaning, number, with_digit, word_from};

// A word of a text: it stands from `start` up to `end`, and is negative where it begins with a minus. `found` is the number that it holds,
// but for its sign, where it holds one below 2^64. Where the text has no more words, it is empty and stands where the text ends.
#[derive(Clone, Copy, Debug, PartialEq, Eq, Hash)]
pub struct Word {
    pub start: usize,
    pub end: usize,
    pub negative: bool,
    pub found: Option<u64>,
}

fn is_blank(byte: u8) -> bool
    ensures { result ≡ is_blank byte }
{
    matches!(byte, b'\t' | b'\n' | b'\r' | b' ')
}

// How many bytes at the front are blanks; or, where `blank` is false, are none.
#[tactic(auto, unfolding(crate::specs::Words::front))]
fn front(text: &[u8], blank: bool) -> usize
    ensures value { result ≡ front blank text.now }
    ensures within { result ≤ length text.now }
{
    text.iter()
        .take_while(|byte| is_blank(**byte) == blank)
        .count()
}

// The number with a digit after it.
fn with_digit(value: u64, byte: u8) -> Option<u64>
    ensures { result ≡ with_digit value byte }
{
    if !byte.is_ascii_digit() {
        return None;
    }
    value.checked_mul(10)?.checked_add(u64::from(byte - b'0'))
}

// The number of a row of digits.
#[tactic(auto, using(crate::proofs::Scans::number_step), unfolding(crate::specs::Words::number_after, crate::specs::Words::number))]
fn number(digits: &[u8]) -> Option<u64>
    ensures { result ≡ number digits.now }
{
    if digits.is_empty() {
        return None;
    }
    let mut value = 0;
    for byte in digits {
        value = with_digit(value, *byte)?;
    }
    Some(value)
}

fn is_negative(word: &[u8]) -> bool
    ensures { result ≡ is_negative word.now }
{
    matches!(word, [b'-', ..])
}

#[tactic(auto, unfolding(crate::specs::Words::meaning))]
fn meaning(word: &[u8]) -> Option<u64>
    ensures { result ≡ meaning word.now }
{
    match word {
        [b'-', digits @ ..] => number(digits),
        _ => number(word),
    }
}

// The first word from a place on.
#[tactic(auto, unfolding(crate::specs::Words::word_from))]
pub fn next_word(text: &[u8], from: usize) -> Word
    ensures { result ≡ word_from text.now from }
{
    if text.len() < from {
        return Word {
            start: from,
            end: from,
            negative: false,
            found: None,
        };
    }
    let start = from + front(&text[from..], true);
    let end = start + front(&text[start..], false);
    let word = &text[start..end];
    Word {
        start,
        end,
        negative: is_negative(word),
        found: meaning(word),
    }
}

pub mod input;
pub mod places;
pub mod signed;

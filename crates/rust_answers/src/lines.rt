// Lines of whole numbers in decimal.
use text::Word;
use text::signed::to_signed_64;

// The numbers of a line, by their 64 bits, in the first `count` places; the others are 0. There is no heap, so the room is fixed.
#[derive(Clone, Copy)]
pub struct Line {
    pub count: usize,
    pub numbers: [u64; 256],
}

// A word's number, where it is at least -2^63.
fn to_bits(word: Word) -> Option<u64> {
    if word.negative {
        return Some(to_signed_64(word)?.cast_unsigned());
    }
    word.found
}

// Nothing where a word is no number, or where there are numbers for every place.
pub(crate) fn read_line(words: &[u8]) -> Option<Line> {
    let mut numbers = [0; 256];
    let mut from = 0;
    for count in 0..256 {
        let word = text::next_word(words, from);
        if word.start == word.end {
            return Some(Line { count, numbers });
        }
        numbers[count] = to_bits(word)?;
        from = word.end;
    }
    None
}

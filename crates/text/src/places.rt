// Lines of a text, and the line and column of a place in it.
ghost use Rattle.std.specs.Prelude.{◌≡◌, ◌-◌, ◌≤◌, ◌<◌, ◌^◌, length, Some};
ghost use Rattle.text.specs.Places.{line_length, stepped, place_after, place_text};

use std::fmt;

// A place of a text, as people count it: both from 1, a column to a byte.
#[derive(Clone, Copy, Debug, PartialEq, Eq, Hash)]
pub struct Place {
    pub line: usize,
    pub column: usize,
}

impl fmt::Display for Place {
    ghost output = { λ place. Some (place_text place) };

    fn fmt<W: fmt::Write>(&self, f: &mut fmt::Formatter<W>) -> fmt::Result {
        write!(f, "line {}, column {}", self.line, self.column)
    }
}

// How long the first line is, without its line end.
#[tactic(auto, unfolding(crate::specs::Places::line_length))]
pub fn line_length(text: &[u8]) -> usize
    ensures { (result ≡ line_length text.now) × (result ≤ length text.now) }
{
    text.iter().take_while(|byte| **byte != b'\n').count()
}

// The place after one more byte.
fn step(place: Place, byte: u8) -> Place
    requires { (place.line < 2 ^ 64 - 1) × (place.column < 2 ^ 64 - 1) }
    ensures { result ≡ stepped place byte }
{
    if byte == b'\n' {
        return Place {
            line: place.line + 1,
            column: 1,
        };
    }
    Place {
        line: place.line,
        column: place.column + 1,
    }
}

// The place that follows a text, which starts at line 1, column 1.
#[tactic(auto, unfolding(crate::specs::Places::place_after))]
pub fn place_after(text: &[u8]) -> Place
    ensures { result ≡ place_after (record { line = 1; column = 1 }) text.now }
{
    let mut place = Place { line: 1, column: 1 };
    for byte in text {
        place = step(place, *byte);
    }
    place
}

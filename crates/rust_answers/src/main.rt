// Replays answers of the Rust that were kept, so that a check compares with it where there is no Rust. Standard input is the file that
// `harness/run sample > crates/rust_answers/stdin` wrote; harness/README.md says what a line has, under "The sample". Each case is run on
// the port, and the sum of the numbers that come back is held against that of the kept ones (sums.rt says why a sum is enough). For each
// kind of case a line says how many there were and how many differ, and where the first of those stands. A case whose numbers do not
// fit together differs too.
#![tactic(auto)]

ghost use Rattle.std.specs.Prelude.{◌<◌, length, IfSome};

use std::{fmt, io};
use text::places::line_length;

mod casts;
mod coder;
mod coding;
mod lines;
mod quantise;
mod records;
mod sums;

// The kinds of case, in the order of the file.
#[derive(Clone, Copy, Debug, PartialEq, Eq, Hash)]
enum Kind {
    Code,
    CodeRow,
    Read,
    Write,
    Quantise,
}

impl Kind {
    // What its lines begin with.
    fn number(self) -> u64 {
        match self {
            Kind::Code => 1,
            Kind::CodeRow => 2,
            Kind::Read => 3,
            Kind::Write => 4,
            Kind::Quantise => 5,
        }
    }

    // Whether a line's case of this kind is the same; nothing where the line has none.
    fn run(self, words: &[u8]) -> Option<bool> {
        let line = lines::read_line(words)?;
        if line.numbers[0] != self.number() {
            return None;
        }
        Some(match self {
            Kind::Code => coding::code(line),
            Kind::CodeRow => coding::code_row(line),
            Kind::Read => records::read(line),
            Kind::Write => records::write(line),
            Kind::Quantise => quantise::quantise(line),
        })
    }
}

impl fmt::Display for Kind {
    fn fmt<W: fmt::Write>(&self, f: &mut fmt::Formatter<W>) -> fmt::Result {
        let name = match self {
            Kind::Code => "code",
            Kind::CodeRow => "code a row",
            Kind::Read => "read",
            Kind::Write => "write",
            Kind::Quantise => "quantise",
        };
        write!(f, "{name}")
    }
}

// The cases of a kind so far. `first` is the line of the first that differs.
#[derive(Clone, Copy, Debug, PartialEq, Eq, Hash, Default)]
struct Tally {
    cases: u64,
    differ: u64,
    first: Option<u64>,
}

impl Tally {
    fn count(&mut self, same: bool, line: u64) {
        self.cases = self.cases.saturating_add(1);
        if !same {
            self.differ = self.differ.saturating_add(1);
            self.first = self.first.or(Some(line));
        }
    }
}

impl fmt::Display for Tally {
    fn fmt<W: fmt::Write>(&self, f: &mut fmt::Formatter<W>) -> fmt::Result {
        write!(f, "{} cases, {} differ", self.cases, self.differ)?;
        if let Some(line) = self.first {
            write!(f, ", the first on line {line}")?;
        }
        Ok(())
    }
}

// What is left of the text, and the number of its first line.
#[derive(Clone, Copy)]
struct Cursor<'a> {
    rest: &'a [u8],
    line: u64,
}

impl<'a> Cursor<'a> {
    // The first line and what follows it, where that line has an end.
    fn split(self) -> Option<(&'a [u8], Cursor<'a>)>
        ensures { IfSome result (λ r. length r.1.rest.now < length self.entry.rest.now) }
    {
        let end = line_length(self.rest);
        let after = Cursor {
            rest: self.rest.get(end + 1..)?,
            line: self.line.saturating_add(1),
        };
        Some((&self.rest[..end], after))
    }
}

// Runs the cases of one kind, up to the first line that is none of them, or that has no end.
fn section<'a>(rt: &impl Print, from: Cursor<'a>, kind: Kind) -> io::Result<Cursor<'a>> {
    let mut cursor = from;
    let mut tally = Tally::default();
    while let Some((words, after)) = cursor.split() {
        let Some(same) = kind.run(words) else {
            break;
        };
        tally.count(same, cursor.line);
        cursor = after;
    }
    println!(rt; "{kind}: {tally}")?;
    Ok(cursor)
}

fn replay(rt: &impl Print, words: &[u8]) -> io::Result<()> {
    let start = Cursor {
        rest: words,
        line: 1,
    };
    let coded = section(rt, start, Kind::Code)?;
    let summed = section(rt, coded, Kind::CodeRow)?;
    let read = section(rt, summed, Kind::Read)?;
    let written = section(rt, read, Kind::Write)?;
    let last = section(rt, written, Kind::Quantise)?;
    if last.rest.is_empty() {
        return println!(rt; "read to the end");
    }
    println!(rt; "STOPPED: no case in its place on line {}", last.line)
}

// A longer file is cut, so that its last line has no end, and the program says that it stopped there.
fn main(rt: HostRuntime) -> io::Result<()> {
    let mut space = [0; 131072];
    let n = text::input::read_full(&mut rt.reader(), &mut space)?;
    replay(&rt, &space[..n])
}

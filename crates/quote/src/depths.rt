// The depths of a region's rows, and how a line of text gives them.
ghost use Rattle.quote.specs.declared.depths.TheConstants.{MOST_ROWS};
ghost use Rattle.quote.specs.Lines.{DepthOrNone};
ghost use Rattle.std.specs.Prelude.{◌≡◌, ◌<◌, ◌≤◌, true, vec_len};
ghost use Rattle.tree.specs.Entries.{all_depths};

use std::alloc::{AllocFailed, Global};
use std::fmt;
use tree::paths::DEEPEST;

// The most rows that a region may have.
pub const MOST_ROWS: usize = 255;

// The depths of a region's rows, row 0 first.
#[derive(Drop)]
pub struct Depths {
    pub rows: Vec<u32>,
    ghost some: { 0 < vec_len rows },
    ghost few: { vec_len rows ≤ 255 },
    ghost each: { all_depths rows.items ≡ true },
}

// Why a line is no list of depths. Words are counted from 1.
#[derive(Drop)]
pub enum BadLine<'a> {
    NoDepth,
    NotADepth { at: usize, word: &'a str },
    TooMany { at: usize },
    NoMemory,
}

impl fmt::Display for BadLine<'_> {
    ghost use Rattle.quote.specs.Messages.{message};
    ghost use Rattle.std.specs.Prelude.{Some};

    ghost output = { λ bad. Some (message bad) };

    fn fmt<W: fmt::Write>(&self, f: &mut fmt::Formatter<W>) -> fmt::Result {
        match self {
            BadLine::NoDepth => f.write_str("word 1: there is no depth"),
            BadLine::NotADepth { at, word } => {
                write!(f, "word {at}: '{word}' is not a depth from 1 to {DEEPEST}")
            }
            BadLine::TooMany { at } => {
                write!(f, "word {at}: a region has at most {MOST_ROWS} rows")
            }
            BadLine::NoMemory => f.write_str("out of memory"),
        }
    }
}

impl<T: Drop> From<AllocFailed<T>> for BadLine<'_> {
    ghost use Rattle.quote.specs.declared.depths.BadLine.TheVariants.{NoMemory};
    ghost use Rattle.std.specs.Prelude.{◌≡◌};

    ghost from_gives = { λ _ bad. bad ≡ NoMemory };

    fn from(_refused: AllocFailed<T>) -> Self {
        Self::NoMemory
    }
}

// A depth from 1 to 12 in decimal digits.
fn read_depth(word: &str) -> Option<u32>
    ensures { DepthOrNone result }
{
    match word.parse::<u32>() {
        Ok(depth) if depth != 0 && depth <= DEEPEST => Some(depth),
        _ => None,
    }
}

// The depths of a line, row 0 first, or its first wrong word.
#[tactic(auto, using(tree::proofs::Counts::depths_push))]
pub fn read_depths<'a>(heap: Global, line: &'a str) -> Result<Depths, BadLine<'a>> {
    let mut rows = Vec::new(heap);
    for word in line.split_whitespace() {
        let at = rows.len() + 1;
        if at > MOST_ROWS {
            return Err(BadLine::TooMany { at });
        }
        let Some(depth) = read_depth(word) else {
            return Err(BadLine::NotADepth { at, word });
        };
        rows.push(depth)?;
    }
    if rows.is_empty() {
        return Err(BadLine::NoDepth);
    }
    Ok(Depths { rows })
}

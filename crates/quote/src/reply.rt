// What is printed for a line of input: the quote for its depths, or what is wrong with it.
ghost use Rattle.quote.specs.Replies.{NotOfMemory};
ghost use Rattle.std.specs.Prelude.{IfOk};

use crate::depths::{BadLine, Depths, read_depths};
use std::alloc::{AllocError, Global};
use std::fmt;

#[derive(Drop)]
pub enum Reply<'a> {
    Quote(Depths),
    NoQuote(BadLine<'a>),
}

impl fmt::Display for Reply<'_> {
    ghost use Rattle.quote.specs.Replies.{reply_text};
    ghost use Rattle.std.specs.Prelude.{Some};

    ghost output = { λ reply. Some (reply_text reply) };

    fn fmt<W: fmt::Write>(&self, f: &mut fmt::Formatter<W>) -> fmt::Result {
        match self {
            Reply::Quote(depths) => write!(f, "{depths}"),
            Reply::NoQuote(bad) => writeln!(f, "{bad}"),
        }
    }
}

// Want of memory is no reply: it ends the program with that error.
pub fn answer<'a>(heap: Global, line: &'a str) -> Result<Reply<'a>, AllocError>
    ensures { IfOk result NotOfMemory }
{
    match read_depths(heap, line) {
        Ok(depths) => Ok(Reply::Quote(depths)),
        Err(BadLine::NoMemory) => Err(AllocError),
        Err(bad) => Ok(Reply::NoQuote(bad)),
    }
}

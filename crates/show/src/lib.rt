// Printing for the programs examples, solves and refusals_*: bytes in hex, how a solve ended, and the calls with what they are lent. Answers and
// places print themselves, by Display. Stands on walk and verdict.
#![tactic(auto)]

use course::Counts;
use std::{fmt, io};
use verdict::Refusal;
use walk::Ending;

pub mod call;

// Bytes in hex, with a space before each.
#[derive(Clone, Copy, Debug)]
pub struct Hex<'a>(pub &'a [u8]);

impl<'a> fmt::Display for Hex<'a> {
    fn fmt<W: fmt::Write>(&self, f: &mut fmt::Formatter<W>) -> fmt::Result {
        for x in self.0 {
            write!(f, " {x:02x}")?;
        }
        Ok(())
    }
}

// A lent buffer: its length and its bytes.
#[derive(Clone, Copy, Debug)]
pub struct Buffer<'a>(pub &'a [u8]);

impl<'a> fmt::Display for Buffer<'a> {
    fn fmt<W: fmt::Write>(&self, f: &mut fmt::Formatter<W>) -> fmt::Result {
        write!(f, "{}:{}; ", self.0.len(), Hex(self.0))
    }
}

// How a solve ended, without its counts.
#[derive(Clone, Copy, Debug, PartialEq, Eq)]
pub enum Outcome {
    Solved,
    Stopped(u64),
}

impl From<Ending> for Outcome {
    fn from(e: Ending) -> Outcome {
        match e {
            Ending::Solved(_) => Outcome::Solved,
            Ending::Stopped(j, _) => Outcome::Stopped(j),
        }
    }
}

impl fmt::Display for Outcome {
    fn fmt<W: fmt::Write>(&self, f: &mut fmt::Formatter<W>) -> fmt::Result {
        match self {
            Outcome::Solved => write!(f, "solved"),
            Outcome::Stopped(j) => write!(f, "stopped {j}"),
        }
    }
}

// The counts of a solve, solved or stopped.
pub fn taken(e: Ending) -> Counts {
    match e {
        Ending::Solved(c) | Ending::Stopped(_, c) => c,
    }
}

// An answer: what a call gives, or its refusal.
pub fn say<T: fmt::Display>(out: &impl Print, a: &Result<T, Refusal>) -> io::Result<()> {
    match a {
        Ok(x) => print!(out; "{x}"),
        Err(r) => print!(out; "{r}"),
    }
}

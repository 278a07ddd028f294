// The lines in which the programs refusals_* print a call, with its answer and what was lent before and after, and the small systems that
// they lend.
use super::Buffer;
use course::Order;
use std::io;

// The system [2]x = [3] over F16 in two shares, and a mask tape for it, one byte longer than a full solve needs.
pub const TABLE: [u8; 4] = [4, 6, 10, 9];

pub const MASK: [u8; 13] = [204, 230, 90, 243, 154, 246, 41, 186, 251, 242, 124, 32, 49];

// [0]x = [3], likewise.
pub const ZERO_PIVOT: [u8; 4] = [2, 2, 15, 12];

// What two places to be written hold before a call.
pub const BLANK: [u8; 2] = [238, 238];

pub const LARGEST: u64 = u64::MAX;

pub fn order(field: u64, shares: u64, size: u64) -> Order {
    Order {
        field,
        shares,
        size,
    }
}

// Copies as much as both hold: a call is lent a copy, so that it can be held against what was there.
// stays: as much as both hold, where copy_from_slice asks for one length.
pub fn copy(from: &[u8], to: &mut [u8]) {
    for (x, y) in from.iter().zip(to) {
        *y = *x;
    }
}

// The call in words, and the start of the line of what is lent.
pub fn begin(out: &impl Print, call: &str, words: &str) -> io::Result<()> {
    print!(out; "{call}: {words}\n  lent: ")
}

// What solve and step are lent, besides the order or the record.
pub fn lent(
    out: &impl Print,
    table: &[u8],
    solution: &[u8],
    mask: &[u8],
    nonzero: &[u8],
) -> io::Result<()> {
    print!(out; "table {}solution {}", Buffer(table), Buffer(solution))?;
    print!(out; "mask {}nonzero {}", Buffer(mask), Buffer(nonzero))
}

// The end of that line, where it ends with the order.
pub fn of_order(out: &impl Print, o: Order) -> io::Result<()> {
    print!(out; "{o}")?;
    middle(out)
}

pub fn middle(out: &impl Print) -> io::Result<()> {
    print!(out; "\n  answer: ")
}

pub fn after(out: &impl Print) -> io::Result<()> {
    print!(out; "\n  after: ")
}

// stays: the bool is a comparison's outcome, and chooses a word.
pub fn end(out: &impl Print, same: bool) -> io::Result<()> {
    let words = if same { "unchanged" } else { "changed" };
    print!(out; "{words}\n")
}

pub fn too_long(out: &impl Print) -> io::Result<()> {
    print!(out; "too long for this program\n")
}

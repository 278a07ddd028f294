// The line that desk prints, made from the bytes that it read, and how desk reads and prints. Stands on solver, for the counts, and on io, for
// the digits.
#![tactic(auto)]

ghost use Rattle.std.specs.Prelude.{[], ◌∷◌, ◌++◌, ◌≡◌, ◌+◌, ◌≤◌, length, IfOk, OnOk, IfSome};
ghost use Rattle.std.specs.Io.KnownBytes.{Appends};
ghost use Rattle.io.specs.Counts.{IsPrefixLen};
ghost use Rattle.verdict.specs.Refusals.{paper};
ghost use Rattle.desk_line.specs.Text.{decimal};
ghost use Rattle.desk_line.specs.Line.{refused_line, counts_line, desk_line, Wrote, Made, ReadFront};

use course::Counts;
use std::io::{Read, Write};
use verdict::Refusal;

// Puts a text at a place of out, and answers the place behind it.
// stays: (d) that place is all that the next text needs: a cursor would carry it and the buffer, and say the same of both
fn append(text: &[u8], out: &mut [u8], at: usize) -> usize
    requires { at + length text.now ≤ length out.old }
    ensures { Wrote out.old at text.now out.new result }
{
    let end = at + text.len();
    out[at..end].copy_from_slice(text);
    end
}

// Puts a number in decimal and one byte behind it, as append does. A number has at most 20 digits.
fn number(n: usize, end: u8, out: &mut [u8], at: usize) -> usize
    requires { at + 21 ≤ length out.old }
    ensures wrote { Wrote out.old at (decimal n ++ (end ∷ [])) out.new result }
    ensures upper_bound { result ≤ at + 21 }
{
    let mut digits = [0u8; 20];
    let k = io::decimal(n as u64, &mut digits);
    let p = append(&digits[..k], out, at);
    out[p] = end;
    p + 1
}

// 01's number of a refusal.
fn number_of(r: Refusal) -> usize
    ensures { result ≡ (paper r).number }
{
    r.report().number as usize
}

// The line of a refusal.
// stays: a number: 13 is desk's own and of no Refusal, and `refused_line` (specs/Line.antt) takes numbers.
fn refused(k: usize, out: &mut [u8]) -> usize
    requires { 64 ≤ length out.old }
    ensures { Made out.old (refused_line k) out.new result }
{
    let at = append(b"refused ", out, 0);
    number(k, b'\n', out, at)
}

// The line of the counts.
fn counted(c: Counts, out: &mut [u8]) -> usize
    requires { 64 ≤ length out.old }
    ensures { Made out.old (counts_line c) out.new result }
{
    let a = number(c.steps, b' ', out, 0);
    let b = number(c.mask, b' ', out, a);
    number(c.nonzero, b'\n', out, b)
}

// Makes the line of an input at the front of out, leaves the rest of out as it was, and answers the line's length. The first promise fixes
// the answer and every byte of out; the second follows from it, and lets a caller lend the line with no proof of its own.
// stays: (a) the buffer and the line's length come apart, as `Made` and the theorem made_once (docs/PROMISES.md) have them
pub fn line(input: &[u8], out: &mut [u8; 64]) -> usize
    ensures made { Made out.old (desk_line input.now) out.new result }
    ensures counts_within { IsPrefixLen result out.new }
{
    if input.len() != 4 {
        return refused(13, out);
    }
    let field = u64::from(input[0]) * 256 + u64::from(input[1]);
    match solver::counts(field, u64::from(input[2]), u64::from(input[3])) {
        Ok(c) => counted(c, out),
        Err(r) => refused(number_of(r), out),
    }
}

// Reads until input is full or the reader has come to its end, and answers how many bytes it put at the front of input.
fn read_front<R: Read>(from: &mut R, input: &mut [u8]) -> std::io::Result<usize>
    ensures { IfOk result (λ n. ReadFront (R.remaining from.old) (R.remaining from.new) input.new n) }
{
    let mut n = 0;
    // stays: (d) a turn goes on by as many bytes as the reader gave, which no range or chunk counts
    while n < input.len() {
        let more = from.read(&mut input[n..])?;
        if more == 0 {
            break;
        }
        n += more;
    }
    Ok(n)
}

// All that desk does: reads an order from a reader and prints its line to a writer. Where the bytes of both are known, as in memory, the writer has
// the line of all that the reader had. What a file or a terminal gives or takes no contract can say, so desk_run runs this function on prepared
// orders.
pub fn serve<R: Read, W: Write>(from: &mut R, to: &mut W) -> std::io::Result<()>
    ensures { OnOk result (IfSome (R.remaining from.old) (λ input. Appends (W.contents to.old) (W.contents to.new) (desk_line input))) }
{
    // a fifth byte is tried for, so that input longer than four bytes is told from four
    let mut input = [0u8; 5];
    let n = read_front(from, &mut input)?;
    let mut out = [0u8; 64];
    let k = line(&input[..n], &mut out);
    to.write_all(&out[..k])
}

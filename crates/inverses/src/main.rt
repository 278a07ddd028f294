// The program inverses: prints the inverse of every element of either field, and solves R-4's system. Stands on field and solver, and on show
// to print. Its file stdout has F256's inverses from the table that the code held before R-4, and of the system the figures that R-4's issue
// gives.
#![tactic(auto)]

use show::{Hex, Outcome};
use std::io;
use verdict::Refusal;
use walk::Ending;

// The system's tapes: 3 and on in steps of 5, and 7 and on in steps of 9, modulo 256.
const DRAWS: [u8; 6] = *b"\x03\x08\x0d\x12\x17\x1c";

const MASK: [u8; 42] =
    *b"\x07\x10\x19\x22\x2b\x34\x3d\x46\x4f\x58\x61\x6a\x73\x7c\x85\x8e\x97\xa0\xa9\xb2\xbb\xc4\xcd\xd6\xdf\xe8\xf1\xfa\x03\x0c\x15\x1e\x27\x30\x39\x42\x4b\x54\x5d\x66\x6f\x78";

// Sixteen inverses, from that of a on.
fn line(out: &impl Print, f: u64, a: u8) -> io::Result<()> {
    print!(out; " ")?;
    for i in 0u8..16 {
        print!(out; "{}", Hex(&[field::inverse(f, a.wrapping_add(i))]))?;
    }
    print!(out; "\n")
}

fn inverses(out: &impl Print, f: u64, lines: u8) -> io::Result<()> {
    print!(out; "inverses of F{f}, from that of 0 on\n")?;
    for i in 0..lines {
        line(out, f, i.wrapping_mul(16))?;
    }
    Ok(())
}

fn solved(table: &mut [u8], x: &mut [u8]) -> Result<Ending, Refusal> {
    solver::deal(256, 2, 2, b"\x57\x83\x01\x02\x03\x04", table, &DRAWS)?;
    solver::solve(256, 2, 2, table, x, &MASK, &[3, 6])
}

fn system(out: &impl Print) -> io::Result<()> {
    let mut table = [0u8; 12];
    let mut x = [0xeeu8; 2];
    let a = solved(&mut table, &mut x);
    print!(out; "R-4's system: ")?;
    show::say(out, &a.map(Outcome::from))?;
    print!(out; ": ")?;
    show::say(out, &a.map(show::taken))?;
    print!(out; "\n  table{}\n  solution{}\n", Hex(&table), Hex(&x))
}

fn main(rt: HostRuntime) -> io::Result<()> {
    inverses(&rt, 16, 1)?;
    inverses(&rt, 256, 16)?;
    system(&rt)
}

// The program examples: runs 01's examples and those of FIPS 197 through the public calls, compares, and prints a line for each. R-6 overrules
// 01's mask draws at three and four shares, 35 and 3,778,608: they are 37 and 3,820,512 here. R-7 overrules 01's steps of full solves of two and of
// 96 equations, 8 and 9,408: they are 9 and 9,503 here.
// Stands on solver, and on show to print. Bytes are printed in hex, other numbers in decimal.
#![tactic(auto)]

use course::Counts;
use show::{Hex, Outcome};
use std::fmt::Display;
use std::io;
use verdict::Refusal;
use walk::Ending;

// How many examples ran, and how many of them differed.
#[derive(Clone, Copy)]
struct Tally {
    run: u64,
    differ: u64,
}

// Nonzero draws, of either field.
const NONZERO: [u8; 6] = [0xba, 0x9f, 0x16, 0x53, 0xc1, 0x8d];

// Mask draws: the examples hold for any, so these are 7 and on in steps of 109, modulo 256.
fn fill(tape: &mut [u8]) {
    let mut x = 7u8;
    for byte in tape {
        *byte = x;
        x = x.wrapping_add(109);
    }
}

// Ends an example's line, and counts it.
fn end(out: &impl Print, t: Tally, good: bool) -> io::Result<Tally> {
    let run = t.run.saturating_add(1);
    if good {
        print!(out; "; ok\n")?;
        Ok(Tally { run, ..t })
    } else {
        print!(out; "; DIFFERS\n")?;
        let differ = t.differ.saturating_add(1);
        Ok(Tally { run, differ })
    }
}

// An example whose outcome is an answer.
fn compare<T: Copy + PartialEq + Display>(
    out: &impl Print,
    t: Tally,
    name: &str,
    want: Result<T, Refusal>,
    came: Result<T, Refusal>,
) -> io::Result<Tally> {
    print!(out; "{name}: wanted ")?;
    show::say(out, &want)?;
    print!(out; "; came ")?;
    show::say(out, &came)?;
    end(out, t, want == came)
}

// The rest of an example whose outcome is an answer and bytes, which begin y.
fn compare_bytes<T: Copy + PartialEq + Display>(
    out: &impl Print,
    t: Tally,
    want: Result<T, Refusal>,
    x: &[u8],
    came: Result<T, Refusal>,
    y: &[u8],
) -> io::Result<Tally> {
    let Some(y) = y.get(..x.len()) else {
        return end(out, t, false);
    };
    print!(out; ": wanted ")?;
    show::say(out, &want)?;
    print!(out; " with{}; came ", Hex(x))?;
    show::say(out, &came)?;
    print!(out; " with{}", Hex(y))?;
    end(out, t, want == came && x == y)
}

// Deals the values, and solves: the first 18 draws are for deal, the others for solve.
fn run(
    field: u64,
    shares: u64,
    values: &[u8],
    table: &mut [u8],
    x: &mut [u8],
) -> Result<Ending, Refusal> {
    let size = x.len() as u64;
    let mut tape = [0u8; 256];
    fill(&mut tape);
    solver::deal(field, shares, size, values, table, &tape[0..18])?;
    solver::solve(field, shares, size, table, x, &tape[18..], &NONZERO)
}

// The bytes of a table of one equation or of two.
fn table_bytes(size: usize, shares: u64) -> usize {
    if 4 < shares {
        return 0;
    }
    let n = shares as usize;
    if size == 1 { 2 * n } else { 6 * n }
}

// Deals and solves a system of one equation or of two, whose solution begins x.
fn tried(
    field: u64,
    shares: u64,
    size: usize,
    values: &[u8],
    x: &mut [u8],
) -> Result<Ending, Refusal> {
    let mut table = [0u8; 24];
    let k = table_bytes(size, shares);
    if 24 < k || x.len() < size {
        return Err(Refusal::Input(k));
    }
    run(field, shares, values, &mut table[0..k], &mut x[0..size])
}

// A system with the answer and the solution that are wanted; where it stops, the solution becomes 0.
fn system(
    out: &impl Print,
    t: Tally,
    name: &str,
    field: u64,
    shares: u64,
    values: &[u8],
    want: Result<Outcome, Refusal>,
    x: &[u8],
) -> io::Result<Tally> {
    let mut y = [0xeeu8; 2];
    let a = tried(field, shares, x.len(), values, &mut y);
    print!(out; "{name}")?;
    print!(out; ", n={shares}")?;
    compare_bytes(out, t, want, x, a.map(Outcome::from), &y)
}

// Solved with x, or stopped at a column.
fn solved() -> Result<Outcome, Refusal> {
    Ok(Outcome::Solved)
}

fn stopped(j: u64) -> Result<Outcome, Refusal> {
    Ok(Outcome::Stopped(j))
}

fn counts(steps: usize, mask: usize, nonzero: usize) -> Result<Counts, Refusal> {
    Ok(Counts {
        steps,
        mask,
        nonzero,
    })
}

// A product a*x = b, as the system [a]x = [b].
fn product(
    out: &impl Print,
    t: Tally,
    name: &str,
    field: u64,
    a: u8,
    x: u8,
    b: u8,
) -> io::Result<Tally> {
    system(out, t, name, field, 2, &[a, b], solved(), &[x])
}

fn products(out: &impl Print, t: Tally) -> io::Result<Tally> {
    let t = product(out, t, "6*7=1 as [6]x=[1]", 16, 6, 7, 1)?;
    let t = product(out, t, "F256 57*83=c1 as [57]x=[c1]", 256, 0x57, 0x83, 0xc1)?;
    let t = product(out, t, "F256 57*13=fe as [57]x=[fe]", 256, 0x57, 0x13, 0xfe)?;
    let t = product(out, t, "F256 57*02=ae as [57]x=[ae]", 256, 0x57, 0x02, 0xae)?;
    let t = product(out, t, "F256 57*04=47 as [57]x=[47]", 256, 0x57, 0x04, 0x47)?;
    let t = product(out, t, "F256 57*08=8e as [57]x=[8e]", 256, 0x57, 0x08, 0x8e)?;
    product(out, t, "F256 57*10=07 as [57]x=[07]", 256, 0x57, 0x10, 0x07)
}

// FIPS 197's sum, as the value of a sharing.
fn sum(out: &impl Print, t: Tally) -> io::Result<Tally> {
    let mut values = [0xeeu8; 2];
    let f = solver::gather(256, 2, 1, &[0x57, 0x83, 0x01, 0x02], &mut values);
    print!(out; "F256 57+83=d4 (and 01+02=03) as a gather, n=2")?;
    let came = f.map(|_| "filled");
    compare_bytes(out, t, Ok("filled"), &[0xd4, 0x03], came, &values)
}

fn systems(out: &impl Print, t: Tally, n: u64) -> io::Result<Tally> {
    let t = system(out, t, "[2]x=[3]", 16, n, &[2, 3], solved(), &[8])?;
    let t = system(out, t, "[0]x=[0]", 16, n, &[0, 0], stopped(1), &[0])?;
    let t = system(out, t, "[0]x=[3]", 16, n, &[0, 3], stopped(1), &[0])?;
    let name = "rows (0,1),(1,0), b=(5,7)";
    let t = system(out, t, name, 16, n, &[0, 1, 5, 1, 0, 7], solved(), &[7, 5])?;
    let name = "rows (1,2),(2,4), b=(1,2)";
    let t = system(
        out,
        t,
        name,
        16,
        n,
        &[1, 2, 1, 2, 4, 2],
        stopped(2),
        &[0, 0],
    )?;
    let name = "rows (0,1),(0,3), b=(1,2)";
    let t = system(
        out,
        t,
        name,
        16,
        n,
        &[0, 1, 1, 0, 3, 2],
        stopped(1),
        &[0, 0],
    )?;
    let name = "rows (2,1),(1,1), b=(1,0)";
    system(
        out,
        t,
        name,
        16,
        n,
        &[2, 1, 1, 1, 1, 0],
        solved(),
        &[14, 14],
    )
}

// The counts that a run reports.
fn counted_run(
    out: &impl Print,
    t: Tally,
    name: &str,
    field: u64,
    shares: u64,
    size: usize,
    values: &[u8],
    want: Result<Counts, Refusal>,
) -> io::Result<Tally> {
    let mut x = [0xeeu8; 2];
    let a = tried(field, shares, size, values, &mut x);
    compare(out, t, name, want, a.map(show::taken))
}

// The counts that the call counts gives.
fn counted(
    out: &impl Print,
    t: Tally,
    name: &str,
    field: u64,
    shares: u64,
    size: u64,
    want: Result<Counts, Refusal>,
) -> io::Result<Tally> {
    compare(out, t, name, want, solver::counts(field, shares, size))
}

fn counts_of_runs(out: &impl Print, t: Tally) -> io::Result<Tally> {
    let name = "counts of a run, n=2 m=1";
    let t = counted_run(out, t, name, 16, 2, 1, &[2, 3], counts(3, 12, 1))?;
    let v = [2, 1, 1, 1, 1, 0];
    let t = counted_run(
        out,
        t,
        "counts of a run, n=2 m=2",
        16,
        2,
        2,
        &v,
        counts(9, 36, 2),
    )?;
    let name = "counts of a run, n=2 m=2, stopped at 2";
    let t = counted_run(
        out,
        t,
        name,
        16,
        2,
        2,
        &[1, 2, 1, 2, 4, 2],
        counts(5, 28, 1),
    )?;
    let name = "counts of a run, n=2 m=2, stopped at 1";
    let t = counted_run(
        out,
        t,
        name,
        16,
        2,
        2,
        &[0, 1, 1, 0, 3, 2],
        counts(2, 12, 0),
    )?;
    let name = "counts of a run, n=3 m=1";
    let t = counted_run(out, t, name, 16, 3, 1, &[2, 3], counts(3, 37, 2))?;
    let name = "counts of a run, F256 n=2 m=1";
    counted_run(out, t, name, 256, 2, 1, &[2, 3], counts(3, 14, 1))
}

// Those of R-6, which moves the flag's draws at three and four shares.
fn counts_by_pairs(out: &impl Print, t: Tally) -> io::Result<Tally> {
    let name = "counts of a run, n=3 m=2";
    let t = counted_run(
        out,
        t,
        name,
        16,
        3,
        2,
        &[2, 1, 1, 1, 1, 0],
        counts(9, 110, 4),
    )?;
    let name = "counts of a run, n=3 m=2, stopped at 1";
    let t = counted_run(
        out,
        t,
        name,
        16,
        3,
        2,
        &[0, 1, 1, 0, 3, 2],
        counts(2, 36, 0),
    )?;
    let name = "counts of a run, n=3 m=2, stopped at 2";
    let t = counted_run(
        out,
        t,
        name,
        16,
        3,
        2,
        &[1, 2, 1, 2, 4, 2],
        counts(5, 85, 2),
    )?;
    let name = "counts of a run, F256 n=3 m=1";
    let t = counted_run(out, t, name, 256, 3, 1, &[2, 3], counts(3, 43, 2))?;
    let name = "counts of a run, n=4 m=1";
    let t = counted_run(out, t, name, 16, 4, 1, &[2, 3], counts(3, 75, 3))?;
    let name = "counts of a run, F256 n=4 m=1";
    counted_run(out, t, name, 256, 4, 1, &[2, 3], counts(3, 87, 3))
}

fn counts_of_orders(out: &impl Print, t: Tally) -> io::Result<Tally> {
    let t = counted(
        out,
        t,
        "counts of an order, n=2 m=1",
        16,
        2,
        1,
        counts(3, 12, 1),
    )?;
    let t = counted(
        out,
        t,
        "counts of an order, n=2 m=2",
        16,
        2,
        2,
        counts(9, 36, 2),
    )?;
    let t = counted(
        out,
        t,
        "counts of an order, n=3 m=1",
        16,
        3,
        1,
        counts(3, 37, 2),
    )?;
    let name = "counts of an order, F256 n=2 m=1";
    let t = counted(out, t, name, 256, 2, 1, counts(3, 14, 1))?;
    let name = "counts of an order, F256 n=4 m=96";
    counted(out, t, name, 256, 4, 96, counts(9503, 3820512, 288))
}

// A refused order.
fn refused(
    out: &impl Print,
    t: Tally,
    name: &str,
    field: u64,
    shares: u64,
    size: u64,
    want: Refusal,
) -> io::Result<Tally> {
    let came = solver::start(field, shares, size).map(|_| "fresh");
    compare(out, t, name, Err(want), came)
}

fn edges_of_sizes(out: &impl Print, t: Tally) -> io::Result<Tally> {
    let t = refused(out, t, "shares 1", 16, 1, 1, Refusal::Shares(1))?;
    let t = refused(out, t, "shares 5", 16, 5, 1, Refusal::Shares(5))?;
    let t = refused(out, t, "size 97", 16, 2, 97, Refusal::Size(97))?;
    let name = "field 7 and shares 0";
    refused(out, t, name, 7, 0, 1, Refusal::Field(7))
}

// [2]x=[3] in two shares, solved with a mask tape.
fn masked(
    out: &impl Print,
    t: Tally,
    name: &str,
    mask: &[u8],
    want: Result<Outcome, Refusal>,
) -> io::Result<Tally> {
    let mut table = [4u8, 6, 10, 9];
    let mut x = [0xeeu8; 1];
    let a = solver::solve(16, 2, 1, &mut table, &mut x, mask, &[0xba]);
    compare(out, t, name, want, a.map(Outcome::from))
}

fn edges_of_tapes(out: &impl Print, t: Tally) -> io::Result<Tally> {
    let mut tape = [0u8; 13];
    fill(&mut tape);
    let t = masked(
        out,
        t,
        "m=1 n=2 with 11 mask bytes",
        &tape[0..11],
        Err(Refusal::MaskShort(12)),
    )?;
    let t = masked(out, t, "m=1 n=2 with 12 mask bytes", &tape[0..12], solved())?;
    masked(out, t, "m=1 n=2 with 13 mask bytes", &tape[0..13], solved())
}

fn main(rt: HostRuntime) -> io::Result<()> {
    let t = Tally { run: 0, differ: 0 };
    let t = products(&rt, t)?;
    let t = sum(&rt, t)?;
    let t = systems(&rt, t, 2)?;
    let t = systems(&rt, t, 3)?;
    let t = systems(&rt, t, 4)?;
    let t = counts_of_runs(&rt, t)?;
    let t = counts_by_pairs(&rt, t)?;
    let t = counts_of_orders(&rt, t)?;
    let t = edges_of_sizes(&rt, t)?;
    let t = edges_of_tapes(&rt, t)?;
    print!(rt; "{} examples, {} differ\n", t.run, t.differ)
}

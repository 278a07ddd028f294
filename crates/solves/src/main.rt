// The program solves: regular and singular systems through deal, solve, start and step, each by the whole solve and again by single steps.
// Stands on solver, and on show to print. Its file stdout is printed by tests/vectors/solves.c from an independent model of 01.
#![tactic(auto)]

use course::{Order, Place, Progress};
use show::{Hex, Outcome};
use solver::Stride;
use std::io;
use verdict::Refusal;

// The nonzero draws of F16, each once; the largest system takes as many.
const NONZERO: [u8; 15] = *b"\xba\x9f\x16\x53\xc1\x8d\x72\x2e\xe9\x34\x0b\xf7\x65\xd8\x4c";

// A run of single steps: its record, and the draws taken from each tape.
#[derive(Clone, Copy)]
struct Run {
    record: Progress,
    mask: usize,
    nonzero: usize,
}

// The numbers below 65536, in an order that comes to each; the high byte is a draw.
fn next(x: u64) -> u64 {
    (x % 65536 * 25173 + 13849) % 65536
}

fn high(x: u64) -> u8 {
    (x / 256 % 256) as u8
}

// A tape begins elsewhere for each order.
fn start_of(o: Order) -> u64 {
    o.field % 1000 * 100 + o.shares % 10 * 10 + o.size % 10
}

fn fill(tape: &mut [u8], start: u64) {
    let mut x = start;
    for byte in tape {
        x = next(x);
        *byte = high(x);
    }
}

// The size of a system, by the number of its values.
fn size_of(values: usize) -> usize {
    match values {
        2 => 1,
        6 => 2,
        12 => 3,
        20 => 4,
        30 => 5,
        _ => 0,
    }
}

// The bytes of a table of that many entries.
fn bytes_of(entries: usize, shares: u64) -> usize {
    if 30 < entries {
        return 0;
    }
    match shares {
        2 => 2 * entries,
        3 => 3 * entries,
        _ => 4 * entries,
    }
}

fn show_left(out: &impl Print, table: &[u8], x: &[u8]) -> io::Result<()> {
    print!(out; "  table{}", Hex(table))?;
    print!(out; "\n  solution{}", Hex(x))?;
    print!(out; "\n")
}

// The solve of a dealt table.
fn whole(
    out: &impl Print,
    o: Order,
    table: &mut [u8],
    x: &mut [u8],
    mask: &[u8],
) -> io::Result<()> {
    let a = solver::solve(o.field, o.shares, o.size, table, x, mask, &NONZERO);
    show::say(out, &a.map(Outcome::from))?;
    print!(out; ": ")?;
    show::say(out, &a.map(show::taken))?;
    print!(out; "\n")?;
    show_left(out, table, x)
}

// The table is shown after each step where it is small, and after the last one where it is not.
fn show_step(
    out: &impl Print,
    place: Place,
    answer: Result<Stride, Refusal>,
    table: &[u8],
    size: usize,
) -> io::Result<()> {
    print!(out; "{place}: ")?;
    show::say(out, &answer)?;
    if size <= 3 {
        print!(out; "; table{}", Hex(table))?;
    }
    print!(out; "\n")
}

// The step at p, and the record after it.
fn act(
    out: &impl Print,
    p: Progress,
    table: &mut [u8],
    x: &mut [u8],
    mask: &[u8],
    nonzero: &[u8],
) -> io::Result<Progress> {
    let a = solver::step(p, table, x, mask, nonzero);
    show_step(out, p.place, a.map(|s| s.told), table, x.len())?;
    match a {
        Ok(s) => Ok(s.next),
        Err(_) => Ok(p),
    }
}

// A step that is lent so many draws, of each tape from where the run has come to.
fn lend(
    out: &impl Print,
    r: Run,
    draws: usize,
    others: usize,
    table: &mut [u8],
    x: &mut [u8],
    mask: &[u8],
) -> io::Result<Run> {
    let a = r.mask;
    let b = r.nonzero;
    let d = a.saturating_add(draws);
    let e = b.saturating_add(others);
    let (Some(mask), Some(nonzero)) = (mask.get(a..d), NONZERO.get(b..e)) else {
        return Ok(r);
    };
    let record = act(out, r.record, table, x, mask, nonzero)?;
    Ok(Run {
        record,
        mask: d,
        nonzero: e,
    })
}

// One step, lent what its record wants. A record that has ended wants nothing, and the run stays as it is.
fn one(out: &impl Print, r: Run, table: &mut [u8], x: &mut [u8], mask: &[u8]) -> io::Result<Run> {
    match solver::wanted(r.record) {
        Ok(d) => lend(out, r, d.mask, d.nonzero, table, x, mask),
        Err(_) => Ok(r),
    }
}

// All steps of the list: the largest one has 39.
fn steps(
    out: &impl Print,
    p: Progress,
    table: &mut [u8],
    x: &mut [u8],
    mask: &[u8],
) -> io::Result<()> {
    let mut r = Run {
        record: p,
        mask: 0,
        nonzero: 0,
    };
    for _ in 0usize..39 {
        r = one(out, r, table, x, mask)?;
    }
    Ok(())
}

fn solve_in(
    out: &impl Print,
    o: Order,
    values: &[u8],
    table: &mut [u8],
    x: &mut [u8],
    draws: &[u8],
    mask: &[u8],
) -> io::Result<()> {
    // a table that was not dealt is shown as it is
    let _ = solver::deal(o.field, o.shares, o.size, values, table, draws);
    print!(out; "  table{}", Hex(table))?;
    print!(out; "\n")?;
    whole(out, o, table, x, mask)
}

fn step_in(
    out: &impl Print,
    o: Order,
    values: &[u8],
    table: &mut [u8],
    x: &mut [u8],
    draws: &[u8],
    mask: &[u8],
) -> io::Result<()> {
    let Ok(p) = solver::start(o.field, o.shares, o.size) else {
        return Ok(());
    };
    let _ = solver::deal(o.field, o.shares, o.size, values, table, draws);
    steps(out, p, table, x, mask)?;
    show_left(out, table, x)
}

// Of the arrays the table takes k bytes, and the solution m.
fn by_solve(
    out: &impl Print,
    o: Order,
    k: usize,
    m: usize,
    values: &[u8],
    draws: &[u8],
    mask: &[u8],
) -> io::Result<()> {
    let mut table = [0u8; 120];
    let mut x = [0xeeu8; 5];
    if k <= 120 && m <= 5 {
        solve_in(out, o, values, &mut table[0..k], &mut x[0..m], draws, mask)?;
    }
    Ok(())
}

fn by_steps(
    out: &impl Print,
    o: Order,
    k: usize,
    m: usize,
    values: &[u8],
    draws: &[u8],
    mask: &[u8],
) -> io::Result<()> {
    let mut table = [0u8; 120];
    let mut x = [0xeeu8; 5];
    if k <= 120 && m <= 5 {
        step_in(out, o, values, &mut table[0..k], &mut x[0..m], draws, mask)?;
    }
    Ok(())
}

// One system both ways, from the same draws: the largest one takes 90 for Deal, and 1515.
fn system(out: &impl Print, field: u64, shares: u64, values: &[u8]) -> io::Result<()> {
    let m = size_of(values.len());
    let k = bytes_of(values.len(), shares);
    let size = m as u64;
    let o = Order {
        field,
        shares,
        size,
    };
    let mut draws = [0u8; 90];
    let mut mask = [0u8; 1515];
    fill(&mut draws, 0);
    fill(&mut mask, start_of(o));
    print!(out; "{o}: values{}\n", Hex(values))?;
    by_solve(out, o, k, m, values, &draws, &mask)?;
    by_steps(out, o, k, m, values, &draws, &mask)
}

// A system in two, three and four shares.
fn shared(out: &impl Print, field: u64, values: &[u8]) -> io::Result<()> {
    system(out, field, 2, values)?;
    system(out, field, 3, values)?;
    system(out, field, 4, values)
}

// For each field and size a system with one solution, whose first pivot is 0 but in size 1, and a singular one.
fn main(rt: HostRuntime) -> io::Result<()> {
    shared(&rt, 16, b"\x02\x03")?;
    shared(&rt, 16, b"\x00\x03")?;
    shared(&rt, 16, b"\x00\x01\x05\x01\x00\x07")?;
    shared(&rt, 16, b"\x01\x02\x01\x02\x04\x02")?;
    shared(&rt, 16, b"\x00\x00\x03\x07\x02\x00\x01\x05\x01\x04\x09\x06")?;
    shared(&rt, 16, b"\x00\x00\x03\x07\x02\x02\x01\x05\x01\x01\x09\x06")?;
    shared(
        &rt,
        16,
        b"\x00\x0c\x00\x0f\x0e\x00\x0f\x06\x04\x02\x01\x07\x0f\x00\x0d\x03\x08\x01\x00\x0d",
    )?;
    shared(
        &rt,
        16,
        b"\x03\x00\x03\x0b\x03\x00\x0f\x0f\x03\x00\x06\x0a\x0c\x06\x06\x08\x03\x0b\x05\x00",
    )?;
    shared(
        &rt,
        16,
        b"\x00\x07\x0d\x07\x02\x0c\x00\x04\x00\x00\x06\x00\x00\x0c\x06\x00\x02\x09\x0f\x05\x00\x05\x05\x02\x0c\x08\x01\x0a\x07\x0c",
    )?;
    shared(
        &rt,
        16,
        b"\x0e\x0b\x01\x00\x0b\x0e\x0c\x03\x0d\x03\x00\x07\x08\x00\x03\x00\x00\x06\x05\x0f\x07\x09\x06\x08\x00\x08\x0d\x09\x01\x06",
    )?;
    shared(&rt, 256, b"\x57\xc1")?;
    shared(&rt, 256, b"\x00\xc1")?;
    shared(&rt, 256, b"\x00\x57\x83\xc1\x13\xfe")?;
    shared(&rt, 256, b"\x57\xae\x13\x83\x1d\x11")?;
    shared(
        &rt,
        256,
        b"\x00\x00\xa3\x7e\x57\x00\xc1\x83\x13\x2f\x09\x5a",
    )?;
    shared(
        &rt,
        256,
        b"\x57\x13\x44\x09\xc1\x83\x42\xfe\xfe\x2f\xd1\x11",
    )?;
    shared(
        &rt,
        256,
        b"\x00\x4f\xb5\xd6\xc6\x00\xf5\x00\x95\x00\xc7\xac\x4a\xa6\x5c\xa5\xf1\x5a\x00\xde",
    )?;
    shared(
        &rt,
        256,
        b"\xfa\x56\xac\x00\x5d\x00\xb2\xb2\x2c\xf0\xab\x00\xab\xa4\xff\x29\xa0\x89\x2f\x0b",
    )?;
    shared(
        &rt,
        256,
        b"\x00\x00\xe5\x52\x00\x8d\x00\xaa\x98\xb8\x00\x68\x00\x00\x00\x8d\x0a\x4e\x8c\xf4\xf6\x22\xd1\x8a\x25\x62\xf6\x23\x5a\xaa",
    )?;
    shared(
        &rt,
        256,
        b"\x1c\xeb\x25\xe1\x0a\x6f\x00\x7b\x00\xf7\x8c\x99\xfc\x41\x52\x00\x41\x7b\xa9\x72\x0b\xd4\xa6\x47\x7a\x3f\xd9\xfe\xc1\x7a",
    )
}

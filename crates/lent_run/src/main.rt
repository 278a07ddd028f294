// The step call on a lent record and the step call by value, side by side. Stands on lent and solver, and on show for the words.
// Two systems of F16 with two shares and two unknowns are stepped through, one to its solution and one to its stop, with refused calls between;
// then a table with a byte that is no element, and calls on records that a host made up. Each line has the answer, the record after the call,
// the table (an entry is its two shares) and the solution, of the lent form, and whether the form by value came to the same.
#![tactic(auto)]

use course::{Place, Progress, Step};
use solver::{Stepped, Stride};
use std::io;
use verdict::Refusal;

// A host's own: the record, the table and the solution.
#[derive(Clone, Copy, PartialEq, Eq)]
struct Host {
    record: Progress,
    table: [u8; 12],
    solution: [u8; 2],
}

// One call's answer, and the host after it.
#[derive(Clone, Copy, PartialEq, Eq)]
struct Words {
    answer: Result<Stride, Refusal>,
    host: Host,
}

// A host of each form.
#[derive(Clone, Copy, PartialEq, Eq)]
struct Both {
    lent: Host,
    value: Host,
}

// Entries of two shares, a hexadecimal digit each.
fn print_entries(out: &impl Print, s: &[u8]) -> io::Result<()> {
    for entry in s.chunks_exact(2) {
        print!(out; " {:x}{:x}", entry[0] % 16, entry[1] % 16)?;
    }
    Ok(())
}

fn print_host(out: &impl Print, h: Host) -> io::Result<()> {
    print!(out; " | record {} | table", h.record)?;
    print_entries(out, &h.table)?;
    let [x, y] = h.solution;
    print!(out; " | solution {:x} {:x}", x % 16, y % 16)
}

fn print_told(out: &impl Print, t: Words) -> io::Result<()> {
    show::say(out, &t.answer)?;
    print_host(out, t.host)
}

// The record, the table and the solution are lent, and are what they are after the call.
fn by_lent(h: Host, mask: &[u8], nonzero: &[u8]) -> Words {
    let mut record = h.record;
    let mut table = h.table;
    let mut solution = h.solution;
    let answer = lent::step(&mut record, &mut table, &mut solution, mask, nonzero);
    Words {
        answer,
        host: Host {
            record,
            table,
            solution,
        },
    }
}

// By value a refusal gives no record: the caller's is as it was.
fn given(p: Progress, a: Result<Stepped, Refusal>, table: [u8; 12], solution: [u8; 2]) -> Words {
    let record = match a {
        Ok(s) => s.next,
        Err(_) => p,
    };
    Words {
        answer: a.map(|s| s.told),
        host: Host {
            record,
            table,
            solution,
        },
    }
}

fn by_value(h: Host, mask: &[u8], nonzero: &[u8]) -> Words {
    let mut table = h.table;
    let mut solution = h.solution;
    let a = solver::step(h.record, &mut table, &mut solution, mask, nonzero);
    given(h.record, a, table, solution)
}

// By value through the lent form.
fn by_stepped(h: Host, mask: &[u8], nonzero: &[u8]) -> Words {
    let mut table = h.table;
    let mut solution = h.solution;
    let a = lent::stepped(h.record, &mut table, &mut solution, mask, nonzero);
    given(h.record, a, table, solution)
}

// One call in each form, and its line.
fn lend(out: &impl Print, b: Both, mask: &[u8], nonzero: &[u8]) -> io::Result<Both> {
    let g = by_lent(b.lent, mask, nonzero);
    let h = by_value(b.value, mask, nonzero);
    let k = by_stepped(b.value, mask, nonzero);
    print_told(out, g)?;
    if g == h && h == k {
        print!(out; " | same by value\n")?;
    } else {
        print!(out; " | by value: ")?;
        print_told(out, h)?;
        print!(out; " | through the lent form: ")?;
        print_told(out, k)?;
        print!(out; "\n")?;
    }
    Ok(Both {
        lent: g.host,
        value: h.host,
    })
}

// One call that is lent a part of each tape: the mask draws from `a` to before `e`, and the nonzero draws from `b` to before `f`.
// The third nonzero draw is 0 in F16.
fn call(out: &impl Print, hosts: Both, a: usize, e: usize, b: usize, f: usize) -> io::Result<Both> {
    let mask = [
        5, 27, 255, 3, 16, 8, 11, 90, 1, 66, 13, 7, 4, 201, 33, 6, 12, 2, 180, 9, 14, 77, 10, 0,
        15, 21, 150, 38, 19, 29, 44, 53, 62, 71, 88, 97,
    ];
    let nonzero = [19, 6, 16];
    if a <= e && e <= 36 && b <= f && f <= 3 {
        lend(out, hosts, &mask[a..e], &nonzero[b..f])
    } else {
        Ok(hosts)
    }
}

// The same for both forms: the record, the values dealt into shares, and a solution that no step has written yet.
fn begin(p: Progress, values: &[u8]) -> Both {
    let draws = [9, 2, 7, 4, 12, 5];
    let mut table = [0; 12];
    // these sizes and lengths are taken
    let _ = solver::deal(16, 2, 2, values, &mut table, &draws);
    let h = Host {
        record: p,
        table,
        solution: [15, 15],
    };
    Both { lent: h, value: h }
}

// Rows (0,1) and (1,0), b = (5,7): x = (7,5).
fn solved(out: &impl Print, p: Progress) -> io::Result<()> {
    let b = begin(p, b"\x00\x01\x05\x01\x00\x07");
    // a draw short, a draw too many, then Mix(1,2)
    let b = call(out, b, 0, 6, 0, 0)?;
    let b = call(out, b, 0, 8, 0, 0)?;
    let b = call(out, b, 0, 7, 0, 0)?;
    // Check(1), with a nonzero draw that it has no use for, and with none
    let b = call(out, b, 7, 12, 0, 1)?;
    let b = call(out, b, 7, 12, 0, 0)?;
    // Scale(1), with no nonzero draw, with one that is 0, and with a good one
    let b = call(out, b, 12, 20, 0, 0)?;
    let b = call(out, b, 12, 20, 2, 3)?;
    let b = call(out, b, 12, 20, 0, 1)?;
    // Clear(1,2), Check(2), Scale(2)
    let b = call(out, b, 20, 23, 0, 0)?;
    let b = call(out, b, 23, 28, 0, 0)?;
    let b = call(out, b, 28, 34, 1, 2)?;
    // Open(2), with the draws of both Opens, and with its own; Lift(2), with Open(1)'s draw, and with none; Open(1); and a call on the record that
    // is done
    let b = call(out, b, 34, 36, 0, 0)?;
    let b = call(out, b, 34, 35, 0, 0)?;
    let b = call(out, b, 35, 36, 0, 0)?;
    let b = call(out, b, 35, 35, 0, 0)?;
    let b = call(out, b, 35, 36, 0, 0)?;
    call(out, b, 35, 36, 0, 0)?;
    Ok(())
}

// Rows (1,2) and (2,4), b = (1,2): stopped at 2.
fn stopped(out: &impl Print, p: Progress) -> io::Result<()> {
    let b = begin(p, b"\x01\x02\x01\x02\x04\x02");
    let b = call(out, b, 0, 7, 0, 0)?;
    let b = call(out, b, 7, 12, 0, 0)?;
    let b = call(out, b, 12, 20, 0, 1)?;
    // Clear(1,2) with no draws, and with its own; Check(2); and two calls on the record that is stopped
    let b = call(out, b, 20, 20, 0, 0)?;
    let b = call(out, b, 20, 23, 0, 0)?;
    let b = call(out, b, 23, 28, 0, 0)?;
    let b = call(out, b, 28, 34, 1, 2)?;
    call(out, b, 28, 28, 0, 0)?;
    Ok(())
}

// The host's table with 16 for its last share, which is printed as 0.
fn spoilt(h: Host) -> Host {
    let mut table = h.table;
    table[11] = 16;
    Host { table, ..h }
}

// The first system with a byte that is no element.
fn large(out: &impl Print, p: Progress) -> io::Result<()> {
    let b = begin(p, b"\x00\x01\x05\x01\x00\x07");
    let c = Both {
        lent: spoilt(b.lent),
        value: spoilt(b.value),
    };
    call(out, c, 0, 7, 0, 0)?;
    Ok(())
}

// One call on a record that a host made up, with the first system's table.
fn made_up(out: &impl Print, p: Progress, e: usize, f: usize) -> io::Result<()> {
    call(out, begin(p, b"\x00\x01\x05\x01\x00\x07"), 0, e, 0, f)?;
    Ok(())
}

fn fresh(field: u64, shares: u64, size: u64, place: Place) -> Progress {
    Progress {
        field,
        shares,
        size,
        place,
        mask: 0,
        nonzero: 0,
    }
}

// The same with counters, for the first system.
fn counted(place: Place, mask: u64, nonzero: u64) -> Progress {
    Progress {
        field: 16,
        shares: 2,
        size: 2,
        place,
        mask,
        nonzero,
    }
}

fn strange(out: &impl Print) -> io::Result<()> {
    made_up(out, fresh(7, 0, 2, Place::Done), 0, 0)?;
    made_up(out, fresh(16, 5, 2, Place::Done), 0, 0)?;
    made_up(out, fresh(16, 2, 97, Place::Done), 0, 0)?;
    made_up(out, fresh(16, 2, 3, Place::At(Step::Check(1))), 5, 0)?;
    made_up(out, fresh(16, 2, 2, Place::Stopped(3)), 0, 0)?;
    made_up(
        out,
        fresh(16, 2, 2, Place::At(Step::Mix { j: 2, k: 2 })),
        7,
        0,
    )?;
    // the pivot is 0 before Mix
    made_up(out, counted(Place::At(Step::Scale(1)), 12, 0), 8, 1)
}

// Counters that don't match the place, and ends whose counters do.
fn uncounted(out: &impl Print) -> io::Result<()> {
    made_up(out, counted(Place::At(Step::Scale(1)), 7, 0), 8, 1)?;
    made_up(out, counted(Place::At(Step::Check(1)), 7, 1), 5, 0)?;
    made_up(out, counted(Place::At(Step::Check(1)), 0, 7), 5, 0)?;
    let most = u64::MAX;
    made_up(out, counted(Place::At(Step::Check(1)), most, most), 5, 0)?;
    made_up(out, counted(Place::Stopped(2), 23, 1), 0, 0)?;
    made_up(out, counted(Place::Stopped(2), 28, 1), 0, 0)?;
    made_up(out, counted(Place::Done, 35, 2), 0, 0)?;
    made_up(out, counted(Place::Done, 36, 2), 0, 0)
}

fn main(rt: HostRuntime) -> io::Result<()> {
    let Ok(p) = solver::start(16, 2, 2) else {
        return Ok(());
    };
    solved(&rt, p)?;
    print!(rt; "\n")?;
    stopped(&rt, p)?;
    print!(rt; "\n")?;
    large(&rt, p)?;
    strange(&rt)?;
    uncounted(&rt)
}

// The program refusals_solve: lends solve bad input, every refusal of it and the orders of two that apply together, and prints each call,
// its answer, and what was lent before and after. Stands on solver, and on show to print.
// Bytes are printed in hex after their buffer's length, other numbers in decimal.
// The lists of calls are short: what a check of a function costs grows faster than its length.
#![tactic(auto)]

use course::Order;
use show::Outcome;
use show::call::{BLANK, LARGEST, MASK, TABLE, ZERO_PIVOT, order};
use std::io;
use verdict::Refusal;
use walk::Ending;

// Rows (0,1),(0,3), b = (1,2), in two shares.
const TWO_STOPS: [u8; 12] = [7, 7, 11, 10, 1, 0, 12, 12, 6, 5, 8, 10];

fn say_solving(out: &impl Print, a: Result<Ending, Refusal>) -> io::Result<()> {
    show::say(out, &a.map(Outcome::from))?;
    match a {
        Ok(e) => print!(out; ", counts {}", show::taken(e)),
        Err(_) => Ok(()),
    }
}

fn begin_solve(
    out: &impl Print,
    words: &str,
    o: Order,
    table: &[u8],
    solution: &[u8],
    mask: &[u8],
    nonzero: &[u8],
) -> io::Result<()> {
    show::call::begin(out, "solve", words)?;
    show::call::lent(out, table, solution, mask, nonzero)?;
    show::call::of_order(out, o)
}

// Lends copies of the table and the solution.
fn solve_in(
    o: Order,
    table: &[u8],
    solution: &[u8],
    mask: &[u8],
    nonzero: &[u8],
    t: &mut [u8],
    x: &mut [u8],
) -> Result<Ending, Refusal> {
    show::call::copy(table, t);
    show::call::copy(solution, x);
    solver::solve(o.field, o.shares, o.size, t, x, mask, nonzero)
}

// The copies begin t and x.
fn end_solve(
    out: &impl Print,
    table: &[u8],
    solution: &[u8],
    mask: &[u8],
    nonzero: &[u8],
    t: &[u8; 16],
    x: &[u8; 4],
) -> io::Result<()> {
    let u = &t[..];
    let y = &x[..];
    let k = table.len();
    let m = solution.len();
    if u.len() < k || y.len() < m {
        return show::call::too_long(out);
    }
    show::call::after(out)?;
    show::call::lent(out, &u[0..k], &y[0..m], mask, nonzero)?;
    show::call::end(out, table == &u[0..k] && solution == &y[0..m])
}

fn solve(
    out: &impl Print,
    words: &str,
    o: Order,
    table: &[u8],
    solution: &[u8],
    mask: &[u8],
    nonzero: &[u8],
) -> io::Result<()> {
    let mut t = [0u8; 16];
    let mut x = [0u8; 4];
    let k = table.len();
    let m = solution.len();
    if 16 < k || 4 < m {
        return show::call::too_long(out);
    }
    begin_solve(out, words, o, table, solution, mask, nonzero)?;
    let a = solve_in(
        o,
        table,
        solution,
        mask,
        nonzero,
        &mut t[0..k],
        &mut x[0..m],
    );
    say_solving(out, a)?;
    end_solve(out, table, solution, mask, nonzero, &t, &x)
}

// A good table, solution and tapes.
fn solve_of(out: &impl Print, words: &str, o: Order) -> io::Result<()> {
    let a = MASK;
    solve(out, words, o, &TABLE, &[0xee], &a[..12], &[0xba])
}

fn solves_of_sizes(out: &impl Print) -> io::Result<()> {
    solve_of(out, "field 7", order(7, 2, 1))?;
    solve_of(out, "field 65552", order(65552, 2, 1))?;
    solve_of(out, "field 7 and shares 0", order(7, 0, 1))?;
    solve_of(out, "shares 0", order(16, 0, 1))?;
    solve_of(out, "shares 5 and size 97", order(16, 5, 97))?;
    solve_of(out, "size 97", order(16, 2, 97))?;
    solve_of(out, "size 2^64-1", order(16, 2, LARGEST))
}

// One equation in two shares over F16.
fn solve_one(
    out: &impl Print,
    words: &str,
    table: &[u8],
    mask: &[u8],
    nonzero: &[u8],
) -> io::Result<()> {
    solve(out, words, order(16, 2, 1), table, &[0xee], mask, nonzero)
}

// The same with a solution that is too long, and good tapes.
fn solve_blank(out: &impl Print, words: &str, table: &[u8]) -> io::Result<()> {
    let a = MASK;
    solve(
        out,
        words,
        order(16, 2, 1),
        table,
        &BLANK,
        &a[..12],
        &[0xba],
    )
}

fn solves_of_lengths(out: &impl Print) -> io::Result<()> {
    solve_blank(out, "a table of 3 bytes, and a solution of 2", &[4, 6, 10])?;
    let words = "a solution of 2 bytes, and a large byte";
    solve_blank(out, words, &[4, 6, 10, 0x10])?;
    let a = MASK;
    let words = "two bytes of 16 and more, and short tapes";
    solve_one(out, words, &[4, 6, 0x10, 0xff], &a[..11], &[])
}

fn solves_of_tapes(out: &impl Print) -> io::Result<()> {
    let a = MASK;
    let words = "11 mask bytes where 12 are wanted";
    solve_one(out, words, &TABLE, &a[..11], &[0xba])?;
    solve_one(out, "no mask byte and no nonzero byte", &TABLE, &[], &[])?;
    let words = "no nonzero byte where one is wanted";
    solve_one(out, words, &TABLE, &a[..12], &[])
}

// The same with short tapes, so that 6 goes before 7 and 8.
fn solve_large(out: &impl Print, words: &str, table: &[u8]) -> io::Result<()> {
    solve_one(out, words, table, &[], &[])
}

fn solves_of_entries(out: &impl Print) -> io::Result<()> {
    let words = "two bytes of 16 and more, the first of them in front";
    solve_large(out, words, &[0x10, 6, 0xff, 9])?;
    solve_large(out, "a byte of 16 in the second share", &[4, 0x10, 10, 9])?;
    solve_large(out, "a byte of 16 at the end", &[4, 6, 10, 0x10])?;
    let mut t = TWO_STOPS;
    t[11] = 0x1f;
    let words = "two equations, and the last byte is 31";
    solve(out, words, order(16, 2, 2), &t, &BLANK, &[], &[])
}

// 96 equations, all 0 but for byte 20143, which is 16. Printed without the bytes.
fn solve_most(out: &impl Print, shares: u64, table: &mut [u8]) -> io::Result<()> {
    let mut x = [0xeeu8; 96];
    print!(out; "solve: 96 equations, and byte 20143 is 16\n  lent: ")?;
    show::call::of_order(out, order(16, shares, 96))?;
    say_solving(out, solver::solve(16, shares, 96, table, &mut x, &[], &[]))?;
    print!(out; "\n")
}

fn solves_of_most(out: &impl Print) -> io::Result<()> {
    let mut t = [0u8; 27936];
    t[20143] = 0x10;
    solve_most(out, 3, &mut t)?;
    let mut u = [0u8; 37248];
    u[20143] = 0x10;
    solve_most(out, 4, &mut u)
}

// One equation in two shares over F16, with a good mask tape.
fn solve_with(out: &impl Print, words: &str, table: &[u8], nonzero: &[u8]) -> io::Result<()> {
    let a = MASK;
    solve_one(out, words, table, &a[..12], nonzero)
}

// Two equations in two shares over F16, that stop at column 1.
fn solve_two(out: &impl Print, words: &str, nonzero: &[u8]) -> io::Result<()> {
    solve(
        out,
        words,
        order(16, 2, 2),
        &TWO_STOPS,
        &BLANK,
        &[0x10; 36],
        nonzero,
    )
}

fn solves_of_draws(out: &impl Print) -> io::Result<()> {
    solve_with(out, "a nonzero draw of 0", &TABLE, &[0])?;
    solve_with(out, "a nonzero byte of 0x10, the draw 0", &TABLE, &[0x10])?;
    let words = "a nonzero draw of 0, though column 1 stops";
    solve_with(out, words, &ZERO_PIVOT, &[0])?;
    let words = "the second nonzero draw is 0, though column 1 stops";
    solve_two(out, words, &[0xba, 0x20])?;
    solve_two(
        out,
        "one nonzero byte where two are wanted, and it is 0",
        &[0],
    )
}

fn solves_of_good_tapes(out: &impl Print) -> io::Result<()> {
    let words = "tapes of just the length wanted, accepted";
    solve_of(out, words, order(16, 2, 1))?;
    let words = "longer tapes, with a zero draw after those wanted, accepted";
    solve_one(out, words, &TABLE, &MASK, &[0xba, 0x10])?;
    let words = "mask bytes of 0x10, each the draw 0, accepted";
    solve_one(out, words, &TABLE, &[0x10; 12], &[0xba])
}

fn solves_accepted(out: &impl Print) -> io::Result<()> {
    let o = order(256, 2, 1);
    let words = "F256, with bytes of 16 and more and a nonzero draw of 0x10, accepted";
    solve(
        out,
        words,
        o,
        &[0x57, 0, 0xc0, 1],
        &[0xee],
        &[0x10; 14],
        &[0x10],
    )?;
    solve_with(out, "a column of zeros, accepted", &ZERO_PIVOT, &[0xba])?;
    solve_two(
        out,
        "two equations, column 1 zeros, accepted",
        &[0xba, 0x53],
    )
}

fn main(rt: HostRuntime) -> io::Result<()> {
    solves_of_sizes(&rt)?;
    solves_of_lengths(&rt)?;
    solves_of_entries(&rt)?;
    solves_of_most(&rt)?;
    solves_of_tapes(&rt)?;
    solves_of_draws(&rt)?;
    solves_of_good_tapes(&rt)?;
    solves_accepted(&rt)
}

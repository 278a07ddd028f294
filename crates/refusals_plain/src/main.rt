// The program refusals_plain: lends plain::solve bad input, every refusal of it and the orders of two or more that apply together, and small
// systems of both fields, and prints each call, its answer, and what was lent before and after. Stands on plain, and on show to print.
// Bytes are printed in hex after their buffer's length, other numbers in decimal.
// The lists of calls are short: what a check of a function costs grows faster than its length.
#![tactic(auto)]

use plain::Ending;
use show::Buffer;
use show::call::{BLANK, LARGEST};
use std::io;
use verdict::Refusal;

// [2]x = [3].
const ONE: [u8; 2] = [2, 3];

// Rows (0,1),(1,0), b = (5,7).
const TWO: [u8; 6] = [0, 1, 5, 1, 0, 7];

fn say_solving(out: &impl Print, a: Result<Ending, Refusal>) -> io::Result<()> {
    match a {
        Ok(Ending::Solved) => print!(out; "solved"),
        Ok(Ending::Stopped(j)) => print!(out; "stopped {j}"),
        Err(r) => print!(out; "{r}"),
    }
}

fn show_solve(out: &impl Print, values: &[u8], solution: &[u8]) -> io::Result<()> {
    print!(out; "values {}solution {}", Buffer(values), Buffer(solution))
}

fn begin_solve(
    out: &impl Print,
    words: &str,
    field: u64,
    size: u64,
    values: &[u8],
    solution: &[u8],
) -> io::Result<()> {
    show::call::begin(out, "plain solve", words)?;
    show_solve(out, values, solution)?;
    print!(out; "field {field}, size {size}")?;
    show::call::middle(out)
}

// Lends a copy of the solution.
fn solve_in(
    field: u64,
    size: u64,
    values: &[u8],
    solution: &[u8],
    x: &mut [u8],
) -> Result<Ending, Refusal> {
    show::call::copy(solution, x);
    plain::solve(field, size, values, x)
}

// The copy begins x. The values are those that were lent: the call only reads them.
fn end_solve(out: &impl Print, values: &[u8], solution: &[u8], x: &[u8; 4]) -> io::Result<()> {
    let y = &x[..];
    let k = solution.len();
    if y.len() < k {
        return show::call::too_long(out);
    }
    show::call::after(out)?;
    show_solve(out, values, &y[0..k])?;
    show::call::end(out, solution == &y[0..k])
}

fn solve(
    out: &impl Print,
    words: &str,
    field: u64,
    size: u64,
    values: &[u8],
    solution: &[u8],
) -> io::Result<()> {
    let mut x = [0u8; 4];
    let k = solution.len();
    if 4 < k {
        return show::call::too_long(out);
    }
    begin_solve(out, words, field, size, values, solution)?;
    let a = solve_in(field, size, values, solution, &mut x[0..k]);
    say_solving(out, a)?;
    end_solve(out, values, solution, &x)
}

// Values and a solution that are good for one equation in either field.
fn solve_of(out: &impl Print, words: &str, field: u64, size: u64) -> io::Result<()> {
    solve(out, words, field, size, &ONE, &[0xee])
}

fn solves_of_fields(out: &impl Print) -> io::Result<()> {
    solve_of(out, "field 0", 0, 1)?;
    solve_of(out, "field 15", 15, 1)?;
    solve_of(out, "field 17", 17, 1)?;
    solve_of(out, "field 255", 255, 1)?;
    solve_of(out, "field 257", 257, 1)?;
    let words = "field 65552, which is 16 in its last 16 bits";
    solve_of(out, words, 65552, 1)?;
    solve_of(out, "field 2^64-1", LARGEST, 1)
}

fn solves_of_sizes(out: &impl Print) -> io::Result<()> {
    solve_of(out, "size 0", 16, 0)?;
    let words = "size 0, with no value and no place for the solution";
    solve(out, words, 256, 0, &[], &[])?;
    solve_of(out, "size 97", 16, 97)?;
    let words = "size 4294967297, which is 1 in its last 32 bits";
    solve_of(out, words, 256, 4294967297)?;
    solve_of(out, "size 2^64-1", 16, LARGEST)
}

// One equation, with a place for its unknown.
fn solve_one(out: &impl Print, words: &str, field: u64, values: &[u8]) -> io::Result<()> {
    solve(out, words, field, 1, values, &[0xee])
}

fn solve_two(out: &impl Print, words: &str, field: u64, values: &[u8]) -> io::Result<()> {
    solve(out, words, field, 2, values, &BLANK)
}

fn solve_three(out: &impl Print, words: &str, field: u64, values: &[u8]) -> io::Result<()> {
    solve(out, words, field, 3, values, &[0xee; 3])
}

fn solves_of_values(out: &impl Print) -> io::Result<()> {
    let words = "five values where six are wanted";
    solve_two(out, words, 16, &[0, 1, 5, 1, 0])?;
    let words = "seven values where six are wanted";
    solve_two(out, words, 16, &[0, 1, 5, 1, 0, 7, 0])?;
    solve_two(out, "no value", 16, &[])?;
    let words = "the coefficients without b";
    solve_two(out, words, 16, &[0, 1, 1, 0])
}

fn solves_of_other_values(out: &impl Print) -> io::Result<()> {
    let words = "a table in two shares where one byte an entry is wanted";
    solve_one(out, words, 16, &show::call::TABLE)?;
    solve_one(out, "one value in F256", 256, &[2])?;
    solve_one(out, "three values in F256", 256, &[2, 3, 4])?;
    let words = "the largest size, with two values";
    solve_of(out, words, 256, 96)
}

fn solves_of_solutions(out: &impl Print) -> io::Result<()> {
    let words = "a solution of one byte where two are wanted";
    solve(out, words, 16, 2, &TWO, &[0xee])?;
    let words = "a solution of three bytes where two are wanted";
    solve(out, words, 16, 2, &TWO, &[0xee; 3])?;
    solve(out, "no place for the solution", 16, 2, &TWO, &[])?;
    let words = "a solution of two bytes where one is wanted, in F256";
    solve(out, words, 256, 1, &ONE, &BLANK)
}

fn solves_of_bytes(out: &impl Print) -> io::Result<()> {
    let words = "a byte of 16 in the first place";
    solve_two(out, words, 16, &[0x10, 1, 5, 1, 0, 7])?;
    let words = "a byte of 16 in a middle place";
    solve_two(out, words, 16, &[0, 1, 5, 0x10, 0, 7])?;
    let words = "a byte of 16 in the b column of row 1";
    solve_two(out, words, 16, &[0, 1, 0x10, 1, 0, 7])?;
    let words = "a byte of 16 in the last place, which is b of row 2";
    solve_two(out, words, 16, &[0, 1, 5, 1, 0, 0x10])?;
    let words = "bytes of 255 and 16: the first place of the two";
    solve_two(out, words, 16, &[0, 0xff, 5, 1, 0x10, 7])
}

fn solves_of_good_bytes(out: &impl Print) -> io::Result<()> {
    solve_one(out, "bytes up to 15, accepted", 16, &[15, 10])?;
    let words = "F256, with 16 in the first place and the last, accepted";
    solve_two(out, words, 256, &[0x10, 1, 5, 1, 0xff, 0x10])?;
    let words = "F256, with every byte 16 or more, accepted";
    solve_two(out, words, 256, &[0xff, 0x10, 0x80, 0x11, 0xfe, 0x1f])
}

fn orders_of_two(out: &impl Print) -> io::Result<()> {
    solve_of(out, "field 7 and size 97: the field goes first", 7, 97)?;
    let words = "size 97 and no value: the size goes first";
    solve(out, words, 16, 97, &[], &BLANK)?;
    let words = "one value, and a solution of two bytes: the values go first";
    solve(out, words, 16, 1, &[2], &BLANK)?;
    let words = "three values with a byte of 16: their length goes first";
    solve_one(out, words, 16, &[0x10, 3, 4])?;
    let words = "a solution of two bytes, and a byte of 16: the solution goes first";
    solve(out, words, 16, 1, &[0x10, 3], &BLANK)
}

// Both buffers wrong for every size but 2: one value, of 16, and two places for the solution.
fn solve_wrong(out: &impl Print, words: &str, field: u64, size: u64) -> io::Result<()> {
    solve(out, words, field, size, &[0x10], &BLANK)
}

fn orders_of_all(out: &impl Print) -> io::Result<()> {
    let words = "field 7, size 97, and both buffers wrong: the field";
    solve_wrong(out, words, 7, 97)?;
    let words = "size 97, and both buffers wrong: the size";
    solve_wrong(out, words, 16, 97)?;
    solve_wrong(out, "both buffers wrong: the values", 16, 1)
}

fn systems_solved(out: &impl Print) -> io::Result<()> {
    solve_of(out, "[2]x = [3]", 16, 1)?;
    solve_two(out, "rows (0,1),(1,0), b = (5,7)", 16, &TWO)?;
    let words = "rows (2,1),(1,1), b = (1,0)";
    solve_two(out, words, 16, &[2, 1, 1, 1, 1, 0])?;
    let words = "rows (0,0,2),(0,3,1),(5,1,1), b = (4,7,9)";
    solve_three(out, words, 16, &[0, 0, 2, 4, 0, 3, 1, 7, 5, 1, 1, 9])
}

fn systems_stopped(out: &impl Print) -> io::Result<()> {
    solve_one(out, "[0]x = [3]", 16, &[0, 3])?;
    solve_one(out, "[0]x = [0], which fits", 16, &[0, 0])?;
    let words = "rows (0,1),(0,3), b = (1,2)";
    solve_two(out, words, 16, &[0, 1, 1, 0, 3, 2])?;
    let words = "rows (1,2),(2,4), b = (1,2), which fits";
    solve_two(out, words, 16, &[1, 2, 1, 2, 4, 2])
}

fn systems_of_f256(out: &impl Print) -> io::Result<()> {
    solve_one(out, "F256: [57]x = [c1] in hex", 256, &[0x57, 0xc1])?;
    let words = "F256: rows (0,2),(3,0), b = (1,57) in hex";
    solve_two(out, words, 256, &[0, 2, 1, 3, 0, 0x57])?;
    solve_one(out, "F256: [0]x = [57] in hex", 256, &[0, 0x57])?;
    let words = "F256: rows (1,2,3),(2,4,6),(7,7,1), b = (9,1,5)";
    solve_three(out, words, 256, &[1, 2, 3, 9, 2, 4, 6, 1, 7, 7, 1, 5])
}

fn main(rt: HostRuntime) -> io::Result<()> {
    solves_of_fields(&rt)?;
    solves_of_sizes(&rt)?;
    solves_of_values(&rt)?;
    solves_of_other_values(&rt)?;
    solves_of_solutions(&rt)?;
    solves_of_bytes(&rt)?;
    solves_of_good_bytes(&rt)?;
    orders_of_two(&rt)?;
    orders_of_all(&rt)?;
    systems_solved(&rt)?;
    systems_stopped(&rt)?;
    systems_of_f256(&rt)
}

// The program refusals_wide: lends the wide calls bad input, every refusal of them and orders of two that apply together, and prints each call, its
// answer, and what was lent before and after; and a run of steps from start to done, one that ends short, and whole solves. Stands on wide, and on
// show to print. Bytes are printed in hex after their buffer's length, other numbers in decimal.
// The lists of calls are short: what a check of a function costs grows faster than its length.
#![tactic(auto)]

use course::{Draws, Step};
use pattern::{Pivots, WideOrder, WidePlace, WideProgress};
use show::call::LARGEST;
use show::{Buffer, Hex};
use std::io;
use verdict::Refusal;
use wide::{WideStepped, WideStride};
use wide_walk::WideEnding;

// Rows (1,2,1),(2,4,3), b = (5,7), in two shares. Its pivots are columns 1 and 3.
const TABLE: [u8; 16] = [2, 3, 10, 8, 12, 13, 7, 2, 5, 7, 8, 12, 2, 1, 1, 6];

// Rows (0,0,0),(0,0,1), b = (1,1): short.
const LOW: [u8; 16] = [3, 3, 8, 8, 13, 13, 3, 2, 7, 7, 12, 12, 0, 1, 7, 6];

// Two bytes longer than a whole solve of two rows and three columns wants.
const MASK: [u8; 73] = [
    7, 16, 25, 34, 43, 52, 61, 70, 79, 88, 97, 106, 115, 124, 133, 142, 151, 160, 169, 178, 187,
    196, 205, 214, 223, 232, 241, 250, 3, 12, 21, 30, 39, 48, 57, 66, 75, 84, 93, 102, 111, 120,
    129, 138, 147, 156, 165, 174, 183, 192, 201, 210, 219, 228, 237, 246, 255, 8, 17, 26, 35, 44,
    53, 62, 71, 80, 89, 98, 107, 116, 125, 134, 143,
];

const NONZERO: [u8; 3] = [3, 6, 9];

// What the three places of a solution hold before a call.
const BLANK: [u8; 3] = [238, 238, 238];

// ---- printing

fn say_order(out: &impl Print, o: WideOrder) -> io::Result<()> {
    print!(out;
        "field {}, shares {}, rows {}, columns {}",
        o.field, o.shares, o.rows, o.columns
    )
}

fn say_place(out: &impl Print, p: WidePlace) -> io::Result<()> {
    match p {
        WidePlace::At(s) => print!(out; "{s}"),
        WidePlace::Short => print!(out; "Short"),
        WidePlace::Done => print!(out; "Done"),
    }
}

// The slots' first four are enough here.
fn say_record(out: &impl Print, p: WideProgress) -> io::Result<()> {
    print!(out; "record ")?;
    say_order(out, p.order)?;
    print!(out; ", at ")?;
    say_place(out, p.place)?;
    let slots = Hex(&p.pivots.columns[..4]);
    print!(out;
        ", taken {} and {}, pivots {}:{slots}",
        p.mask, p.nonzero, p.pivots.found
    )
}

fn say_stepping(out: &impl Print, a: Result<WideStride, Refusal>) -> io::Result<()> {
    match a {
        Ok(WideStride::Moved) => print!(out; "moved"),
        Ok(WideStride::Opened(j, x)) => print!(out; "opened x_{j} = {x}"),
        Ok(WideStride::Short) => print!(out; "short"),
        Ok(WideStride::Done(j, x)) => print!(out; "done, x_{j} = {x}"),
        Err(r) => print!(out; "{r}"),
    }
}

fn say_solving(out: &impl Print, a: Result<WideEnding, Refusal>) -> io::Result<()> {
    match a {
        Ok(WideEnding::Solved(c)) => print!(out; "solved, {c}"),
        Ok(WideEnding::Short(c)) => print!(out; "short, {c}"),
        Err(r) => print!(out; "{r}"),
    }
}

fn say_counting(out: &impl Print, a: Result<Draws, Refusal>) -> io::Result<()> {
    match a {
        Ok(d) => print!(out; "{} {}", d.mask, d.nonzero),
        Err(r) => print!(out; "{r}"),
    }
}

// ---- start and counts: nothing is lent

fn order(field: u64, shares: u64, rows: u64, columns: u64) -> WideOrder {
    WideOrder {
        field,
        shares,
        rows,
        columns,
    }
}

fn start(out: &impl Print, words: &str, o: WideOrder) -> io::Result<()> {
    show::call::begin(out, "wide start", words)?;
    say_order(out, o)?;
    show::call::middle(out)?;
    let record = match wide::start(o.field, o.shares, o.rows, o.columns) {
        Ok(p) => {
            print!(out; "fresh")?;
            p
        }
        Err(r) => {
            print!(out; "{r}")?;
            record_of(order(0, 0, 0, 0), WidePlace::Done, none(), 0, 0)
        }
    };
    show::call::after(out)?;
    say_record(out, record)?;
    print!(out; "\n")
}

fn counts(out: &impl Print, words: &str, o: WideOrder) -> io::Result<()> {
    show::call::begin(out, "wide counts", words)?;
    say_order(out, o)?;
    show::call::middle(out)?;
    say_counting(out, wide::counts(o.field, o.shares, o.rows, o.columns))?;
    print!(out; "\n")
}

fn both(out: &impl Print, words: &str, o: WideOrder) -> io::Result<()> {
    start(out, words, o)?;
    counts(out, words, o)
}

fn orders_of_fields(out: &impl Print) -> io::Result<()> {
    both(out, "field 256: F16 alone", order(256, 2, 2, 3))?;
    both(out, "field 0", order(0, 2, 2, 3))?;
    both(out, "field 65552", order(65552, 2, 2, 3))?;
    both(
        out,
        "field 31, shares 1, rows 97: the field",
        order(31, 1, 97, 200),
    )
}

fn orders_of_shares(out: &impl Print) -> io::Result<()> {
    both(out, "no shares", order(16, 0, 2, 3))?;
    both(out, "one share", order(16, 1, 2, 3))?;
    both(out, "five shares", order(16, 5, 2, 3))?;
    both(out, "one share, and rows 0: the shares", order(16, 1, 0, 3))
}

fn orders_of_rows(out: &impl Print) -> io::Result<()> {
    both(out, "no rows", order(16, 2, 0, 3))?;
    both(out, "rows 97", order(16, 2, 97, 144))?;
    both(
        out,
        "rows 97 and columns 145: the rows",
        order(16, 2, 97, 145),
    )?;
    both(out, "rows 2^64-1", order(16, 2, LARGEST, LARGEST))
}

fn orders_of_columns(out: &impl Print) -> io::Result<()> {
    both(out, "fewer columns than rows", order(16, 2, 3, 2))?;
    both(out, "columns 145", order(16, 2, 2, 145))?;
    both(out, "no columns", order(16, 2, 1, 0))?;
    both(out, "columns 2^64-1", order(16, 2, 2, LARGEST))
}

fn orders_accepted(out: &impl Print) -> io::Result<()> {
    both(out, "one row and one column", order(16, 2, 1, 1))?;
    both(out, "two rows and three columns", order(16, 2, 2, 3))?;
    both(out, "in three shares", order(16, 3, 2, 3))?;
    both(out, "the largest", order(16, 4, 96, 144))
}

// ---- records of two rows and three columns in two shares

fn slots(found: u64, first: u8, second: u8, third: u8) -> Pivots {
    let mut columns = [0u8; 96];
    columns[0] = first;
    columns[1] = second;
    columns[2] = third;
    Pivots { found, columns }
}

fn record_of(
    o: WideOrder,
    place: WidePlace,
    pivots: Pivots,
    mask: u64,
    nonzero: u64,
) -> WideProgress {
    WideProgress {
        order: o,
        place,
        mask,
        nonzero,
        pivots,
    }
}

fn record(place: WidePlace, pivots: Pivots, mask: u64, nonzero: u64) -> WideProgress {
    record_of(order(16, 2, 2, 3), place, pivots, mask, nonzero)
}

fn at(s: Step) -> WidePlace {
    WidePlace::At(s)
}

fn none() -> Pivots {
    slots(0, 0, 0, 0)
}

fn first() -> Pivots {
    slots(1, 1, 0, 0)
}

fn pair() -> Pivots {
    slots(2, 1, 3, 0)
}

fn begun() -> WideProgress {
    record(at(Step::Mix { j: 1, k: 2 }), none(), 0, 0)
}

fn wanted(out: &impl Print, words: &str, p: WideProgress) -> io::Result<()> {
    show::call::begin(out, "wide wanted", words)?;
    say_record(out, p)?;
    show::call::middle(out)?;
    say_counting(out, wide::wanted(p))?;
    print!(out; "\n")
}

fn wanted_along(out: &impl Print) -> io::Result<()> {
    wanted(out, "the first place", begun())?;
    let scale = record(at(Step::Scale(1)), first(), 13, 0);
    wanted(out, "Scale(1)", scale)?;
    let check = record(at(Step::Check(3)), first(), 32, 1);
    wanted(out, "Check(3), column 2 passed over", check)?;
    wanted(out, "Lift(3)", record(at(Step::Lift(3)), pair(), 44, 2))
}

fn wanted_ended(out: &impl Print) -> io::Result<()> {
    let short = record(WidePlace::Short, none(), 36, 0);
    wanted(out, "short", short)?;
    wanted(out, "done", record(WidePlace::Done, pair(), 45, 2))?;
    let words = "short, with counters of no pattern: 19 goes before 11";
    wanted(out, words, record(WidePlace::Short, none(), 37, 0))?;
    let words = "short with a pivot for each row: 10 goes before 19";
    wanted(out, words, record(WidePlace::Short, pair(), 0, 0))
}

// ---- steps

// Lends copies of the table and the solution.
fn step_in(
    p: WideProgress,
    table: &[u8],
    solution: &[u8],
    mask: &[u8],
    nonzero: &[u8],
    t: &mut [u8],
    x: &mut [u8],
) -> Result<WideStepped, Refusal> {
    show::call::copy(table, t);
    show::call::copy(solution, x);
    wide::step(p, t, x, mask, nonzero)
}

fn begin_step(
    out: &impl Print,
    words: &str,
    p: WideProgress,
    table: &[u8],
    solution: &[u8],
    mask: &[u8],
    nonzero: &[u8],
) -> io::Result<()> {
    show::call::begin(out, "wide step", words)?;
    show::call::lent(out, table, solution, mask, nonzero)?;
    say_record(out, p)?;
    show::call::middle(out)
}

// The copies begin t and x.
fn end_step(
    out: &impl Print,
    p: WideProgress,
    q: WideProgress,
    table: &[u8],
    solution: &[u8],
    t: &[u8; 16],
    x: &[u8; 4],
) -> io::Result<()> {
    let u = &t[..];
    let y = &x[..];
    let k = table.len();
    let m = solution.len();
    if u.len() < k || y.len() < m {
        return show::call::too_long(out);
    }
    show::call::after(out)?;
    print!(out; "table {}solution {}", Buffer(&u[0..k]), Buffer(&y[0..m]))?;
    say_record(out, q)?;
    print!(out; "; ")?;
    let same = table == &u[0..k] && solution == &y[0..m];
    show::call::end(out, same && p == q)
}

fn step(
    out: &impl Print,
    words: &str,
    p: WideProgress,
    table: &[u8],
    solution: &[u8],
    mask: &[u8],
    nonzero: &[u8],
) -> io::Result<()> {
    let mut t = [0u8; 16];
    let mut x = [0u8; 4];
    let k = table.len();
    let m = solution.len();
    if 16 < k || 4 < m {
        return show::call::too_long(out);
    }
    begin_step(out, words, p, table, solution, mask, nonzero)?;
    let a = step_in(
        p,
        table,
        solution,
        mask,
        nonzero,
        &mut t[0..k],
        &mut x[0..m],
    );
    say_stepping(out, a.map(|s| s.told))?;
    // a refusal leaves the record as it was
    let q = match a {
        Ok(s) => s.next,
        Err(_) => p,
    };
    end_step(out, p, q, table, solution, &t, &x)
}

// The first place, with a good table, solution and tapes.
fn step_of(out: &impl Print, words: &str, o: WideOrder) -> io::Result<()> {
    let a = MASK;
    let p = record_of(o, at(Step::Mix { j: 1, k: 2 }), none(), 0, 0);
    step(out, words, p, &TABLE, &BLANK, &a[..8], &[])
}

fn steps_of_sizes(out: &impl Print) -> io::Result<()> {
    step_of(out, "field 256", order(256, 2, 2, 3))?;
    step_of(out, "shares 1", order(16, 1, 2, 3))?;
    step_of(out, "rows 0", order(16, 2, 0, 3))?;
    step_of(out, "columns 1", order(16, 2, 2, 1))?;
    step_of(out, "a table of another size", order(16, 2, 2, 4))
}

fn steps_of_buffers(out: &impl Print) -> io::Result<()> {
    let words = "a table of 15 bytes, and a solution of 2";
    let t = TABLE;
    step(out, words, begun(), &t[..15], &[238, 238], &[], &[])?;
    let words = "a solution of 2 bytes, as many as rows";
    step(out, words, begun(), &TABLE, &[238, 238], &[], &[])?;
    let words = "a solution of 4 bytes, and pivots that no place has";
    let p = record(at(Step::Check(1)), slots(1, 0, 0, 0), 0, 0);
    step(out, words, p, &TABLE, &[238; 4], &[], &[])
}

// A made-up record, with a large byte in the table and no tapes: 10, 19 and 11 go before 6 and 7.
fn made_up(out: &impl Print, words: &str, p: WideProgress) -> io::Result<()> {
    let mut t = TABLE;
    t[15] = 16;
    step(out, words, p, &t, &BLANK, &[], &[])
}

fn steps_off_list(out: &impl Print) -> io::Result<()> {
    made_up(
        out,
        "Mix(1,1)",
        record(at(Step::Mix { j: 1, k: 1 }), none(), 0, 0),
    )?;
    made_up(out, "Check(4)", record(at(Step::Check(4)), none(), 0, 0))?;
    made_up(out, "Check(0)", record(at(Step::Check(0)), none(), 0, 0))?;
    let words = "Scale(1) before its pivot is found";
    made_up(out, words, record(at(Step::Scale(1)), none(), 13, 0))?;
    let words = "Lift of the first pivot";
    made_up(out, words, record(at(Step::Lift(1)), pair(), 45, 2))
}

fn steps_off_pattern(out: &impl Print) -> io::Result<()> {
    let words = "Open(2), and column 2 is no pivot";
    made_up(out, words, record(at(Step::Open(2)), pair(), 43, 2))?;
    let words = "Open with a row that has no pivot";
    made_up(out, words, record(at(Step::Open(1)), first(), 43, 2))?;
    let words = "Check(1), and column 1 is a pivot";
    made_up(out, words, record(at(Step::Check(1)), first(), 8, 0))?;
    let words = "done with one pivot";
    made_up(out, words, record(WidePlace::Done, first(), 45, 2))
}

fn steps_of_pivots(out: &impl Print) -> io::Result<()> {
    let check = at(Step::Check(3));
    made_up(
        out,
        "pivots that descend",
        record(WidePlace::Done, slots(2, 3, 1, 0), 45, 2),
    )?;
    made_up(
        out,
        "a pivot twice",
        record(WidePlace::Done, slots(2, 3, 3, 0), 45, 2),
    )?;
    made_up(out, "a pivot 0", record(check, slots(1, 0, 0, 0), 32, 1))?;
    made_up(
        out,
        "a pivot past the columns",
        record(WidePlace::Done, slots(2, 1, 4, 0), 45, 2),
    )?;
    made_up(
        out,
        "a slot that is not used and not 0",
        record(check, slots(1, 1, 0, 1), 32, 1),
    )
}

fn steps_of_many_pivots(out: &impl Print) -> io::Result<()> {
    made_up(
        out,
        "more pivots than rows",
        record(WidePlace::Done, slots(3, 1, 2, 3), 45, 2),
    )?;
    made_up(
        out,
        "97 pivots",
        record(WidePlace::Done, slots(97, 1, 3, 0), 45, 2),
    )?;
    made_up(
        out,
        "2^64-1 pivots",
        record(WidePlace::Done, slots(LARGEST, 1, 3, 0), 45, 2),
    )
}

fn steps_of_counters(out: &impl Print) -> io::Result<()> {
    let check = at(Step::Check(3));
    made_up(out, "a mask draw too few", record(check, first(), 31, 1))?;
    made_up(
        out,
        "a nonzero draw too many",
        record(check, first(), 32, 2),
    )?;
    let words = "the counters of another pattern";
    made_up(out, words, record(check, slots(1, 2, 0, 0), 32, 1))?;
    made_up(
        out,
        "done, and a large byte",
        record(WidePlace::Done, pair(), 45, 2),
    )
}

fn steps_of_tapes(out: &impl Print) -> io::Result<()> {
    let a = MASK;
    let p = begun();
    let mut t = TABLE;
    t[7] = 16;
    let words = "a byte of 16 in row 1, column 4, share 2, and no tapes";
    step(out, words, p, &t, &BLANK, &[], &[])?;
    step(
        out,
        "7 mask bytes where 8 are wanted",
        p,
        &TABLE,
        &BLANK,
        &a[..7],
        &[],
    )?;
    step(
        out,
        "9 mask bytes where 8 are wanted",
        p,
        &TABLE,
        &BLANK,
        &a[..9],
        &[],
    )?;
    step(
        out,
        "a nonzero byte where none is wanted",
        p,
        &TABLE,
        &BLANK,
        &a[..8],
        &[1],
    )
}

// Scale(1) of a table whose T[1,1] is 0, and of one where it is not.
fn scales(out: &impl Print) -> io::Result<()> {
    let a = MASK;
    let p = record(at(Step::Scale(1)), first(), 13, 0);
    step(
        out,
        "11 mask bytes, and no nonzero byte: 14",
        p,
        &LOW,
        &BLANK,
        &a[..11],
        &[],
    )?;
    step(out, "no nonzero byte", p, &LOW, &BLANK, &a[..10], &[])?;
    step(out, "a nonzero draw of 0", p, &LOW, &BLANK, &a[..10], &[32])?;
    step(out, "the pivot is 0", p, &LOW, &BLANK, &a[..10], &[3])?;
    step(out, "the pivot is 1", p, &TABLE, &BLANK, &a[..10], &[3])
}

// Scale(3) stands in row 2: of LOW the pivot is 1 there, and of another table 0.
fn scales_of_row_two(out: &impl Print) -> io::Result<()> {
    let a = MASK;
    let p = record(at(Step::Scale(3)), pair(), 37, 1);
    let mut t = LOW;
    t[12] = 1;
    step(
        out,
        "row 2, and the pivot is 0",
        p,
        &t,
        &BLANK,
        &a[..6],
        &[3],
    )?;
    step(
        out,
        "row 2, and the pivot is 1",
        p,
        &LOW,
        &BLANK,
        &a[..6],
        &[3],
    )
}

fn lifts(out: &impl Print) -> io::Result<()> {
    let p = record(at(Step::Lift(3)), pair(), 44, 2);
    let words = "x_3 is 16 where Lift reads it, and a mask byte: 14 goes first";
    step(out, words, p, &TABLE, &[238, 238, 16], &[0], &[])?;
    step(
        out,
        "x_3 is 16 where Lift reads it",
        p,
        &TABLE,
        &[238, 238, 16],
        &[],
        &[],
    )?;
    step(out, "x_3 is 13", p, &TABLE, &[238, 238, 13], &[], &[])
}

// ---- whole runs

// All steps from start, each on the draws of the mask tape from where its record says; a run of two rows and three columns has at most eleven.
fn run(out: &impl Print, words: &str, table: [u8; 16]) -> io::Result<()> {
    let mut t = table;
    let mut x = BLANK;
    print!(out; "{words}")?;
    print!(out; "\n")?;
    twelve(out, &mut t[0..16], &mut x[0..3])?;
    end_run(out, &t, &x)
}

fn end_run(out: &impl Print, t: &[u8; 16], x: &[u8; 3]) -> io::Result<()> {
    print!(out; "  table {}", Buffer(&t[..]))?;
    print!(out; "solution {}", Buffer(&x[..]))?;
    print!(out; "\n")
}

fn twelve(out: &impl Print, t: &mut [u8], x: &mut [u8]) -> io::Result<()> {
    let mut p = begun();
    for _ in 0usize..12 {
        p = turn(out, p, t, x)?;
    }
    Ok(())
}

// So many bytes from a place on, or as many as there are.
fn part(s: &[u8], at: usize, many: usize) -> &[u8] {
    let Some(rest) = s.get(at..) else {
        return s;
    };
    rest.get(..many).unwrap_or(rest)
}

// One step of it, and nothing where it has ended.
fn turn(out: &impl Print, p: WideProgress, t: &mut [u8], x: &mut [u8]) -> io::Result<WideProgress> {
    let Ok(d) = wide::wanted(p) else {
        return Ok(p);
    };
    let ds = part(&MASK, p.mask as usize, d.mask);
    let zs = part(&NONZERO, p.nonzero as usize, d.nonzero);
    let a = wide::step(p, t, x, ds, zs);
    let next = match a {
        Ok(s) => s.next,
        Err(_) => p,
    };
    print!(out; "  ")?;
    say_stepping(out, a.map(|s| s.told))?;
    print!(out; ", ")?;
    say_record(out, next)?;
    print!(out; "\n")?;
    Ok(next)
}

fn solve_in(
    o: WideOrder,
    table: &[u8],
    solution: &[u8],
    mask: &[u8],
    nonzero: &[u8],
    t: &mut [u8],
    x: &mut [u8],
) -> Result<WideEnding, Refusal> {
    show::call::copy(table, t);
    show::call::copy(solution, x);
    wide::solve(o.field, o.shares, o.rows, o.columns, t, x, mask, nonzero)
}

// The copies begin t and x.
fn end_solve(
    out: &impl Print,
    table: &[u8],
    solution: &[u8],
    t: &[u8; 16],
    x: &[u8; 4],
) -> io::Result<()> {
    let u = &t[..];
    let y = &x[..];
    let k = table.len();
    let m = solution.len();
    if u.len() < k || y.len() < m {
        return show::call::too_long(out);
    }
    show::call::after(out)?;
    print!(out; "table {}solution {}", Buffer(&u[0..k]), Buffer(&y[0..m]))?;
    show::call::end(out, table == &u[0..k] && solution == &y[0..m])
}

fn solve(
    out: &impl Print,
    words: &str,
    o: WideOrder,
    table: &[u8],
    solution: &[u8],
    mask: &[u8],
    nonzero: &[u8],
) -> io::Result<()> {
    let mut t = [0u8; 16];
    let mut x = [0u8; 4];
    let k = table.len();
    let m = solution.len();
    if 16 < k || 4 < m {
        return show::call::too_long(out);
    }
    show::call::begin(out, "wide solve", words)?;
    show::call::lent(out, table, solution, mask, nonzero)?;
    say_order(out, o)?;
    show::call::middle(out)?;
    let a = solve_in(
        o,
        table,
        solution,
        mask,
        nonzero,
        &mut t[0..k],
        &mut x[0..m],
    );
    say_solving(out, a)?;
    end_solve(out, table, solution, &t, &x)
}

// Two rows and three columns in two shares.
fn solve_two(
    out: &impl Print,
    words: &str,
    table: &[u8],
    solution: &[u8],
    mask: &[u8],
    nonzero: &[u8],
) -> io::Result<()> {
    solve(
        out,
        words,
        order(16, 2, 2, 3),
        table,
        solution,
        mask,
        nonzero,
    )
}

fn solves_of_sizes(out: &impl Print) -> io::Result<()> {
    let o = order(16, 2, 2, 145);
    solve(out, "columns 145, and no table", o, &[], &[], &[], &[])?;
    solve(
        out,
        "field 256",
        order(256, 2, 2, 3),
        &TABLE,
        &BLANK,
        &MASK,
        &NONZERO,
    )?;
    let t = TABLE;
    solve_two(
        out,
        "a table of 15 bytes, and no solution",
        &t[..15],
        &[],
        &[],
        &[],
    )?;
    let words = "a solution of 2 bytes, as many as rows";
    solve_two(out, words, &TABLE, &[238, 238], &[], &[])
}

fn solves_of_tapes(out: &impl Print) -> io::Result<()> {
    let a = MASK;
    let mut t = TABLE;
    t[8] = 255;
    solve_two(out, "a byte of 255, and no tapes", &t, &BLANK, &[], &[])?;
    solve_two(
        out,
        "70 mask bytes where 71 are wanted",
        &TABLE,
        &BLANK,
        &a[..70],
        &[],
    )?;
    solve_two(
        out,
        "1 nonzero byte where 2 are wanted",
        &TABLE,
        &BLANK,
        &a[..71],
        &[0],
    )?;
    solve_two(
        out,
        "the second nonzero draw is 0",
        &TABLE,
        &BLANK,
        &a[..71],
        &[3, 16, 9],
    )
}

fn solves(out: &impl Print) -> io::Result<()> {
    solve_two(out, "pivots 1 and 3", &TABLE, &BLANK, &MASK, &NONZERO)?;
    let words = "short: the third nonzero draw, 0, is not needed";
    solve_two(out, words, &LOW, &BLANK, &MASK, &[3, 6, 0])
}

fn main(rt: HostRuntime) -> io::Result<()> {
    orders_of_fields(&rt)?;
    orders_of_shares(&rt)?;
    orders_of_rows(&rt)?;
    orders_of_columns(&rt)?;
    orders_accepted(&rt)?;
    wanted_along(&rt)?;
    wanted_ended(&rt)?;
    steps_of_sizes(&rt)?;
    steps_of_buffers(&rt)?;
    steps_off_list(&rt)?;
    steps_off_pattern(&rt)?;
    steps_of_pivots(&rt)?;
    steps_of_many_pivots(&rt)?;
    steps_of_counters(&rt)?;
    steps_of_tapes(&rt)?;
    scales(&rt)?;
    scales_of_row_two(&rt)?;
    lifts(&rt)?;
    run(&rt, "A run of steps: pivots 1 and 3", TABLE)?;
    run(&rt, "A run of steps that ends short", LOW)?;
    solves_of_sizes(&rt)?;
    solves_of_tapes(&rt)?;
    solves(&rt)
}

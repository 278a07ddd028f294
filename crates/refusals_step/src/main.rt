// The program refusals_step: lends step bad input, every refusal of it and the orders of two that apply together, and prints each call,
// its answer, and what was lent before and after; and asks wanted about records, good and bad. Stands on solver, and on show to print.
// Bytes are printed in hex after their buffer's length, other numbers in decimal.
// The lists of calls are short: what a check of a function costs grows faster than its length.
#![tactic(auto)]

use course::{Order, Place, Progress, Step};
use show::call::{BLANK, LARGEST, MASK, TABLE, ZERO_PIVOT, order};
use solver::Stepped;
use std::io;
use verdict::Refusal;

// Rows (0,1),(1,0), b = (5,7), in two shares.
const TWO: [u8; 12] = [4, 4, 4, 5, 10, 15, 3, 2, 10, 10, 15, 8];

// The mask and nonzero draws of a record.
#[derive(Clone, Copy)]
struct Drawn {
    mask: u64,
    nonzero: u64,
}

fn taken(mask: u64, nonzero: u64) -> Drawn {
    Drawn { mask, nonzero }
}

fn with(o: Order, place: Place, t: Drawn) -> Progress {
    Progress {
        field: o.field,
        shares: o.shares,
        size: o.size,
        place,
        mask: t.mask,
        nonzero: t.nonzero,
    }
}

// R-5's sums for one equation in two shares over F16; of a step that is not in its list any will do.
fn step_in_one(s: Step) -> Drawn {
    match s {
        Step::Scale(_) => taken(5, 0),
        Step::Open(_) => taken(11, 1),
        _ => taken(0, 0),
    }
}

fn in_one(place: Place) -> Drawn {
    match place {
        Place::At(s) => step_in_one(s),
        Place::Stopped(_) => taken(5, 0),
        Place::Done => taken(12, 1),
    }
}

fn by_column(j: u64, first: Drawn, second: Drawn) -> Drawn {
    if j == 1 { first } else { second }
}

// For two equations.
fn step_in_two(s: Step) -> Drawn {
    match s {
        Step::Mix { j: _, k: _ } => taken(0, 0),
        Step::Check(j) => by_column(j, taken(7, 0), taken(23, 1)),
        Step::Scale(j) => by_column(j, taken(12, 0), taken(28, 1)),
        Step::Clear { j: _, k: _ } => taken(20, 1),
        Step::Open(j) => by_column(j, taken(35, 2), taken(34, 2)),
        Step::Lift(_) => taken(35, 2),
    }
}

fn in_two(place: Place) -> Drawn {
    match place {
        Place::At(s) => step_in_two(s),
        Place::Stopped(j) => by_column(j, taken(12, 0), taken(28, 1)),
        Place::Done => taken(36, 2),
    }
}

// A record whose counters match its place, for two shares over F16.
fn at(o: Order, place: Place) -> Progress {
    let t = if o.size == 1 {
        in_one(place)
    } else {
        in_two(place)
    };
    with(o, place, t)
}

fn begin_step(
    out: &impl Print,
    words: &str,
    p: Progress,
    table: &[u8],
    solution: &[u8],
    mask: &[u8],
    nonzero: &[u8],
) -> io::Result<()> {
    show::call::begin(out, "step", words)?;
    show::call::lent(out, table, solution, mask, nonzero)?;
    print!(out; "record {p}")?;
    show::call::middle(out)
}

// Lends copies of the table and the solution.
fn step_in(
    p: Progress,
    table: &[u8],
    solution: &[u8],
    mask: &[u8],
    nonzero: &[u8],
    t: &mut [u8],
    x: &mut [u8],
) -> Result<Stepped, Refusal> {
    show::call::copy(table, t);
    show::call::copy(solution, x);
    solver::step(p, t, x, mask, nonzero)
}

// The copies begin t and x.
fn end_step(
    out: &impl Print,
    p: Progress,
    q: Progress,
    table: &[u8],
    solution: &[u8],
    mask: &[u8],
    nonzero: &[u8],
    t: &[u8; 16],
    x: &[u8; 4],
) -> io::Result<()> {
    let u = &t[..];
    let y = &x[..];
    let k = table.len();
    let m = solution.len();
    if u.len() < k || y.len() < m {
        return show::call::too_long(out);
    }
    show::call::after(out)?;
    show::call::lent(out, &u[0..k], &y[0..m], mask, nonzero)?;
    let same = table == &u[0..k] && solution == &y[0..m];
    print!(out; "record {q}; ")?;
    show::call::end(out, same && p == q)
}

fn step(
    out: &impl Print,
    words: &str,
    p: Progress,
    table: &[u8],
    solution: &[u8],
    mask: &[u8],
    nonzero: &[u8],
) -> io::Result<()> {
    let mut t = [0u8; 16];
    let mut x = [0u8; 4];
    let k = table.len();
    let m = solution.len();
    if 16 < k || 4 < m {
        return show::call::too_long(out);
    }
    begin_step(out, words, p, table, solution, mask, nonzero)?;
    let a = step_in(
        p,
        table,
        solution,
        mask,
        nonzero,
        &mut t[0..k],
        &mut x[0..m],
    );
    show::say(out, &a.map(|s| s.told))?;
    // a refusal leaves the record as it was
    let q = match a {
        Ok(s) => s.next,
        Err(_) => p,
    };
    end_step(out, p, q, table, solution, mask, nonzero, &t, &x)
}

fn check(j: u64) -> Place {
    Place::At(Step::Check(j))
}

fn scale(j: u64) -> Place {
    Place::At(Step::Scale(j))
}

fn open(j: u64) -> Place {
    Place::At(Step::Open(j))
}

fn lift(j: u64) -> Place {
    Place::At(Step::Lift(j))
}

fn mix(j: u64, k: u64) -> Place {
    Place::At(Step::Mix { j, k })
}

fn clear(j: u64, k: u64) -> Place {
    Place::At(Step::Clear { j, k })
}

// A good place, table, solution and tapes.
fn step_of(out: &impl Print, words: &str, o: Order) -> io::Result<()> {
    let a = MASK;
    step(out, words, at(o, check(1)), &TABLE, &[0xee], &a[..5], &[])
}

fn steps_of_sizes(out: &impl Print) -> io::Result<()> {
    step_of(out, "field 7 and shares 0", order(7, 0, 1))?;
    step_of(out, "field 65552", order(65552, 2, 1))?;
    step_of(out, "shares 5", order(16, 5, 1))?;
    step_of(out, "size 97", order(16, 2, 97))
}

// One equation in two shares over F16, a solution that is too long, and no tapes.
fn step_blank(out: &impl Print, words: &str, table: &[u8]) -> io::Result<()> {
    step(
        out,
        words,
        at(order(16, 2, 1), check(1)),
        table,
        &BLANK,
        &[],
        &[],
    )
}

fn steps_of_buffers(out: &impl Print) -> io::Result<()> {
    step_blank(out, "a table of 3 bytes, and a solution of 2", &[4, 6, 10])?;
    step_blank(
        out,
        "a solution of 2 bytes, at a step that writes none",
        &TABLE,
    )
}

// One equation in two shares over F16.
fn step_one(
    out: &impl Print,
    words: &str,
    place: Place,
    table: &[u8],
    mask: &[u8],
    nonzero: &[u8],
) -> io::Result<()> {
    step(
        out,
        words,
        at(order(16, 2, 1), place),
        table,
        &[0xee],
        mask,
        nonzero,
    )
}

// A made-up place, with a large byte in the table and no tapes: 10 and 11 go before 6 and 7.
fn made_up(out: &impl Print, words: &str, place: Place) -> io::Result<()> {
    step_one(out, words, place, &[4, 6, 0x10, 9], &[], &[])
}

fn steps_off_list(out: &impl Print) -> io::Result<()> {
    made_up(out, "Mix, of which one equation has none", mix(1, 2))?;
    made_up(out, "Mix with j = 2^64-1", mix(LARGEST, 1))?;
    made_up(out, "Check(0)", check(0))?;
    made_up(out, "Check with j = 2^64-1", check(LARGEST))?;
    made_up(out, "Scale with j = 2^64-1", scale(LARGEST))?;
    made_up(out, "Clear with j = k = 2^64-1", clear(LARGEST, LARGEST))?;
    made_up(out, "Clear with j = k", clear(1, 1))?;
    made_up(out, "Open(2)", open(2))?;
    made_up(out, "Open with j = 2^64-1", open(LARGEST))?;
    made_up(out, "Lift(1)", lift(1))?;
    made_up(out, "Lift with j = 2^64-1", lift(LARGEST))
}

fn steps_at_end(out: &impl Print) -> io::Result<()> {
    made_up(out, "stopped at 0", Place::Stopped(0))?;
    made_up(out, "stopped at m+1", Place::Stopped(2))?;
    made_up(out, "stopped at 1, and a large byte", Place::Stopped(1))?;
    made_up(out, "done, and a large byte", Place::Done)
}

// Two equations in two shares over F16, at Check(1), with a large byte and no tapes.
fn table_of_two(out: &impl Print, words: &str, table: &[u8]) -> io::Result<()> {
    step(
        out,
        words,
        at(order(16, 2, 2), check(1)),
        table,
        &BLANK,
        &[],
        &[],
    )
}

fn steps_of_entries(out: &impl Print) -> io::Result<()> {
    let words = "a byte of 16, and no mask byte";
    step_one(out, words, check(1), &[4, 6, 9, 0x10], &[], &[])?;
    let words = "every byte 16 or more: the first";
    step_one(out, words, check(1), &[0x10, 0x20, 0xff, 0x10], &[], &[])?;
    let mut t = TWO;
    t[11] = 0xf0;
    let words = "two equations, and the last byte is 240";
    table_of_two(out, words, &t)?;
    t[7] = 0x10;
    let words = "and the second share of row 2, column 1 is 16";
    table_of_two(out, words, &t)
}

// Check of one equation.
fn check_one(out: &impl Print, words: &str, mask: &[u8], nonzero: &[u8]) -> io::Result<()> {
    step_one(out, words, check(1), &TABLE, mask, nonzero)
}

fn checks_of_lengths(out: &impl Print) -> io::Result<()> {
    let a = MASK;
    check_one(out, "4 mask bytes where 5 are wanted", &a[..4], &[])?;
    check_one(out, "6 mask bytes where 5 are wanted", &a[..6], &[])?;
    check_one(out, "a nonzero byte where none is wanted", &a[..5], &[0xba])?;
    let words = "a nonzero draw of 0 where none is wanted";
    check_one(out, words, &a[..5], &[0])
}

// Scale of one equation, with a good mask tape.
fn scale_one(out: &impl Print, words: &str, table: &[u8], nonzero: &[u8]) -> io::Result<()> {
    let a = MASK;
    step_one(out, words, scale(1), table, &a[..6], nonzero)
}

fn scales_of_lengths(out: &impl Print) -> io::Result<()> {
    let words = "no mask byte, and no nonzero byte";
    step_one(out, words, scale(1), &TABLE, &[], &[])?;
    scale_one(out, "no nonzero byte where one is wanted", &TABLE, &[])?;
    let words = "two nonzero bytes where one is wanted";
    scale_one(out, words, &TABLE, &[0xba, 0xba])?;
    let words = "the same, and the first is the draw 0";
    scale_one(out, words, &TABLE, &[0x10, 0xba])
}

// Both tapes wrong: the mask tape goes first.
fn scales_of_both(out: &impl Print) -> io::Result<()> {
    let a = MASK;
    let words = "7 mask bytes where 6 are wanted, and no nonzero byte";
    step_one(out, words, scale(1), &TABLE, &a[..7], &[])?;
    let words = "7 mask bytes, and two nonzero bytes";
    step_one(out, words, scale(1), &TABLE, &a[..7], &[0xba, 0xba])?;
    let words = "5 mask bytes, and two nonzero bytes";
    step_one(out, words, scale(1), &TABLE, &a[..5], &[0xba, 0xba])
}

fn scales_of_draws(out: &impl Print) -> io::Result<()> {
    scale_one(out, "a nonzero draw of 0", &TABLE, &[0])?;
    scale_one(out, "a nonzero byte of 0x10, the draw 0", &TABLE, &[0x10])?;
    scale_one(
        out,
        "a zero pivot and a nonzero draw of 0",
        &ZERO_PIVOT,
        &[0],
    )?;
    scale_one(out, "a zero pivot", &ZERO_PIVOT, &[0xba])
}

// Two equations in two shares over F16.
fn step_two(
    out: &impl Print,
    words: &str,
    place: Place,
    mask: &[u8],
    nonzero: &[u8],
) -> io::Result<()> {
    step(
        out,
        words,
        at(order(16, 2, 2), place),
        &TWO,
        &BLANK,
        mask,
        nonzero,
    )
}

fn scale_of_three(out: &impl Print, words: &str, t: Drawn) -> io::Result<()> {
    step(
        out,
        words,
        with(order(16, 3, 1), scale(1), t),
        &[1, 1, 2, 5, 5, 3],
        &[0xee],
        &[0x10; 19],
        &[0xba, 0],
    )
}

fn scales_beyond_one(out: &impl Print) -> io::Result<()> {
    let a = MASK;
    step_two(out, "a zero pivot in row 2", scale(2), &a[..6], &[0xba])?;
    let words = "three shares, and the second nonzero draw is 0";
    scale_of_three(out, words, taken(15, 0))?;
    let words = "the same, with the draws that Check took before R-6";
    scale_of_three(out, words, taken(13, 0))
}

fn steps_accepted(out: &impl Print) -> io::Result<()> {
    check_one(
        out,
        "Check, with mask bytes of 0x10, accepted",
        &[0x10; 5],
        &[],
    )?;
    let words = "Scale, with mask bytes of 0x10, accepted";
    step_one(out, words, scale(1), &TABLE, &[0x10; 6], &[0xba])
}

fn steps_accepted_at_end(out: &impl Print) -> io::Result<()> {
    let a = MASK;
    let words = "Open, the last step, accepted";
    step_one(out, words, open(1), &[9, 8, 6, 14], &a[..1], &[])?;
    let words = "Check of a column of zeros, accepted";
    step_one(out, words, check(1), &ZERO_PIVOT, &a[..5], &[])
}

fn mixes_of_two(out: &impl Print) -> io::Result<()> {
    let a = MASK;
    let words = "Mix with 6 mask bytes where 7 are wanted";
    step_two(out, words, mix(1, 2), &a[..6], &[])?;
    let words = "Mix with 8 mask bytes";
    step_two(out, words, mix(1, 2), &a[..8], &[])?;
    let words = "Mix with 8 mask bytes, and a nonzero byte";
    step_two(out, words, mix(1, 2), &a[..8], &[0xba])?;
    step_two(out, "Mix, accepted", mix(1, 2), &a[..7], &[])
}

fn scales_of_two(out: &impl Print) -> io::Result<()> {
    let a = MASK;
    let words = "Scale of two equations with no nonzero byte";
    step_two(out, words, scale(1), &a[..8], &[])?;
    let words = "and with two nonzero bytes";
    step_two(out, words, scale(1), &a[..8], &[0xba, 0xba])
}

fn clears_of_two(out: &impl Print) -> io::Result<()> {
    let a = MASK;
    let words = "Clear with 4 mask bytes where 3 are wanted";
    step_two(out, words, clear(1, 2), &a[..4], &[])?;
    step_two(out, "Clear, accepted", clear(1, 2), &a[..3], &[])?;
    let words = "Open with 2 mask bytes where 1 is wanted";
    step_two(out, words, open(2), &a[..2], &[])?;
    step_two(out, "Open(2), accepted", open(2), &a[..1], &[])
}

// Lift(2) of two equations in two shares over F16, with this for the solution.
fn lift_two(
    out: &impl Print,
    words: &str,
    solution: &[u8],
    mask: &[u8],
    nonzero: &[u8],
) -> io::Result<()> {
    let p = at(order(16, 2, 2), lift(2));
    step(out, words, p, &TWO, solution, mask, nonzero)
}

fn lifts_of_two(out: &impl Print) -> io::Result<()> {
    let words = "Lift where x_2 is 16";
    lift_two(out, words, &[0xee, 0x10], &[], &[])?;
    let words = "the same, and a mask byte where none is wanted";
    lift_two(out, words, &[0xee, 0x10], &[0xba], &[])?;
    let words = "the same, and a nonzero draw of 0";
    lift_two(out, words, &[0xee, 0x10], &[], &[0])?;
    let words = "Lift, where another byte of the solution is 238, accepted";
    lift_two(out, words, &[0xee, 0x0e], &[], &[])
}

// Two equations in two shares over F16, with a large byte in the table and no tapes: 10 goes before 19, and 19 before 11, 6 and 7.
fn counters(
    out: &impl Print,
    words: &str,
    place: Place,
    mask: u64,
    nonzero: u64,
) -> io::Result<()> {
    let p = with(order(16, 2, 2), place, taken(mask, nonzero));
    let mut t = TWO;
    t[11] = 0xf0;
    step(out, words, p, &t, &BLANK, &[], &[])
}

fn counters_of_steps(out: &impl Print) -> io::Result<()> {
    counters(out, "Check(1) with a nonzero draw too many", check(1), 7, 1)?;
    counters(out, "Check(1) with a mask draw too many", check(1), 8, 0)?;
    counters(out, "Check(1) with a mask draw too few", check(1), 6, 0)?;
    counters(out, "Check(1) with the two exchanged", check(1), 0, 7)
}

fn counters_of_others(out: &impl Print) -> io::Result<()> {
    counters(out, "Check(1) with those of the start", check(1), 0, 0)?;
    counters(
        out,
        "Check(1) with 2^64-1 twice",
        check(1),
        LARGEST,
        LARGEST,
    )?;
    counters(
        out,
        "Mix(1,2) with 2^32 mask draws",
        mix(1, 2),
        4294967296,
        0,
    )?;
    counters(out, "Scale(1) without its Check", scale(1), 7, 0)
}

fn counters_of_ends(out: &impl Print) -> io::Result<()> {
    let stopped = Place::Stopped(2);
    counters(out, "stopped at 2, without its Check", stopped, 23, 1)?;
    counters(out, "stopped at 2", stopped, 28, 1)?;
    counters(out, "done, a mask draw too few", Place::Done, 35, 2)?;
    counters(out, "done", Place::Done, 36, 2)
}

fn counters_beside_others(out: &impl Print) -> io::Result<()> {
    counters(out, "Mix(2,2)", mix(2, 2), 0, 0)?;
    let words = "Mix(2,2) with 2^64-1 twice";
    counters(out, words, mix(2, 2), LARGEST, LARGEST)?;
    counters(out, "Clear(1,2), and a large byte", clear(1, 2), 20, 1)
}

fn wanted(out: &impl Print, words: &str, o: Order, place: Place) -> io::Result<()> {
    wanted_of(out, words, at(o, place))
}

fn wanted_of(out: &impl Print, words: &str, p: Progress) -> io::Result<()> {
    show::call::begin(out, "wanted", words)?;
    print!(out; "record {p}")?;
    show::call::middle(out)?;
    match solver::wanted(p) {
        Ok(d) => print!(out; "mask draws {}, nonzero draws {}\n", d.mask, d.nonzero),
        Err(r) => print!(out; "{r}\n"),
    }
}

fn wanted_of_sizes(out: &impl Print) -> io::Result<()> {
    wanted(out, "field 7 and shares 0", order(7, 0, 2), mix(1, 2))?;
    wanted(out, "shares 1 and size 97", order(16, 1, 97), mix(1, 2))?;
    wanted(out, "shares 5", order(256, 5, 2), mix(1, 2))?;
    wanted(out, "size 0, and done", order(16, 2, 0), Place::Done)?;
    wanted(out, "size 97", order(16, 2, 97), mix(1, 2))
}

fn wanted_off_list(out: &impl Print) -> io::Result<()> {
    let o = order(16, 2, 2);
    wanted(out, "k no larger than j", o, mix(2, 2))?;
    wanted(out, "column 3 of 2", o, open(3))?;
    wanted(out, "Lift(1)", o, lift(1))?;
    wanted(out, "stopped at column 3 of 2", o, Place::Stopped(3))?;
    wanted(out, "stopped", o, Place::Stopped(1))?;
    wanted(out, "done", o, Place::Done)
}

fn wanted_counters(
    out: &impl Print,
    words: &str,
    place: Place,
    mask: u64,
    nonzero: u64,
) -> io::Result<()> {
    let o = order(16, 2, 2);
    wanted_of(out, words, with(o, place, taken(mask, nonzero)))
}

fn wanted_of_counters(out: &impl Print) -> io::Result<()> {
    let words = "Check(1) with a nonzero draw too many";
    wanted_counters(out, words, check(1), 7, 1)?;
    let words = "Check(1) with 2^64-1 twice";
    wanted_counters(out, words, check(1), LARGEST, LARGEST)?;
    let words = "done, a mask draw too few";
    wanted_counters(out, words, Place::Done, 35, 2)?;
    let words = "stopped at 1, without its Check";
    wanted_counters(out, words, Place::Stopped(1), 7, 0)?;
    wanted_counters(out, "Mix(2,2)", mix(2, 2), LARGEST, 0)
}

fn wanted_on_list(out: &impl Print) -> io::Result<()> {
    let o = order(16, 2, 2);
    wanted(out, "Mix, accepted", o, mix(1, 2))?;
    wanted(out, "Check, accepted", o, check(2))?;
    wanted(out, "Scale, accepted", o, scale(1))?;
    wanted(out, "Clear, accepted", o, clear(1, 2))?;
    wanted(out, "Open, accepted", o, open(2))?;
    wanted(out, "Lift, accepted", o, lift(2))
}

fn steps_of_counters(out: &impl Print) -> io::Result<()> {
    counters_of_steps(out)?;
    counters_of_others(out)?;
    counters_of_ends(out)?;
    counters_beside_others(out)
}

fn wants(out: &impl Print) -> io::Result<()> {
    wanted_of_sizes(out)?;
    wanted_off_list(out)?;
    wanted_of_counters(out)?;
    wanted_on_list(out)
}

fn main(rt: HostRuntime) -> io::Result<()> {
    steps_of_sizes(&rt)?;
    steps_of_buffers(&rt)?;
    steps_off_list(&rt)?;
    steps_at_end(&rt)?;
    steps_of_entries(&rt)?;
    checks_of_lengths(&rt)?;
    scales_of_lengths(&rt)?;
    scales_of_both(&rt)?;
    scales_of_draws(&rt)?;
    scales_beyond_one(&rt)?;
    steps_accepted(&rt)?;
    steps_accepted_at_end(&rt)?;
    mixes_of_two(&rt)?;
    scales_of_two(&rt)?;
    clears_of_two(&rt)?;
    lifts_of_two(&rt)?;
    steps_of_counters(&rt)?;
    wants(&rt)
}

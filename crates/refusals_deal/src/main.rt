// The program refusals_deal: lends start, counts, deal and gather bad input, every refusal of each and the orders of two that apply
// together, and prints each call, its answer, and what was lent before and after. Stands on solver, and on show to print.
// Bytes are printed in hex after their buffer's length, other numbers in decimal.
// The lists of calls are short: what a check of a function costs grows faster than its length.
#![tactic(auto)]

use course::Order;
use show::Buffer;
use show::call::order;
use std::io;
use verdict::Refusal;

fn start(out: &impl Print, words: &str, o: Order) -> io::Result<()> {
    show::call::begin(out, "start", words)?;
    show::call::of_order(out, o)?;
    match solver::start(o.field, o.shares, o.size) {
        Ok(p) => print!(out; "fresh record {p}\n"),
        Err(r) => print!(out; "{r}\n"),
    }
}

fn counts(out: &impl Print, words: &str, o: Order) -> io::Result<()> {
    show::call::begin(out, "counts", words)?;
    show::call::of_order(out, o)?;
    show::say(out, &solver::counts(o.field, o.shares, o.size))?;
    print!(out; "\n")
}

fn show_deal(out: &impl Print, values: &[u8], table: &[u8], mask: &[u8]) -> io::Result<()> {
    print!(out;
        "values {}table {}mask {}",
        Buffer(values),
        Buffer(table),
        Buffer(mask)
    )
}

fn begin_deal(
    out: &impl Print,
    words: &str,
    o: Order,
    values: &[u8],
    table: &[u8],
    mask: &[u8],
) -> io::Result<()> {
    show::call::begin(out, "deal", words)?;
    show_deal(out, values, table, mask)?;
    show::call::of_order(out, o)
}

// Lends a copy of the table.
fn deal_in(
    o: Order,
    values: &[u8],
    table: &[u8],
    mask: &[u8],
    t: &mut [u8],
) -> Result<(), Refusal> {
    show::call::copy(table, t);
    solver::deal(o.field, o.shares, o.size, values, t, mask)
}

// The copy begins t.
fn end_deal(
    out: &impl Print,
    values: &[u8],
    table: &[u8],
    mask: &[u8],
    t: &[u8; 16],
) -> io::Result<()> {
    let u = &t[..];
    let k = table.len();
    if u.len() < k {
        return show::call::too_long(out);
    }
    show::call::after(out)?;
    show_deal(out, values, &u[0..k], mask)?;
    show::call::end(out, table == &u[0..k])
}

fn deal(
    out: &impl Print,
    words: &str,
    o: Order,
    values: &[u8],
    table: &[u8],
    mask: &[u8],
) -> io::Result<()> {
    let mut t = [0u8; 16];
    let k = table.len();
    if 16 < k {
        return show::call::too_long(out);
    }
    begin_deal(out, words, o, values, table, mask)?;
    let a = deal_in(o, values, table, mask, &mut t[0..k]);
    show::say(out, &a.map(|_| "filled"))?;
    end_deal(out, values, table, mask, &t)
}

fn show_gather(out: &impl Print, table: &[u8], values: &[u8]) -> io::Result<()> {
    print!(out; "table {}values {}", Buffer(table), Buffer(values))
}

fn begin_gather(
    out: &impl Print,
    words: &str,
    o: Order,
    table: &[u8],
    values: &[u8],
) -> io::Result<()> {
    show::call::begin(out, "gather", words)?;
    show_gather(out, table, values)?;
    show::call::of_order(out, o)
}

fn gather_in(o: Order, table: &[u8], values: &[u8], v: &mut [u8]) -> Result<(), Refusal> {
    show::call::copy(values, v);
    solver::gather(o.field, o.shares, o.size, table, v)
}

fn end_gather(out: &impl Print, table: &[u8], values: &[u8], v: &[u8; 8]) -> io::Result<()> {
    let u = &v[..];
    let k = values.len();
    if u.len() < k {
        return show::call::too_long(out);
    }
    show::call::after(out)?;
    show_gather(out, table, &u[0..k])?;
    show::call::end(out, values == &u[0..k])
}

fn gather(out: &impl Print, words: &str, o: Order, table: &[u8], values: &[u8]) -> io::Result<()> {
    let mut v = [0u8; 8];
    let k = values.len();
    if 8 < k {
        return show::call::too_long(out);
    }
    begin_gather(out, words, o, table, values)?;
    let a = gather_in(o, table, values, &mut v[0..k]);
    show::say(out, &a.map(|_| "filled"))?;
    end_gather(out, table, values, &v)
}

fn starts_refused(out: &impl Print) -> io::Result<()> {
    start(out, "field 7", order(7, 2, 1))?;
    start(
        out,
        "field 65552, which is 16 in its last 16 bits",
        order(65552, 2, 1),
    )?;
    start(
        out,
        "field 7 and shares 0: the field goes first",
        order(7, 0, 1),
    )?;
    start(out, "shares 0, a blank box", order(16, 0, 1))?;
    start(out, "shares 1", order(16, 1, 1))
}

fn starts(out: &impl Print) -> io::Result<()> {
    starts_refused(out)?;
    start(
        out,
        "shares 5 and size 97: the shares go first",
        order(256, 5, 97),
    )?;
    start(out, "size 0", order(16, 2, 0))?;
    start(out, "size 97", order(16, 2, 97))?;
    start(out, "one equation, accepted", order(16, 2, 1))?;
    start(out, "two equations, accepted", order(256, 4, 2))
}

fn countings(out: &impl Print) -> io::Result<()> {
    counts(out, "field 7", order(7, 2, 1))?;
    counts(out, "field 65552", order(65552, 2, 1))?;
    counts(out, "field 7 and shares 0", order(7, 0, 1))?;
    counts(out, "shares 0", order(16, 0, 1))?;
    counts(out, "shares 5", order(16, 5, 1))?;
    counts(out, "size 0", order(16, 2, 0))?;
    counts(out, "size 2^64-1", order(16, 2, show::call::LARGEST))?;
    counts(out, "the largest order, accepted", order(256, 4, 96))
}

// A value list that is good for one equation in two shares, and its target and tape.
fn deal_of(out: &impl Print, words: &str, o: Order) -> io::Result<()> {
    deal(out, words, o, &[2, 3], &[0xee; 4], &[0xd6, 0x59])
}

fn deals_of_sizes(out: &impl Print) -> io::Result<()> {
    deal_of(out, "field 7 and shares 0", order(7, 0, 1))?;
    deal_of(out, "shares 5", order(16, 5, 1))?;
    deal_of(out, "size 97", order(16, 2, 97))
}

// One equation in two shares over F16, with its tape.
fn deal_one(out: &impl Print, words: &str, values: &[u8], table: &[u8]) -> io::Result<()> {
    deal(out, words, order(16, 2, 1), values, table, &[0xd6, 0x59])
}

fn deals_of_lengths(out: &impl Print) -> io::Result<()> {
    let words = "three values where two are wanted";
    deal_one(out, words, &[2, 3, 4], &[0xee; 4])?;
    let words = "one value, and a target of 3 bytes: the values go first";
    deal_one(out, words, &[2], &[0xee; 3])?;
    let words = "a target of 3 bytes, and a large value";
    deal_one(out, words, &[2, 0x10], &[0xee; 3])?;
    deal_one(out, "a value of 16", &[2, 0x10], &[0xee; 4])
}

// The same with its target, and a tape to choose.
fn deal_with(out: &impl Print, words: &str, values: &[u8], mask: &[u8]) -> io::Result<()> {
    deal(out, words, order(16, 2, 1), values, &[0xee; 4], mask)
}

fn deals_of_draws(out: &impl Print) -> io::Result<()> {
    let words = "both values large, and no mask byte: the first value";
    deal_with(out, words, &[0xff, 0x10], &[])?;
    let words = "one mask byte where two are wanted";
    deal_with(out, words, &[2, 3], &[0xd6])
}

// Two equations in two shares over F16, and a tape that is short: 6 goes before 7.
fn deal_two(out: &impl Print, words: &str, values: &[u8]) -> io::Result<()> {
    deal(out, words, order(16, 2, 2), values, &[0xee; 12], &[0xd6])
}

fn deals_of_two(out: &impl Print) -> io::Result<()> {
    let words = "two equations, and the last value is 16";
    deal_two(out, words, &[0, 1, 5, 1, 0, 0x10])?;
    let words = "and the first value of row 2 is 255";
    deal_two(out, words, &[0, 1, 5, 0xff, 0, 0x10])
}

fn deals_accepted(out: &impl Print) -> io::Result<()> {
    deal_of(out, "accepted", order(16, 2, 1))?;
    let words = "a mask byte of 0x10, accepted";
    deal_with(out, words, &[2, 3], &[0xd6, 0x10])?;
    let words = "a longer tape, accepted";
    deal_with(out, words, &[2, 3], &[0xd6, 0x59, 0])?;
    let words = "large values in F256, accepted";
    deal(
        out,
        words,
        order(256, 2, 1),
        &[0x57, 0xc1],
        &[0xee; 4],
        &[0xd6, 0x10],
    )
}

fn gather_of(out: &impl Print, words: &str, o: Order) -> io::Result<()> {
    gather(out, words, o, &show::call::TABLE, &show::call::BLANK)
}

fn gathers_of_sizes(out: &impl Print) -> io::Result<()> {
    gather_of(out, "field 65552", order(65552, 2, 1))?;
    gather_of(out, "shares 1", order(16, 1, 1))?;
    gather_of(out, "size 0", order(16, 2, 0))
}

fn gathers_of_lengths(out: &impl Print) -> io::Result<()> {
    let o = order(16, 2, 1);
    let words = "a table of 3 bytes, and one place for values";
    gather(out, words, o, &[4, 6, 10], &[0xee])?;
    let words = "one place for values, and a large byte";
    gather(out, words, o, &[4, 6, 0x10, 9], &[0xee])?;
    let words = "a byte of 16 in the table";
    gather(out, words, o, &[4, 6, 0x10, 9], &show::call::BLANK)
}

// Two equations in two shares over F16, with places for their values.
fn gather_two(out: &impl Print, words: &str, table: &[u8]) -> io::Result<()> {
    gather(out, words, order(16, 2, 2), table, &[0xee; 6])
}

fn gathers_of_two(out: &impl Print) -> io::Result<()> {
    let words = "two equations, and the last byte is 16";
    gather_two(out, words, &[4, 4, 4, 5, 10, 15, 3, 2, 10, 10, 15, 0x10])?;
    let words = "and the second share of row 1, column 3 is 255";
    gather_two(out, words, &[4, 4, 4, 5, 10, 0xff, 3, 2, 10, 10, 15, 0x10])
}

fn gathers_accepted(out: &impl Print) -> io::Result<()> {
    let o = order(256, 2, 1);
    gather_of(out, "accepted", order(16, 2, 1))?;
    let words = "bytes of 16 and more in F256, accepted";
    gather(out, words, o, &[0x57, 0x83, 0x10, 9], &show::call::BLANK)
}

fn main(rt: HostRuntime) -> io::Result<()> {
    starts(&rt)?;
    countings(&rt)?;
    deals_of_sizes(&rt)?;
    deals_of_lengths(&rt)?;
    deals_of_draws(&rt)?;
    deals_of_two(&rt)?;
    deals_accepted(&rt)?;
    gathers_of_sizes(&rt)?;
    gathers_of_lengths(&rt)?;
    gathers_of_two(&rt)?;
    gathers_accepted(&rt)
}

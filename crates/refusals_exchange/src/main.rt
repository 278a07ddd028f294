// The program refusals_exchange: lends exchange::write and exchange::read bad input, every refusal of both and the orders of two or more that
// apply together, and records that are taken, and prints each call, its answer, and what was lent before and after; of an input that is read
// also the stretch that exchange::table_in hands on. Stands on exchange, and on show to print.
// Bytes are printed in hex after their buffer's length, other numbers in decimal.
// The lists of calls are short: what a check of a function costs grows faster than its length.
#![tactic(auto)]

use exchange::System;
use show::call::{LARGEST, order};
use show::{Buffer, Hex};
use std::io;
use verdict::Refusal;

// R-3's record: F16, two shares, size 1, and the table 1, 2, 3, 4.
const R: [u8; 23] =
    *b"\x01\x00\x02\x00\x10\x02\x00\x01\x02\x03\x00\x01\x01\x04\x00\x04\x01\x02\x03\x04\xff\x00\x00";

const TABLE: [u8; 4] = [1, 2, 3, 4];

fn say_reading(out: &impl Print, a: Result<System, Refusal>) -> io::Result<()> {
    match a {
        Ok(s) => {
            let o = order(s.field, s.shares, s.size);
            print!(out; "{o}, length {}", s.length)
        }
        Err(r) => print!(out; "{r}"),
    }
}

// ---- write

fn show_write(out: &impl Print, table: &[u8], target: &[u8]) -> io::Result<()> {
    print!(out; "table {}target {}", Buffer(table), Buffer(target))
}

fn begin_write(
    out: &impl Print,
    words: &str,
    field: u64,
    shares: u64,
    size: u64,
    table: &[u8],
    target: &[u8],
) -> io::Result<()> {
    show::call::begin(out, "write", words)?;
    show_write(out, table, target)?;
    show::call::of_order(out, order(field, shares, size))
}

// The target is the front of x. The table is the one that was lent: the call only reads it.
fn end_write(out: &impl Print, table: &[u8], before: &[u8], x: &[u8; 32]) -> io::Result<()> {
    let y = &x[..];
    let k = before.len();
    if y.len() < k {
        return show::call::too_long(out);
    }
    show::call::after(out)?;
    show_write(out, table, &y[0..k])?;
    show::call::end(out, before == &y[0..k])
}

// Lends a target of so many bytes.
fn write(
    out: &impl Print,
    words: &str,
    field: u64,
    shares: u64,
    size: u64,
    table: &[u8],
    target: usize,
) -> io::Result<()> {
    let mut x = [0xeeu8; 32];
    let blank = [0xeeu8; 32];
    if 32 < target {
        return show::call::too_long(out);
    }
    begin_write(out, words, field, shares, size, table, &blank[0..target])?;
    let a = exchange::write(field, shares, size, table, &mut x[0..target]);
    show::say(out, &a.map(|_| "written"))?;
    end_write(out, table, &blank[0..target], &x)
}

// The table and the target are good for these numbers where they are 16 or 256, 2 and 1.
fn write_of(out: &impl Print, words: &str, field: u64, shares: u64, size: u64) -> io::Result<()> {
    write(out, words, field, shares, size, &TABLE, 23)
}

fn writes_of_numbers(out: &impl Print) -> io::Result<()> {
    write_of(out, "field 0", 0, 2, 1)?;
    write_of(out, "field 17", 17, 2, 1)?;
    let words = "field 65552, which is 16 in its last 16 bits";
    write_of(out, words, 65552, 2, 1)?;
    write_of(out, "shares 0", 16, 0, 1)?;
    write_of(out, "shares 1", 16, 1, 1)?;
    write_of(out, "shares 5", 16, 5, 1)?;
    write_of(out, "shares 2^64-1", 16, LARGEST, 1)
}

fn writes_of_sizes(out: &impl Print) -> io::Result<()> {
    write_of(out, "size 0", 16, 2, 0)?;
    write_of(out, "size 97", 16, 2, 97)?;
    let words = "size 257, which is 1 in its last byte";
    write_of(out, words, 16, 2, 257)?;
    write_of(out, "size 2^64-1", 16, 2, LARGEST)
}

fn write_one(out: &impl Print, words: &str, table: &[u8], target: usize) -> io::Result<()> {
    write(out, words, 16, 2, 1, table, target)
}

fn writes_of_lengths(out: &impl Print) -> io::Result<()> {
    write_one(
        out,
        "a table of three bytes where four are wanted",
        &[1, 2, 3],
        23,
    )?;
    write_one(
        out,
        "a table of five bytes where four are wanted",
        &[1, 2, 3, 4, 5],
        23,
    )?;
    write_one(out, "no table", &[], 23)?;
    write_one(out, "a target of 22 bytes where 23 are wanted", &TABLE, 22)?;
    write_one(out, "a target of 24 bytes where 23 are wanted", &TABLE, 24)?;
    write_one(out, "no target", &TABLE, 0)
}

fn writes_of_bytes(out: &impl Print) -> io::Result<()> {
    write_one(out, "a byte of 16 in the first place", &[16, 2, 3, 4], 23)?;
    write_one(out, "a byte of 16 in the last place", &[1, 2, 3, 16], 23)?;
    let words = "bytes of 255 and 16: the first place of the two";
    write_one(out, words, &[1, 255, 16, 4], 23)?;
    let words = "the same bytes in F256, accepted";
    write(out, words, 256, 2, 1, &[1, 255, 16, 4], 23)
}

fn orders_of_write(out: &impl Print) -> io::Result<()> {
    write(out, "all six: the field", 7, 1, 97, &[16], 22)?;
    write(out, "2 to 6: the shares", 16, 1, 97, &[16], 22)?;
    write(out, "3 to 6: the size", 16, 2, 97, &[16], 22)?;
    write(out, "4 to 6: the table's length", 16, 2, 1, &[16], 22)?;
    write(
        out,
        "5 and 6: the target's length",
        16,
        2,
        1,
        &[16, 2, 3, 4],
        22,
    )
}

fn writes_accepted(out: &impl Print) -> io::Result<()> {
    write_one(out, "R-3's record", &TABLE, 23)?;
    let words = "F256 in four shares";
    write(
        out,
        words,
        256,
        4,
        1,
        &[255, 254, 253, 252, 16, 17, 18, 19],
        27,
    )?;
    let words = "F16 in two shares, two equations";
    write(
        out,
        words,
        16,
        2,
        2,
        &[1, 2, 3, 4, 5, 6, 7, 8, 9, 10, 11, 12],
        31,
    )
}

// ---- read

fn read(out: &impl Print, words: &str, input: &[u8]) -> io::Result<()> {
    show::call::begin(out, "read", words)?;
    print!(out; "input {}:{}", input.len(), Hex(input))?;
    show::call::middle(out)?;
    say_reading(out, exchange::read(input))?;
    show::call::after(out)?;
    print!(out; "table {}", Buffer(exchange::table_in(input)))?;
    print!(out; "the input is only read\n")
}

fn read_first(out: &impl Print, words: &str, input: &[u8], length: usize) -> io::Result<()> {
    if input.len() < length {
        return show::call::too_long(out);
    }
    read(out, words, &input[0..length])
}

// R's first bytes.
fn read_cut(out: &impl Print, words: &str, length: usize) -> io::Result<()> {
    read_first(out, words, &R, length)
}

fn set(x: [u8; 23], at: usize, byte: u8) -> [u8; 23] {
    let mut y = x;
    if at < 23 {
        y[at] = byte;
    }
    y
}

// R with one byte changed, or with two.
fn read_changed(out: &impl Print, words: &str, at: usize, byte: u8) -> io::Result<()> {
    let x = set(R, at, byte);
    read(out, words, &x[..])
}

fn read_twice(
    out: &impl Print,
    words: &str,
    at: usize,
    byte: u8,
    then: usize,
    other: u8,
) -> io::Result<()> {
    let x = set(R, at, byte);
    let y = set(x, then, other);
    read(out, words, &y[..])
}

fn reads_cut(out: &impl Print) -> io::Result<()> {
    read_cut(out, "no byte", 0)?;
    read_cut(out, "the first tag alone", 1)?;
    read_cut(out, "half of the first length", 2)?;
    read_cut(out, "half of the field's number", 4)?;
    read_cut(out, "the first field alone", 5)?;
    read_cut(out, "two fields", 9)
}

fn reads_cut_later(out: &impl Print) -> io::Result<()> {
    read_cut(out, "three fields", 13)?;
    read_cut(out, "the table's tag and length", 16)?;
    read_cut(out, "all but the table's last byte", 19)?;
    read_cut(out, "all but the end", 20)?;
    read_cut(out, "all but the last byte", 22)
}

fn reads_of_tags(out: &impl Print) -> io::Result<()> {
    read_changed(out, "tag 0 in the first place", 0, 0)?;
    read_changed(out, "tag 3 in the place of 2", 5, 3)?;
    read_changed(out, "tag 2 once more, in the place of 3", 9, 2)?;
    read_changed(out, "tag 5 in the place of 4", 13, 5)?;
    read_changed(out, "tag 254 in the place of 255", 20, 254)?;
    let x = set(R, 13, 5);
    read(
        out,
        "tag 5 in the place of 4, and cut right after it",
        &x[0..14],
    )
}

fn reads_of_lengths(out: &impl Print) -> io::Result<()> {
    read_changed(out, "a field's number of one byte", 2, 1)?;
    read_changed(out, "a field's number of 258 bytes", 1, 1)?;
    read_changed(out, "shares of two bytes", 7, 2)?;
    read_changed(out, "a size of no byte", 11, 0)?;
    read_changed(out, "a table of all that is left", 15, 7)?;
    read_changed(out, "a table of one byte more than is left", 15, 8)
}

fn reads_of_more_lengths(out: &impl Print) -> io::Result<()> {
    read_changed(out, "a table that ends early", 15, 3)?;
    read_changed(out, "a table of 65,284 bytes", 14, 255)?;
    read_changed(out, "an end of one byte", 22, 1)?;
    read_changed(out, "an end of 256 bytes", 21, 1)
}

fn reads_after_the_end(out: &impl Print) -> io::Result<()> {
    let input =
        b"\x01\x00\x02\x00\x10\x02\x00\x01\x02\x03\x00\x01\x01\x04\x00\x04\x01\x02\x03\x04\xff\x00\x00\x00";
    read(out, "one byte after the end", input)?;
    let input =
        b"\x01\x00\x02\x00\x10\x02\x00\x01\x02\x03\x00\x01\x01\x04\x00\x04\x01\x02\x03\x04\xff\x00\x00\xff\x00\x00";
    read(out, "the end twice", input)?;
    let input =
        b"\x01\x00\x02\x00\x11\x02\x00\x01\x02\x03\x00\x01\x01\x04\x00\x04\x01\x02\x03\x04\xff\x00\x00\x00";
    let words = "field 17, and one byte after the end: that goes first";
    read(out, words, input)
}

fn reads_of_numbers(out: &impl Print) -> io::Result<()> {
    read_changed(out, "field 17", 4, 17)?;
    read_changed(out, "field 272", 3, 1)?;
    read_changed(out, "shares 1", 8, 1)?;
    read_changed(out, "shares 5", 8, 5)?;
    read_changed(out, "size 0", 12, 0)?;
    read_changed(out, "size 97", 12, 97)
}

fn reads_of_tables(out: &impl Print) -> io::Result<()> {
    read_changed(out, "three shares in a table of four bytes", 8, 3)?;
    read_changed(out, "size 2 with a table of four bytes", 12, 2)?;
    read_changed(out, "size 96 with a table of four bytes", 12, 96)?;
    read_changed(out, "a byte of 16 in the table's first place", 16, 16)?;
    read_changed(out, "a byte of 16 in share 1 of column 2", 18, 16)?;
    read_changed(out, "a byte of 16 in the table's last place", 19, 16)
}

fn orders_of_read(out: &impl Print) -> io::Result<()> {
    read_twice(out, "16 before 17 of a later field", 0, 2, 7, 2)?;
    read_twice(out, "17 before 16 of a later field", 2, 1, 5, 3)?;
    read_twice(out, "16 of the end before 1", 20, 254, 4, 17)?;
    read_twice(out, "1 before 2", 4, 17, 8, 1)?;
    read_twice(out, "2 before 3", 8, 5, 12, 97)?;
    read_twice(out, "3 before 4 and 6", 12, 97, 16, 16)?;
    read_twice(out, "4 before 6", 8, 3, 16, 16)
}

// What is written of two equations in F16 in two shares.
fn read_written(out: &impl Print, words: &str, table: &[u8]) -> io::Result<()> {
    let mut x = [0u8; 31];
    match exchange::write(16, 2, 2, table, &mut x) {
        Ok(()) => read(out, words, &x),
        Err(_) => Ok(()),
    }
}

fn reads_accepted(out: &impl Print) -> io::Result<()> {
    read_cut(out, "R-3's record", 23)?;
    read_twice(out, "the same in F256", 3, 1, 4, 0)?;
    let table = [1, 2, 3, 4, 5, 6, 7, 8, 9, 10, 11, 12];
    read_written(out, "F16 in two shares, two equations", &table[..])
}

fn main(rt: HostRuntime) -> io::Result<()> {
    writes_of_numbers(&rt)?;
    writes_of_sizes(&rt)?;
    writes_of_lengths(&rt)?;
    writes_of_bytes(&rt)?;
    orders_of_write(&rt)?;
    writes_accepted(&rt)?;
    reads_cut(&rt)?;
    reads_cut_later(&rt)?;
    reads_of_tags(&rt)?;
    reads_of_lengths(&rt)?;
    reads_of_more_lengths(&rt)?;
    reads_after_the_end(&rt)?;
    reads_of_numbers(&rt)?;
    reads_of_tables(&rt)?;
    orders_of_read(&rt)?;
    reads_accepted(&rt)
}

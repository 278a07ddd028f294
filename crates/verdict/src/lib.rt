// What the checks of the calls have in common: 01's table of refusals, with R-2's details and the numbers of R-3, R-5, R-7 and R-8, the checks
// 1 to 9, 14, 15 and 21, and how checks follow each other. Stands on field. Nothing lent is written, and bytes are looked at only where the
// length is right.
#![tactic(auto)]

ghost use Rattle.std.specs.Prelude.{◌≡◌, [], ◌∷◌, ◌+◌, ◌*◌, ◌/◌, ◌%◌, ◌<◌, ◌≤◌, length, take, position};
ghost use Rattle.verdict.specs.Told.{line, when, refuse, refused, ◌or◌};
ghost use Rattle.verdict.specs.Cells.{cell, three, cell_at, NonEmpty};
ghost use Rattle.verdict.specs.Refusals.{paper, report_of, outside, first_place, too_large, zero_draw, no1, no2, no3, no4, no5, no6, no7, no8, no9, no14, no15, no21, numbers, buffers, exactly, at_least};
ghost use Rattle.verdict.specs.Code.Verdicts.{told};
ghost use Rattle.verdict.specs.Code.Scan.{some_bits, column_bits, block_bits, blocks_bits, TellsSmall};

use std::error::Error;
use std::fmt;

// Where an entry's byte stands: its row, its column and its share, each from 1. Share 0 says that it is of no single share.
#[derive(Clone, Copy, Debug, PartialEq, Eq)]
pub struct Cell {
    pub row: u64,
    pub column: u64,
    pub share: u64,
}

// What the bytes that a call reads are, in rows of `width` entries: sharings of so many bytes each, or values, which have no shares.
#[derive(Clone, Copy, Debug, PartialEq, Eq)]
pub enum Rows {
    Shared { shares: usize, width: usize },
    Values { width: usize },
}

// 01's table of refusals, with each one's detail.
#[derive(Clone, Copy, Debug, PartialEq, Eq)]
pub enum Refusal {
    // 1: the field's number
    Field(u64),
    // 2: the number of shares
    Shares(u64),
    // 3: the size
    Size(u64),
    // 4 and 5: the length wanted
    Input(usize),
    Target(usize),
    // 6: the first one
    Entry(Cell),
    // 7 and 8: the length wanted
    MaskShort(usize),
    NonzeroShort(usize),
    // 9: the first place
    ZeroDraw(usize),
    // 10 and 11
    OffList,
    Ended,
    // 12: the pivot
    ZeroPivot(Cell),
    // 14 and 15: the length wanted
    MaskLong(usize),
    NonzeroLong(usize),
    // 16 and 17: the first offset of the record's field
    BadTag(usize),
    CutField(usize),
    // 18: the first byte after
    PastEnd(usize),
    // 19
    Counters,
    // 20: the j of the Lift
    LiftByte(u64),
    // 21: the columns
    Columns(u64),
}

// A refusal as numbers: 01's number, and its detail; what the detail has not is 0.
// stays: numbers for kinds: 01's number of a refusal, and 0 for no single share, are those of hostozaro.h and of `report_of`.
#[derive(Clone, Copy, Debug, PartialEq, Eq)]
pub struct Report {
    pub number: u64,
    pub a: u64,
    pub b: u64,
    pub c: u64,
}

fn with_detail(number: u64, a: u64) -> Report
    ensures { result ≡ report_of (line number (a ∷ [])) }
{
    Report {
        number,
        a,
        b: 0,
        c: 0,
    }
}

fn with_cell(number: u64, c: Cell) -> Report
    ensures { result ≡ report_of (line number (three c)) }
{
    Report {
        number,
        a: c.row,
        b: c.column,
        c: c.share,
    }
}

impl Refusal {
    // The paper's number of a refusal, and its detail: all that prints or hands on a refusal asks here.
    pub fn report(self) -> Report
        ensures { result ≡ report_of (paper self) }
    {
        match self {
            Refusal::Field(q) => with_detail(1, q),
            Refusal::Shares(n) => with_detail(2, n),
            Refusal::Size(m) => with_detail(3, m),
            Refusal::Input(wanted) => with_detail(4, wanted as u64),
            Refusal::Target(wanted) => with_detail(5, wanted as u64),
            Refusal::Entry(c) => with_cell(6, c),
            Refusal::MaskShort(wanted) => with_detail(7, wanted as u64),
            Refusal::NonzeroShort(wanted) => with_detail(8, wanted as u64),
            Refusal::ZeroDraw(place) => with_detail(9, place as u64),
            Refusal::OffList => with_detail(10, 0),
            Refusal::Ended => with_detail(11, 0),
            Refusal::ZeroPivot(c) => with_cell(12, c),
            Refusal::MaskLong(wanted) => with_detail(14, wanted as u64),
            Refusal::NonzeroLong(wanted) => with_detail(15, wanted as u64),
            Refusal::BadTag(at) => with_detail(16, at as u64),
            Refusal::CutField(at) => with_detail(17, at as u64),
            Refusal::PastEnd(at) => with_detail(18, at as u64),
            Refusal::Counters => with_detail(19, 0),
            Refusal::LiftByte(j) => with_detail(20, j),
            Refusal::Columns(c) => with_detail(21, c),
        }
    }
}

// A number and its detail, as the programs print them.
impl fmt::Display for Refusal {
    fn fmt<W: fmt::Write>(&self, f: &mut fmt::Formatter<W>) -> fmt::Result {
        let r = self.report();
        write!(f, "refused {}", r.number)?;
        match self {
            Refusal::Entry(_) | Refusal::ZeroPivot(_) => {
                write!(f, ", row {}, column {}, share {}", r.a, r.b, r.c)
            }
            _ => write!(f, ", detail {}", r.a),
        }
    }
}

impl Error for Refusal {}

// r where the test holds.
// stays: the bool is a test's outcome, and chooses between a refusal and none.
pub fn refuse_if(applies: bool, r: Refusal) -> Result<(), Refusal>
    ensures { told result ≡ when applies (refused (paper r)) }
{
    if applies { Err(r) } else { Ok(()) }
}

pub fn is_outside(low: u64, high: u64, x: u64) -> bool
    ensures { result ≡ outside low high x }
{
    x < low || high < x
}

// ---- 1 to 9, 14, 15 and 21

pub fn no1(field: u64) -> Result<(), Refusal>
    ensures { told result ≡ no1 field }
{
    refuse_if(field != 16 && field != 256, Refusal::Field(field))
}

// shares below 2 or above 4
pub fn no2(shares: u64) -> Result<(), Refusal>
    ensures { told result ≡ no2 shares }
{
    refuse_if(is_outside(2, 4, shares), Refusal::Shares(shares))
}

// size below 1 or above 96
pub fn no3(size: u64) -> Result<(), Refusal>
    ensures { told result ≡ no3 size }
{
    refuse_if(is_outside(1, sharing::MOST_ROWS, size), Refusal::Size(size))
}

// input table or value list of wrong length
// stays: here and below a function for each number of 01's table, though two differ in the refusal alone: specs/Refusals names them so.
pub fn no4(wanted: usize, length: usize) -> Result<(), Refusal>
    ensures { told result ≡ no4 wanted length }
{
    refuse_if(length != wanted, Refusal::Input(wanted))
}

// solution or target of wrong length
pub fn no5(wanted: usize, length: usize) -> Result<(), Refusal>
    ensures { told result ≡ no5 wanted length }
{
    refuse_if(length != wanted, Refusal::Target(wanted))
}

pub fn is_too_large(f: u64, x: u8) -> bool
    ensures { result ≡ too_large f x }
{
    f == 16 && 16 <= x
}

// The bits that some byte has: below 16 where each byte is.
fn some_bits(s: &[u8]) -> u8
    ensures { result ≡ some_bits s.now }
{
    let mut v: u8 = 0;
    for x in s {
        v |= *x;
    }
    v
}

// The bits that some of eight bytes has, which stand sixteen apart.
// stays: by blocks and lanes and not `all`, so that the compiler takes sixteen bytes at once (docs/SPEED.md, F16's look at the table).
fn column_bits(s: &[u8], at: usize) -> u8
    requires { at + 113 ≤ length s.now }
    ensures { result ≡ column_bits s.now at }
{
    let mut v: u8 = 0;
    for i in 0..8usize {
        v |= s[at + i * 16];
    }
    v
}

// A block of 128 bytes joins the sixteen lanes. Every step looks at the whole table, and here the compiler takes sixteen bytes at once and 128 a turn.
fn join_block(lanes: &mut [u8], s: &[u8], at: usize)
    requires { (length lanes.old ≡ 16) × (at + 128 ≤ length s.now) }
    ensures { lanes.new ≡ block_bits s.now at lanes.old }
{
    for (q, lane) in lanes.iter_mut().enumerate() {
        *lane |= column_bits(s, at + q);
    }
}

fn join_blocks(lanes: &mut [u8], s: &[u8], blocks: usize)
    requires { (length lanes.old ≡ 16) × (blocks * 128 ≤ length s.now) }
    ensures { lanes.new ≡ blocks_bits s.now blocks lanes.old }
{
    for u in 0..blocks {
        join_block(lanes, s, u * 128);
    }
}

// Whether each byte is below 16. What the blocks leave over is in the last 128 bytes, which so join twice.
fn all_small(s: &[u8]) -> bool
    ensures { TellsSmall result s.now }
{
    let len = s.len();
    if len < 128 {
        return some_bits(s) < 16;
    }
    let mut lanes = [0u8; 16];
    join_block(&mut lanes[..], s, len - 128);
    join_blocks(&mut lanes[..], s, len / 128);
    some_bits(&lanes[..]) < 16
}

// The first place whose byte is no element of the field.
fn first_too_large(f: u64, s: &[u8]) -> Option<usize>
    ensures { result ≡ position (too_large f) s.now }
{
    if f == 16 && all_small(s) {
        return None;
    }
    s.iter().position(|x| is_too_large(f, *x))
}

// The cell of an entry, from 0, in rows of this width, with its share.
fn cell_in(width: usize, entry: usize, share: u64) -> Cell
    requires { (1 ≤ width) × (entry < 18446744073709551615) }
    ensures { result ≡ cell (entry / width + 1) (entry % width + 1) share }
{
    let row = (entry / width) as u64 + 1;
    let column = (entry % width) as u64 + 1;
    Cell { row, column, share }
}

// The cell of the byte at a place, from 0.
#[inline(always)]
fn cell_at(rows: Rows, place: usize) -> Cell
    requires non_empty { NonEmpty rows }
    requires place_bound { place < 18446744073709551615 }
    ensures { result ≡ cell_at rows place }
{
    match rows {
        Rows::Shared { shares, width } => {
            let entry = place / shares;
            let share = (place % shares) as u64 + 1;
            cell_in(width, entry, share)
        }
        Rows::Values { width } => cell_in(width, place, 0),
    }
}

// entry 16 or more in F16. In line, as cell_at is, and with the place seen to be below the length: so a caller's row and column are worked out with
// numbers that the compiler knows to be small, and a board's archive asks for no division of 64 bits.
#[inline(always)]
pub fn no6(f: u64, rows: Rows, input: &[u8]) -> Result<(), Refusal>
    requires { NonEmpty rows }
    ensures { told result ≡ no6 f rows input.now }
{
    match first_too_large(f, input) {
        Some(place) if place < input.len() => Err(Refusal::Entry(cell_at(rows, place))),
        _ => Ok(()),
    }
}

// mask tape too short
pub fn no7(wanted: usize, length: usize) -> Result<(), Refusal>
    ensures { told result ≡ no7 wanted length }
{
    refuse_if(length < wanted, Refusal::MaskShort(wanted))
}

// nonzero tape too short
pub fn no8(wanted: usize, length: usize) -> Result<(), Refusal>
    ensures { told result ≡ no8 wanted length }
{
    refuse_if(length < wanted, Refusal::NonzeroShort(wanted))
}

// in a step, mask tape too long
pub fn no14(wanted: usize, length: usize) -> Result<(), Refusal>
    ensures { told result ≡ no14 wanted length }
{
    refuse_if(wanted < length, Refusal::MaskLong(wanted))
}

// in a step, nonzero tape too long
pub fn no15(wanted: usize, length: usize) -> Result<(), Refusal>
    ensures { told result ≡ no15 wanted length }
{
    refuse_if(wanted < length, Refusal::NonzeroLong(wanted))
}

fn is_zero_draw(f: u64, x: u8) -> bool
    ensures { result ≡ zero_draw f x }
{
    field::draw(f, x) == 0
}

// The first place whose draw is 0.
fn first_zero_draw(f: u64, s: &[u8]) -> Option<usize>
    ensures { result ≡ position (zero_draw f) s.now }
{
    s.iter().position(|x| is_zero_draw(f, *x))
}

pub fn no9(f: u64, draws: &[u8]) -> Result<(), Refusal>
    ensures { told result ≡ no9 f draws.now }
{
    match first_zero_draw(f, draws) {
        Some(place) => Err(Refusal::ZeroDraw(place)),
        None => Ok(()),
    }
}

// wide: columns below the rows or above 144
pub fn no21(rows: u64, columns: u64) -> Result<(), Refusal>
    ensures { told result ≡ no21 rows columns }
{
    refuse_if(is_outside(rows, 144, columns), Refusal::Columns(columns))
}

// ---- how they follow each other

// 1 to 3
pub fn numbers(field: u64, shares: u64, size: u64) -> Result<(), Refusal>
    ensures { told result ≡ numbers field shares size }
{
    no1(field)?;
    no2(shares)?;
    no3(size)
}

// 4 to 6, of what is read, and of what is written
pub fn buffers(
    f: u64,
    rows: Rows,
    wanted: usize,
    input: &[u8],
    target: usize,
    length: usize,
) -> Result<(), Refusal>
    requires { NonEmpty rows }
    ensures { told result ≡ buffers f rows wanted input.now target length }
{
    no4(wanted, input.len())?;
    no5(target, length)?;
    no6(f, rows, input)
}

// 7, 14, 8, 15, 9: a step wants exactly so many draws of each tape.
// stays: two numbers, here and in at_least: Draws is of course, which stands above.
pub fn exactly(
    field: u64,
    wanted_mask: usize,
    wanted_nonzero: usize,
    mask: usize,
    nonzero: &[u8],
) -> Result<(), Refusal>
    ensures { told result ≡ exactly field wanted_mask wanted_nonzero mask nonzero.now }
{
    no7(wanted_mask, mask)?;
    no14(wanted_mask, mask)?;
    no8(wanted_nonzero, nonzero.len())?;
    no15(wanted_nonzero, nonzero.len())?;
    no9(field, nonzero)
}

// The first k bytes of s, or all of them where there are fewer.
fn front(s: &[u8], k: usize) -> &[u8]
    ensures { result.now ≡ take k s.now }
{
    if k <= s.len() { &s[..k] } else { s }
}

// 7 to 9: a whole solve wants at least so many.
pub fn at_least(
    field: u64,
    wanted_mask: usize,
    wanted_nonzero: usize,
    mask: usize,
    nonzero: &[u8],
) -> Result<(), Refusal>
    ensures { told result ≡ at_least field wanted_mask wanted_nonzero mask nonzero.now }
{
    no7(wanted_mask, mask)?;
    no8(wanted_nonzero, nonzero.len())?;
    no9(field, front(nonzero, wanted_nonzero))
}

// The six steps on a lent table, share for share as 01's step list says, with Open in two by R-7 of 02. Stands on row, flag and sharing.
// A shape says of what field a table is and how it is laid out; the step works on the table in place and on copies of what it reads
// twice. mask and nonzero are parts of the two tapes that begin at the step's own first draw and are at least as long as it needs.
#![tactic(auto)]

ghost use Rattle.std.specs.Prelude.{◌≡◌, ◌+◌, ◌-◌, ◌*◌, ◌≤◌, Bool, true, false, eqb, length};
ghost use Rattle.field.specs.Field.{field_of, sub};
ghost use Rattle.sharing.specs.Run.{pairs};
ghost use Rattle.sharing.specs.Lists.{joined};
ghost use Rattle.sharing.specs.Rules.{blinded_value};
ghost use Rattle.sharing.specs.Bounds.{most_width, most_columns, most_draws, row_room};
ghost use Rattle.table.specs.Layout.{Fits, Laid, Shaped, Inside, cell, entry, columns_from};
ghost use Rattle.table.specs.Steps.{signed, join_row, join_rows, mix, check, scale_all, scale, clear, unknown_at, lift_turn, lift};
ghost use Rattle.table.specs.Code.Refreshing.{refresh_row};
ghost use Rattle.table.specs.Code.Joining.{join_part};
ghost use Rattle.table.specs.Costs.{mix_cost, check_cost, scale_cost, scale_nonzero, clear_cost, open_cost};

use sharing::Factors;

// A table's field, the shares of an entry, the rows, and the entries of a row.
#[derive(Clone, Copy, Debug, PartialEq, Eq)]
pub struct Shape {
    pub field: u64,
    pub shares: usize,
    pub rows: usize,
    pub columns: usize,
}

// Whether a row gains or loses what is joined to it.
pub trait Sign {
    ghost minus: { Bool };

    fn apply(f: u64, a: u8, b: u8) -> u8
        ensures { result ≡ signed (field_of f) minus a b };
}

pub struct Plus;

impl Sign for Plus {
    ghost minus = { false };

    fn apply(f: u64, a: u8, b: u8) -> u8 {
        field::add(f, a, b)
    }
}

pub struct Minus;

impl Sign for Minus {
    ghost minus = { true };

    fn apply(f: u64, a: u8, b: u8) -> u8 {
        field::sub(f, a, b)
    }
}

// The first byte of row r, column c.
pub fn cell(shape: Shape, r: usize, c: usize) -> usize
    requires fits { Fits shape.shares shape.rows shape.columns }
    requires inside { Inside shape.rows shape.columns r c }
    ensures { result ≡ cell shape.shares shape.columns r c }
{
    ((r - 1) * shape.columns + (c - 1)) * shape.shares
}

// s += or -= v, share by share.
pub fn join<S: Sign>(f: u64, s: &mut [u8], v: &[u8])
    requires { length v.now ≡ length s.old }
    ensures { s.new ≡ joined (signed (field_of f) S.minus) s.old v.now }
{
    // stays: v by its index and no `zip`: a proof knows no element of s once a loop over a `zip` with its `iter_mut` is over.
    for (i, x) in s.iter_mut().enumerate() {
        *x = S::apply(f, *x, v[i]);
    }
}

// A row from some column on: row += or -= Product(factor, other row), as if column by column. Mix and Clear spend their time here. What
// is behind the columns of the other row is room to work in.
// stays: f and n here and below, and no shape: a row is of no table, and row::product takes f and n alone.
fn join_row<S: Sign>(
    f: u64,
    n: usize,
    columns: usize,
    row: &mut [u8],
    other: &mut [u8],
    factor: &[u8],
    mask: &[u8],
)
    requires le_n { (2 ≤ n) × (n ≤ 4) × (1 ≤ columns) × (columns ≤ most_width) × (length factor.now ≡ n) }
    requires row_len { (length row.old ≡ columns * n) × (length other.old ≡ row_room) × (columns * pairs n ≤ length mask.now) }
    ensures { row.new ≡ join_row (field_of f) S.minus n columns mask.now factor.now other.old row.old }
{
    row::product(f, n, columns, other, factor, mask);
    let len = row.len();
    join::<S>(f, row, &other[..len]);
}

// At most as many columns as `row` has room for: those from byte p on += or -= Product(factor, those from byte o on). The latter are copied,
// so that the two are separate slices below.
fn join_part<S: Sign>(
    f: u64,
    n: usize,
    columns: usize,
    table: &mut [u8],
    factor: &[u8],
    p: usize,
    o: usize,
    mask: &[u8],
)
    requires le_n { (2 ≤ n) × (n ≤ 4) × (1 ≤ columns) × (columns ≤ most_width) × (length factor.now ≡ n) × (columns * pairs n ≤ length mask.now) }
    requires n_in_bounds { (p + columns * n ≤ length table.old) × (o + columns * n ≤ length table.old) }
    ensures { table.new ≡ join_part (field_of f) S.minus n columns p o factor.now mask.now table.old }
{
    let len = columns * n;
    let mut other = [0u8; row::ROW_ROOM];
    sharing::copy_into(&mut other[..len], &table[o..o + len]);
    join_row::<S>(
        f,
        n,
        columns,
        &mut table[p..p + len],
        &mut other[..],
        factor,
        mask,
    );
}

// Row a += or -= Product(factor, row b), from column j on. Of more columns than `row` has room for, those behind the first come first: so the
// last call serves every row.
fn join_rows<S: Sign>(
    shape: Shape,
    table: &mut [u8],
    factor: &[u8],
    a: usize,
    b: usize,
    j: usize,
    mask: &[u8],
)
    requires shaped { Shaped shape table.old }
    requires inside { Inside shape.rows shape.columns a j × Inside shape.rows shape.columns b j }
    requires factor_len { (length factor.now ≡ shape.shares) × (columns_from shape.columns j * pairs shape.shares ≤ length mask.now) }
    ensures { table.new ≡ join_rows (field_of shape.field) S.minus shape.shares shape.columns a b j factor.now mask.now table.old }
{
    let f = shape.field;
    let n = shape.shares;
    let columns = shape.columns + 1 - j;
    let p = cell(shape, a, j);
    let o = cell(shape, b, j);
    let mut k = columns;
    if sharing::MOST_WIDTH < columns {
        k = sharing::MOST_WIDTH;
        let len = k * n;
        let d = k * sharing::pair_count(n);
        join_part::<S>(
            f,
            n,
            columns - k,
            table,
            factor,
            p + len,
            o + len,
            &mask[d..],
        );
    }
    join_part::<S>(f, n, k, table, factor, p, o, mask);
}

// Mix(j,k), where row r takes column j's pivot.
pub fn mix(shape: Shape, table: &mut [u8], r: usize, j: usize, k: usize, mask: &[u8])
    requires shaped { Shaped shape table.old }
    requires inside { Inside shape.rows shape.columns r j × Inside shape.rows shape.columns k j }
    requires draws { mix_cost shape.field shape.shares (columns_from shape.columns j) ≤ length mask.now }
    ensures { table.new ≡ mix shape.field shape.shares shape.columns r j k mask.now table.old }
{
    let f = shape.field;
    let n = shape.shares;
    let pivot = cell(shape, r, j);
    let d = flag::flag_draws(f, n);
    // stays: without a heap a copy of n shares is the front of an array of four, here and in check, clear, open and lift_row.
    let mut flag = [0u8; 4];
    flag::zero_flag(f, &mut flag[..n], &table[pivot..pivot + n], mask);
    join_rows::<Plus>(shape, table, &flag[..n], r, k, j, &mask[d..]);
}

// Check(j): 1 where the pivot's value is 0, and 0 otherwise.
// stays: 1 or 0 is the byte that the flag opens to, as 01's Check and `check` (specs/Steps.antt) have it, and so in word_table and in solver.
pub fn check(shape: Shape, table: &[u8], r: usize, j: usize, mask: &[u8]) -> u8
    requires shaped { Shaped shape table.now }
    requires inside { Inside shape.rows shape.columns r j }
    requires draws { check_cost shape.field shape.shares ≤ length mask.now }
    ensures { result ≡ check shape.field shape.shares shape.columns r j mask.now table.now }
{
    let f = shape.field;
    let n = shape.shares;
    let p = cell(shape, r, j);
    let d = flag::flag_draws(f, n);
    let mut flag = [0u8; 4];
    flag::zero_flag(f, &mut flag[..n], &table[p..p + n], mask);
    sharing::opening(f, &mut flag[..n], &mask[d..])
}

// Each entry of n shares refreshed, columns in order.
fn refresh_columns<const N: usize>(f: u64, columns: usize, row: &mut [u8], mask: &[u8])
    requires le_n { (2 ≤ N) × (N ≤ 4) × (columns ≤ most_columns) }
    requires row_len { (length row.old ≡ columns * N) × (columns * (N - 1) ≤ length mask.now) }
    ensures { row.new ≡ refresh_row (field_of f) N columns mask.now row.old }
{
    // stays: no `chunks_exact_mut`: a proof knows no share of the row once a loop over its chunks is over.
    for u in 0..columns {
        let p = u * N;
        let d = u * (N - 1);
        sharing::refresh(f, &mut row[p..p + N], &mask[d..]);
    }
}

// The number of shares is a constant of each call, so that the compiler unrolls the loop over shares.
fn refresh_row(f: u64, n: usize, columns: usize, row: &mut [u8], mask: &[u8])
    requires le_n { (2 ≤ n) × (n ≤ 4) × (columns ≤ most_columns) }
    requires row_len { (length row.old ≡ columns * n) × (columns * (n - 1) ≤ length mask.now) }
    ensures { row.new ≡ refresh_row (field_of f) n columns mask.now row.old }
{
    match n {
        2 => refresh_columns::<2>(f, columns, row, mask),
        3 => refresh_columns::<3>(f, columns, row, mask),
        _ => refresh_columns::<4>(f, columns, row, mask),
    }
}

// Each factor in order: the whole row times it, then each entry refreshed, as if column by column. The last factor is the inverse of what was
// opened, and it alone may choose a row of the table of products.
fn scale_all(f: u64, columns: usize, row: &mut [u8], factors: Factors, mask: &[u8])
    requires le_n { (2 ≤ factors.n) × (factors.n ≤ 4) × (columns ≤ most_columns) }
    requires row_len { (length row.old ≡ columns * factors.n) × (factors.n * (columns * (factors.n - 1)) ≤ length mask.now) }
    ensures { row.new ≡ scale_all (field_of f) factors.n columns factors.f mask.now row.old }
{
    let n = factors.n;
    let list = factors.f;
    let last = n - 1;
    let turn = columns * last;
    for (i, z) in list[..last].iter().enumerate() {
        let d = i * turn;
        sharing::scale(f, row, *z);
        refresh_row(f, n, columns, row, &mask[d..]);
    }
    let d = last * turn;
    sharing::scale_opened(f, row, list[last]);
    refresh_row(f, n, columns, row, &mask[d..]);
}

// Scale(j), where row r takes column j's pivot.
pub fn scale(shape: Shape, table: &mut [u8], r: usize, j: usize, nonzero: &[u8], mask: &[u8])
    requires shaped { Shaped shape table.old }
    requires inside { Inside shape.rows shape.columns r j }
    requires draws { (scale_cost shape.shares (columns_from shape.columns j) ≤ length mask.now) × (scale_nonzero shape.shares ≤ length nonzero.now) }
    ensures { table.new ≡ scale shape.field shape.shares shape.columns r j nonzero.now mask.now table.old }
{
    let f = shape.field;
    let n = shape.shares;
    let columns = shape.columns + 1 - j;
    let len = columns * n;
    let p = cell(shape, r, j);
    let d = sharing::inversion_draws(n);
    let factors = sharing::inversion(f, &table[p..p + n], nonzero, mask);
    scale_all(f, columns, &mut table[p..p + len], factors, &mask[d..]);
}

// Whether the inversion of T[r,j] opens 0: where no nonzero draw is 0, whether the pivot's value is 0. The table is only read.
pub fn opens_zero(
    shape: Shape,
    table: &[u8],
    r: usize,
    j: usize,
    nonzero: &[u8],
    mask: &[u8],
) -> bool
    requires shaped { Shaped shape table.now }
    requires inside { Inside shape.rows shape.columns r j }
    requires draws { (scale_cost shape.shares (columns_from shape.columns j) ≤ length mask.now) × (scale_nonzero shape.shares ≤ length nonzero.now) }
    ensures { result ≡ eqb (blinded_value (field_of shape.field) nonzero.now mask.now (entry shape.shares shape.columns r j table.now)) 0 }
{
    let p = cell(shape, r, j);
    sharing::blinded_value(shape.field, &table[p..p + shape.shares], nonzero, mask) == 0
}

// Clear(j,k), where row r takes column j's pivot.
pub fn clear(shape: Shape, table: &mut [u8], r: usize, j: usize, k: usize, mask: &[u8])
    requires shaped { Shaped shape table.old }
    requires inside { Inside shape.rows shape.columns r j × Inside shape.rows shape.columns k j }
    requires draws { clear_cost shape.shares (columns_from shape.columns j) ≤ length mask.now }
    ensures { table.new ≡ clear shape.field shape.shares shape.columns r j k mask.now table.old }
{
    let n = shape.shares;
    let p = cell(shape, k, j);
    let mut copy = [0u8; 4];
    sharing::copy_into(&mut copy[..n], &table[p..p + n]);
    join_rows::<Minus>(shape, table, &copy[..n], k, r, j, mask);
}

// Open: what stands in row r's last column, opened on a copy.
pub fn open(shape: Shape, table: &[u8], r: usize, mask: &[u8]) -> u8
    requires shaped { Shaped shape table.now }
    requires inside { Inside shape.rows shape.columns r shape.columns }
    requires draws { open_cost shape.shares ≤ length mask.now }
    ensures { result ≡ unknown_at shape.field shape.shares shape.columns r mask.now table.now }
{
    let n = shape.shares;
    let p = cell(shape, r, shape.columns);
    let mut copy = [0u8; 4];
    sharing::copy_into(&mut copy[..n], &table[p..p + n]);
    sharing::opening(shape.field, &mut copy[..n], mask)
}

// T[i+1,w] -= x·T[i+1,j], share by share.
fn lift_row(shape: Shape, table: &mut [u8], j: usize, x: u8, i: usize)
    requires laid { Laid shape table.old }
    requires inside { Inside shape.rows shape.columns (i + 1) j }
    ensures { table.new ≡ lift_turn (field_of shape.field) shape.shares shape.columns j x i table.old }
{
    let f = shape.field;
    let n = shape.shares;
    let o = cell(shape, i + 1, j);
    let p = cell(shape, i + 1, shape.columns);
    let mut copy = [0u8; 4];
    sharing::copy_into(&mut copy[..n], &table[o..o + n]);
    sharing::scale_opened(f, &mut copy[..n], x);
    join::<Minus>(f, &mut table[p..p + n], &copy[..n]);
}

// Lift: the rows above row r lose x times their entry of column j.
pub fn lift(shape: Shape, table: &mut [u8], r: usize, j: usize, x: u8)
    requires laid { Laid shape table.old }
    requires inside { Inside shape.rows shape.columns r j }
    ensures { table.new ≡ lift shape.field shape.shares shape.columns r j x table.old }
{
    // stays: as in refresh_columns, no `chunks_exact_mut` for the rows.
    for i in 0..r - 1 {
        lift_row(shape, table, j, x, i);
    }
}

// The costs of the steps, in 01's closed form; l is the number of columns from j on.
// stays: n and its two bounds in each: a shape would ask more of course and pattern, which have no table at hand.
pub fn mix_cost(f: u64, n: usize, l: usize) -> usize
    requires { (2 ≤ n) × (n ≤ 4) × (l ≤ most_columns) }
    ensures { (result ≡ mix_cost f n l) × (result ≤ most_draws) }
{
    flag::flag_draws(f, n) + l * sharing::pair_count(n)
}

pub fn check_cost(f: u64, n: usize) -> usize
    requires { (2 ≤ n) × (n ≤ 4) }
    ensures { (result ≡ check_cost f n) × (result ≤ most_draws) }
{
    flag::flag_draws(f, n) + sharing::pair_count(n)
}

pub fn scale_cost(n: usize, l: usize) -> usize
    requires { (2 ≤ n) × (n ≤ 4) × (l ≤ most_columns) }
    ensures { (result ≡ scale_cost n l) × (result ≤ most_draws) }
{
    sharing::inversion_draws(n) + n * (n - 1) * l
}

pub fn clear_cost(n: usize, l: usize) -> usize
    requires { (2 ≤ n) × (n ≤ 4) × (l ≤ most_columns) }
    ensures { (result ≡ clear_cost n l) × (result ≤ most_draws) }
{
    l * sharing::pair_count(n)
}

pub fn open_cost(n: usize) -> usize
    requires { (2 ≤ n) × (n ≤ 4) }
    ensures { (result ≡ open_cost n) × (result ≤ most_draws) }
{
    sharing::pair_count(n)
}

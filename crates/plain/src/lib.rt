// The plain engine, an unmasked twin of the solver for the laboratory (R-1): ordinary elimination with exchange of rows, on values in row
// order. NOT FOR SECRETS: its branches and its addresses depend on the values. Stands on table and verdict.
// The entry call is `solve`: it takes any numbers and any slices, does all its own checking, and promises by one equation its answer and every
// lent byte. The values are copied and only read; the copy is a table of m rows and m + 1 columns, one byte an entry.
#![tactic(auto)]

ghost use Rattle.std.specs.Prelude.{◌≡◌, ◌+◌, ◌-◌, ◌≤◌, length, take};
ghost use Rattle.sharing.specs.Bounds.{most_rows};
ghost use Rattle.table.specs.Layout.{Inside, cell, row_from, put_row};
ghost use Rattle.verdict.specs.Calls.{gives, after};
ghost use Rattle.verdict.specs.Code.Verdicts.{told};
ghost use Rattle.plain.specs.Elimination.{seek, exchange, scale, clear, clear_below, column, eliminate, unknowns};
ghost use Rattle.plain.specs.Calls.{answer, plain_says, plain_order, plain_does, plain_call, Tells};
ghost use Rattle.plain.specs.Code.Worked.{Stands, shape_of, one_of, worked_as};

use table::{Minus, Shape};
use verdict::{Refusal, Rows};

const MOST_ENTRIES: usize = (sharing::MOST_ROWS as usize) * sharing::MOST_WIDTH;

// What the solve has come to: the solution, or a column that has no pivot.
#[derive(Clone, Copy, Debug, PartialEq, Eq)]
pub enum Ending {
    Solved,
    Stopped(u64),
}

// A square system of values: its field, and its equations. Its table has that many rows, a column more, and one byte an entry.
// stays: (d) the table is lent beside it; where a Square held it, each step would have to promise that the field and the size are as before
#[derive(Clone, Copy, Debug, PartialEq, Eq)]
struct Square {
    field: u64,
    size: usize,
}

impl Square {
    fn shape(self) -> Shape
        requires { self.size ≤ most_rows }
        ensures { result ≡ shape_of self }
    {
        Shape {
            field: self.field,
            shares: 1,
            rows: self.size,
            columns: self.size + 1,
        }
    }

    // The byte of row r, column c.
    fn cell(self, r: usize, c: usize) -> usize
        requires { (self.size ≤ most_rows) × Inside self.size (self.size + 1) r c }
        ensures { result ≡ cell 1 (self.size + 1) r c }
    {
        table::cell(self.shape(), r, c)
    }

    // The first row from row j down that has a pivot for column j.
    fn seek(self, t: &[u8], j: usize) -> Option<usize>
        requires { Stands self t.now × Inside self.size self.size j j }
        ensures { result ≡ one_of self.size (seek (self.size + 1) j t.now (self.size + 1 - j) j) }
    {
        for r in j..=self.size {
            if t[self.cell(r, j)] != 0 {
                return Some(r);
            }
        }
        None
    }

    // A copy of row r from column j on, at the front of an array that has room for any row.
    // stays: (a) fixed memory: of an array, with no heap, the caller takes the row's part
    fn row_from(self, t: &[u8], r: usize, j: usize) -> [u8; sharing::MOST_WIDTH]
        requires { Stands self t.now × Inside self.size self.size r j }
        ensures { take (self.size + 2 - j) result ≡ row_from 1 (self.size + 1) r j t.now }
    {
        let len = self.size + 2 - j;
        let p = self.cell(r, j);
        let mut row = [0u8; sharing::MOST_WIDTH];
        row[..len].copy_from_slice(&t[p..p + len]);
        row
    }

    fn put_row(self, t: &mut [u8], r: usize, j: usize, row: &[u8])
        requires { Stands self t.old × Inside self.size self.size r j × (length row.now ≡ self.size + 2 - j) }
        ensures { t.new ≡ put_row 1 (self.size + 1) r j row.now t.old }
    {
        let p = self.cell(r, j);
        t[p..p + row.len()].copy_from_slice(row);
    }

    // Rows a and b change places, from column j on.
    // stays: (d) two copies: split_at_mut and swap_with_slice would want a and b in order, and apart from a = b
    fn exchange(self, t: &mut [u8], a: usize, b: usize, j: usize)
        requires { Stands self t.old × Inside self.size self.size a j × Inside self.size self.size b j }
        ensures { t.new ≡ exchange (self.size + 1) a b j t.old }
    {
        let columns = self.size + 2 - j;
        let row_a = self.row_from(&t[..], a, j);
        let row_b = self.row_from(&t[..], b, j);
        self.put_row(t, a, j, &row_b[..columns]);
        self.put_row(t, b, j, &row_a[..columns]);
    }

    // Row j times the inverse of its pivot.
    fn scale(self, t: &mut [u8], j: usize)
        requires { Stands self t.old × Inside self.size self.size j j }
        ensures { t.new ≡ scale self.field (self.size + 1) j t.old }
    {
        let f = self.field;
        let len = self.size + 2 - j;
        let p = self.cell(j, j);
        let z = field::inverse(f, t[p]);
        sharing::scale_opened(f, &mut t[p..p + len], z);
    }

    // Row k loses T[k,j] times row j. Nothing is secret here, so the factor may choose a row of the table of products.
    fn clear(self, t: &mut [u8], j: usize, k: usize)
        requires { Stands self t.old × Inside self.size self.size j j × Inside self.size self.size k j }
        ensures { t.new ≡ clear self.field (self.size + 1) j k t.old }
    {
        let f = self.field;
        let len = self.size + 2 - j;
        let p = self.cell(k, j);
        let z = t[p];
        let mut row = self.row_from(&t[..], j, j);
        sharing::scale_opened(f, &mut row[..len], z);
        table::join::<Minus>(f, &mut t[p..p + len], &row[..len]);
    }

    fn clear_below(self, t: &mut [u8], j: usize)
        requires { Stands self t.old × Inside self.size self.size j j }
        ensures { t.new ≡ clear_below self.field self.size j t.old }
    {
        for k in j + 1..=self.size {
            self.clear(t, j, k);
        }
    }

    // Column j, whose pivot was found in row k.
    #[tactic(auto, unfolding(crate::specs::Elimination::column))]
    fn column(self, t: &mut [u8], j: usize, k: usize)
        requires { Stands self t.old × Inside self.size self.size j j × Inside self.size self.size k j }
        ensures { t.new ≡ column self.field self.size j k t.old }
    {
        self.exchange(t, j, k, j);
        self.scale(t, j);
        self.clear_below(t, j);
    }

    // Column after column: the first that has no pivot, or none.
    fn eliminate(self, t: &mut [u8]) -> Option<usize>
        requires { Stands self t.old }
        ensures { worked_as result t.new ≡ eliminate self.field self.size self.size 1 t.old }
    {
        for j in 1..=self.size {
            let Some(k) = self.seek(&t[..], j) else {
                return Some(j);
            };
            self.column(t, j, k);
        }
        None
    }

    // Back substitution, from the last unknown to the first.
    fn unknowns(self, t: &mut [u8], solution: &mut [u8])
        requires { Stands self t.old × (length solution.old ≡ self.size) }
        ensures { solution.new ≡ unknowns self.field self.size self.size t.old solution.old }
    {
        for j in (1..=self.size).rev() {
            let x = t[self.cell(j, self.size + 1)];
            solution[j - 1] = x;
            table::lift(self.shape(), t, j, j, x);
        }
    }

    // The solve on the copy of the values.
    fn work(self, t: &mut [u8], solution: &mut [u8]) -> Ending
        requires { Stands self t.old × (length solution.old ≡ self.size) }
        ensures { after (gives (answer result)) solution.new ≡ plain_does self.field self.size t.old solution.old }
    {
        match self.eliminate(t) {
            None => {
                self.unknowns(t, solution);
                Ending::Solved
            }
            Some(j) => {
                solution.fill(0);
                Ending::Stopped(j as u64)
            }
        }
    }
}

// 1, 3, 4, 5, 6
fn check(field: u64, size: u64, values: &[u8], length: usize) -> Result<(), Refusal>
    ensures { told result ≡ plain_order field size values.now length }
{
    verdict::no1(field)?;
    verdict::no3(size)?;
    let m = size as usize;
    let rows = Rows::Values { width: m + 1 };
    verdict::buffers(field, rows, m * (m + 1), values, m, length)
}

// The plain solve. The first promise fixes the answer and every lent byte; the second says what the answer means.
pub fn solve(field: u64, size: u64, values: &[u8], solution: &mut [u8]) -> Result<Ending, Refusal>
    ensures outcome { after (plain_says result) solution.new ≡ plain_call field size values.now solution.old }
    ensures meaning { Tells field size values.now (plain_says result) solution.new }
{
    check(field, size, values, solution.len())?;
    let mut copy = [0u8; MOST_ENTRIES];
    let t = &mut copy[..values.len()];
    t.copy_from_slice(values);
    let square = Square {
        field,
        size: size as usize,
    };
    Ok(square.work(t, solution))
}

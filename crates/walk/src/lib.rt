// The work behind the public calls, after their checks: one step of the list, the whole solve as a walk over the list, dealing and gathering.
// Stands on course and table.
#![tactic(auto)]

ghost use Rattle.std.specs.Prelude.{true, ◌≡◌, ◌+◌, ◌-◌, ◌*◌, ◌≤◌, length};
ghost use Rattle.field.specs.Field.{field_of};
ghost use Rattle.sharing.specs.Run.{tab};
ghost use Rattle.sharing.specs.Rules.{draw_at};
ghost use Rattle.sharing.specs.Bounds.{most_entries};
ghost use Rattle.table.specs.Layout.{Shaped, table_bytes};
ghost use Rattle.course.specs.StepList.{Sizes, in_list, column_of, cost_in, mask_cost, nonzero_cost, full_mask, full_nonzero};
ghost use Rattle.walk.specs.Act.{held, Row, OtherRow, step_opens, step_leaves, opened, acted};
ghost use Rattle.walk.specs.Walk.{leaves, solved};
ghost use Rattle.walk.specs.Dealing.{dealt_entry, dealt, gathered};

use course::{Counts, Order, Place, Progress, Step};
use table::Shape;

// How a solve ends, with the steps, mask draws and nonzero draws taken.
#[derive(Clone, Copy, Debug, PartialEq, Eq)]
pub enum Ending {
    Solved(Counts),
    Stopped(u64, Counts),
}

// Does one step where row r takes its column's pivot, on rows of w columns, and returns the number that it opened, 0 where it opens none.
// stays: 0 where a step opens none, as step_opens and opened (specs/Act.antt) say, by which the theorems of trace go.
pub fn perform(
    shape: Shape,
    r: usize,
    s: Step,
    table: &mut [u8],
    solution: &mut [u8],
    mask: &[u8],
    nonzero: &[u8],
) -> u8
    requires shaped { Shaped shape table.old }
    requires row { Row shape.rows r × OtherRow shape.rows s }
    requires bound { (1 ≤ column_of s) × (column_of s + 1 ≤ shape.columns) × (column_of s ≤ length solution.old) }
    requires s_in_bounds { let cost = cost_in shape.field shape.shares shape.columns s in (cost.mask ≤ length mask.now) × (cost.nonzero ≤ length nonzero.now) }
    ensures value { result ≡ step_opens shape.field shape.shares shape.columns r s mask.now (held table.old solution.old) }
    ensures solution_after { held table.new solution.new
        ≡ step_leaves shape.field shape.shares shape.columns r s mask.now nonzero.now (held table.old solution.old) }
{
    match s {
        Step::Mix { j, k } => {
            table::mix(shape, table, r, j as usize, k as usize, mask);
            0
        }
        Step::Check(j) => table::check(shape, table, r, j as usize, mask),
        Step::Scale(j) => {
            table::scale(shape, table, r, j as usize, nonzero, mask);
            0
        }
        Step::Clear { j, k } => {
            table::clear(shape, table, r, j as usize, k as usize, mask);
            0
        }
        Step::Open(j) => {
            let x = table::open(shape, table, r, mask);
            solution[j as usize - 1] = x;
            x
        }
        Step::Lift(j) => {
            let c = j as usize;
            table::lift(shape, table, r, c, solution[c - 1]);
            0
        }
    }
}

// Does one step of the list, and returns the number that it opened, 0 where it opens none.
// stays: the tapes, the table and the solution one by one, here and in solve, as the calls of solver and of C lend them.
pub fn act(
    o: Order,
    s: Step,
    table: &mut [u8],
    solution: &mut [u8],
    mask: &[u8],
    nonzero: &[u8],
) -> u8
    requires sizes { Sizes o }
    requires s_value { in_list o.size s ≡ true }
    requires table_len { (length table.old ≡ table_bytes o.shares o.size (o.size + 1)) × (length solution.old ≡ o.size) }
    requires s_in_bounds { (mask_cost o s ≤ length mask.now) × (nonzero_cost o s ≤ length nonzero.now) }
    ensures value { result ≡ opened o s mask.now (held table.old solution.old) }
    ensures solution_after { held table.new solution.new ≡ acted o s mask.now nonzero.now (held table.old solution.old) }
{
    let m = o.size as usize;
    let r = course::column_of(s) as usize;
    let shape = Shape {
        field: o.field,
        shares: o.shares as usize,
        rows: m,
        columns: m + 1,
    };
    perform(shape, r, s, table, solution, mask, nonzero)
}

// The whole solve.
pub fn solve(o: Order, table: &mut [u8], solution: &mut [u8], mask: &[u8], nonzero: &[u8]) -> Ending
    requires sizes { Sizes o }
    requires table_len { (length table.old ≡ table_bytes o.shares o.size (o.size + 1)) × (length solution.old ≡ o.size) }
    requires o_in_bounds { (full_mask o ≤ length mask.now) × (full_nonzero o ≤ length nonzero.now) }
    ensures { leaves result table.new solution.new ≡ solved o mask.now nonzero.now (held table.old solution.old) }
{
    let mut p = Progress::start(o);
    let mut steps: usize = 0;
    // stays: wide_walk::solve's twin: one walk over a trait needs a ghost member and a law for all that the two definitions differ in, to save ten lines.
    loop {
        let counts = Counts {
            steps,
            mask: p.mask as usize,
            nonzero: p.nonzero as usize,
        };
        match p.place {
            Place::At(s) => {
                let x = act(
                    o,
                    s,
                    table,
                    solution,
                    &mask[counts.mask..],
                    &nonzero[counts.nonzero..],
                );
                p = p.next(s, x);
                steps += 1;
            }
            Place::Stopped(j) => {
                sharing::wipe(solution);
                return Ending::Stopped(j, counts);
            }
            Place::Done => return Ending::Solved(counts),
        }
    }
}

// Shares 2..n are draws, in order.
// stays: by the index, as in table::join.
fn draw_shares(f: u64, e: &mut [u8], mask: &[u8])
    requires { length e.old ≤ length mask.now }
    ensures { e.new ≡ tab (length e.old) (draw_at (field_of f) mask.now) }
{
    for (s, x) in e.iter_mut().enumerate() {
        *x = field::draw(f, mask[s]);
    }
}

// One value into its n shares.
fn deal_entry(f: u64, e: &mut [u8], v: u8, mask: &[u8])
    requires { (2 ≤ length e.old) × (length e.old - 1 ≤ length mask.now) }
    ensures { e.new ≡ dealt_entry (field_of f) (length e.old) mask.now v }
{
    draw_shares(f, &mut e[1..], mask);
    let d = sharing::sum(f, &e[1..]);
    e[0] = field::sub(f, v, d);
}

// Deals all values, in row order.
pub fn deal(f: u64, n: usize, table: &mut [u8], values: &[u8], mask: &[u8])
    requires le_n { (2 ≤ n) × (n ≤ 4) × (length values.now ≤ most_entries) }
    requires table_len { (length table.old ≡ length values.now * n) × (length values.now * (n - 1) ≤ length mask.now) }
    ensures { table.new ≡ dealt f n (length values.now) values.now mask.now table.old }
{
    // stays: no `chunks_exact_mut`: once its borrows are over, a proof knows the length of the table and none of its bytes.
    for (i, v) in values.iter().enumerate() {
        let p = i * n;
        let d = i * (n - 1);
        deal_entry(f, &mut table[p..p + n], *v, &mask[d..]);
    }
}

// Gathers all values, in row order.
pub fn gather(f: u64, n: usize, table: &[u8], values: &mut [u8])
    requires le_n { (2 ≤ n) × (n ≤ 4) × (length values.old ≤ most_entries) }
    requires table_len { length table.now ≡ length values.old * n }
    ensures { values.new ≡ gathered f n (length values.old) table.now }
{
    // stays: no `zip` with `chunks_exact`: once such a loop is over, a proof knows the length of the values and none of them.
    for (i, v) in values.iter_mut().enumerate() {
        let p = i * n;
        *v = sharing::sum(f, &table[p..p + n]);
    }
}

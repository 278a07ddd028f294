// The checks of the public calls: the order of each, with refusals 10 to 12, 19 and 20, which are about a progress record. Nothing lent is written.
ghost use Rattle.std.specs.Prelude.{◌≡◌, true, ◌&&◌, ◌≤◌, length};
ghost use Rattle.sharing.specs.Bounds.{most_rows, most_entries};
ghost use Rattle.course.specs.StepList.{Sizes};
ghost use Rattle.course.specs.Next.{order_of, counted};
ghost use Rattle.verdict.specs.Told.{passed, ◌or◌};
ghost use Rattle.verdict.specs.Refusals.{no7, no9, buffers};
ghost use Rattle.solver.specs.Refusals.{placed, ended, entries, whole_table, table_rows, value_rows, deal_draws, cost_at, mask_at, nonzero_at, no20, no12, sizes, deal_order, gather_order, tapes, solve_order, standing, wanted_order, placing, lending, step_order};
ghost use Rattle.verdict.specs.Code.Verdicts.{told};
ghost use Rattle.verdict.specs.Cells.{NonEmpty};

use course::{Draws, Order, Place, Progress, Step};
use table::Shape;
use verdict::{Cell, Refusal, Rows};

// 1 to 3
pub fn sizes(o: Order) -> Result<(), Refusal>
    ensures { told result ≡ sizes o }
{
    verdict::numbers(o.field, o.shares, o.size)
}

fn entry_count(m: u64) -> usize
    requires { m ≤ most_rows }
    ensures { (result ≡ entries m) × (result ≤ most_entries) }
{
    let k = m as usize;
    k * (k + 1)
}

fn whole_table(o: Order) -> usize
    requires { Sizes o }
    ensures { result ≡ whole_table o }
{
    entry_count(o.size) * (o.shares as usize)
}

fn table_rows(o: Order) -> Rows
    requires { Sizes o }
    ensures { (result ≡ table_rows o) × NonEmpty result }
{
    Rows::Shared {
        shares: o.shares as usize,
        width: o.size as usize + 1,
    }
}

fn value_rows(o: Order) -> Rows
    requires { Sizes o }
    ensures { (result ≡ value_rows o) × NonEmpty result }
{
    Rows::Values {
        width: o.size as usize + 1,
    }
}

fn deal_draws(o: Order) -> usize
    requires { Sizes o }
    ensures { result ≡ deal_draws o }
{
    entry_count(o.size) * (o.shares as usize - 1)
}

// 1 to 7
pub fn deal(o: Order, values: &[u8], target: usize, mask: usize) -> Result<(), Refusal>
    ensures { told result ≡ deal_order o values.now target mask }
{
    sizes(o)?;
    verdict::buffers(
        o.field,
        value_rows(o),
        entry_count(o.size),
        values,
        whole_table(o),
        target,
    )?;
    verdict::no7(deal_draws(o), mask)
}

// 1 to 6
pub fn gather(o: Order, table: &[u8], target: usize) -> Result<(), Refusal>
    ensures { told result ≡ gather_order o table.now target }
{
    sizes(o)?;
    verdict::buffers(
        o.field,
        table_rows(o),
        whole_table(o),
        table,
        entry_count(o.size),
        target,
    )
}

// 7 to 9
fn tapes(o: Order, mask: usize, nonzero: &[u8]) -> Result<(), Refusal>
    requires { Sizes o }
    ensures { told result ≡ tapes o mask nonzero.now }
{
    let full = course::full_counts(o);
    verdict::at_least(o.field, full.mask, full.nonzero, mask, nonzero)
}

// 1 to 9
pub fn solve(
    o: Order,
    table: &[u8],
    solution: usize,
    mask: usize,
    nonzero: &[u8],
) -> Result<(), Refusal>
    ensures { told result ≡ solve_order o table.now solution mask nonzero.now }
{
    sizes(o)?;
    verdict::buffers(
        o.field,
        table_rows(o),
        whole_table(o),
        table,
        o.size as usize,
        solution,
    )?;
    tapes(o, mask, nonzero)
}

fn is_placed(m: u64, p: Place) -> bool
    ensures { result ≡ placed m p }
{
    match p {
        Place::At(s) => course::in_list(m, s),
        Place::Stopped(j) => !verdict::is_outside(1, m, j),
        Place::Done => true,
    }
}

fn is_ended(p: Place) -> bool
    ensures { result ≡ ended p }
{
    matches!(p, Place::Stopped(_) | Place::Done)
}

// 10, 19, 11, of a record that is at a place of the list, and whose counters match it, or not.
fn standing(p: Progress, listed: bool, matched: bool) -> Result<(), Refusal>
    requires { (listed ≡ placed p.size p.place) × (matched ≡ listed && counted p) }
    ensures { told result ≡ standing p }
{
    if !listed {
        return Err(Refusal::OffList);
    }
    if !matched {
        return Err(Refusal::Counters);
    }
    verdict::refuse_if(is_ended(p.place), Refusal::Ended)
}

// 1, 2, 3, 10, 19, 11
pub fn wanted(p: Progress) -> Result<(), Refusal>
    ensures { told result ≡ wanted_order p }
{
    let o = p.order();
    sizes(o)?;
    // stays: (b) here and in placing: tried in standing, for both, the record goes through memory, and each call costs some 100 instructions more
    let listed = is_placed(p.size, p.place);
    let matched = listed
        && course::agrees(
            o,
            course::part_of(p.size as usize, p.place),
            p.mask,
            p.nonzero,
        );
    standing(p, listed, matched)
}

// 4, 5, 10, 19, 11
fn placing(p: Progress, table: usize, solution: usize) -> Result<(), Refusal>
    requires { Sizes (order_of p) }
    ensures { told result ≡ placing p table solution }
{
    let o = p.order();
    let m = p.size as usize;
    verdict::no4(whole_table(o), table)?;
    verdict::no5(m, solution)?;
    let listed = is_placed(p.size, p.place);
    let matched = listed && course::agrees(o, course::part_of(m, p.place), p.mask, p.nonzero);
    standing(p, listed, matched)
}

// The draws of a place.
pub fn cost_at(o: Order, p: Place) -> Draws
    requires sizes { Sizes o }
    requires p_value { placed o.size p ≡ true }
    ensures { result ≡ cost_at o p }
{
    match p {
        Place::At(s) => course::cost(o, s),
        Place::Stopped(_) | Place::Done => Draws {
            mask: 0,
            nonzero: 0,
        },
    }
}

// 7, 14, 8, 15, 9
fn lending(o: Order, p: Place, mask: usize, nonzero: &[u8]) -> Result<(), Refusal>
    requires sizes { Sizes o }
    requires p_value { placed o.size p ≡ true }
    ensures { told result ≡ lending o p mask nonzero.now }
{
    let cost = cost_at(o, p);
    verdict::exactly(o.field, cost.mask, cost.nonzero, mask, nonzero)
}

// 20: whether the byte that a Lift reads is no element.
fn no20(o: Order, p: Place, solution: &[u8]) -> Result<(), Refusal>
    requires p_value { placed o.size p ≡ true }
    requires solution_len { length solution.now ≡ o.size }
    ensures { told result ≡ no20 o p solution.now }
{
    let Place::At(Step::Lift(j)) = p else {
        return Ok(());
    };
    let x = solution[j as usize - 1];
    verdict::refuse_if(verdict::is_too_large(o.field, x), Refusal::LiftByte(j))
}

// 12: whether the pivot of a Scale is 0, by opening it blinded, on copies: the shares are never summed bare.
fn no12(o: Order, p: Place, table: &[u8], mask: &[u8], nonzero: &[u8]) -> Result<(), Refusal>
    requires sizes { Sizes o }
    requires p_value { placed o.size p ≡ true }
    requires table_len { length table.now ≡ whole_table o }
    requires p_in_bounds { (mask_at o p ≤ length mask.now) × (nonzero_at o p ≤ length nonzero.now) }
    requires nonzero_value { no9 o.field nonzero.now ≡ passed }
    ensures { told result ≡ no12 o p table.now }
{
    let Place::At(Step::Scale(j)) = p else {
        return Ok(());
    };
    let m = o.size as usize;
    let c = j as usize;
    let shape = Shape {
        field: o.field,
        shares: o.shares as usize,
        rows: m,
        columns: m + 1,
    };
    let zero = table::opens_zero(shape, table, c, c, nonzero, mask);
    verdict::refuse_if(
        zero,
        Refusal::ZeroPivot(Cell {
            row: j,
            column: j,
            share: 0,
        }),
    )
}

// 1 to 5, 10, 19, 11, 6, 7, 14, 8, 15, 9, 20, 12
pub fn step(
    p: Progress,
    table: &[u8],
    solution: &[u8],
    mask: &[u8],
    nonzero: &[u8],
) -> Result<(), Refusal>
    ensures { told result ≡ step_order p table.now solution.now (length mask.now) nonzero.now }
{
    let o = p.order();
    sizes(o)?;
    placing(p, table.len(), solution.len())?;
    verdict::no6(o.field, table_rows(o), table)?;
    lending(o, p.place, mask.len(), nonzero)?;
    no20(o, p.place, solution)?;
    no12(o, p.place, table, mask, nonzero)
}

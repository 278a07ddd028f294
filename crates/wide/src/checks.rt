// The checks of the wide calls: the order of each. Nothing lent is written.
// stays: solver's twin. A trait needs each part of R-8's orders and 01's as a ghost member, with a law of what its pass gives, and would share two bodies.
ghost use Rattle.std.specs.Prelude.{◌≡◌, true, ◌≤◌, length};
ghost use Rattle.pattern.specs.Pivots.{listed};
ghost use Rattle.pattern.specs.PatternList.{Sizes};
ghost use Rattle.pattern.specs.Next.{placed};
ghost use Rattle.verdict.specs.Told.{passed};
ghost use Rattle.verdict.specs.Refusals.{no9};
ghost use Rattle.verdict.specs.Code.Verdicts.{told};
ghost use Rattle.verdict.specs.Cells.{NonEmpty};
ghost use Rattle.wide.specs.WideRefusals.{no1, sizes, whole_table, table_rows, solve_order, cost_at, no20, no12, standing, wanted_order, step_order};

use course::{Draws, Step};
use pattern::{WideOrder, WidePlace, WideProgress};
use table::Shape;
use verdict::{Cell, Refusal, Rows};

#[tactic(auto, unfolding(crate::specs::WideRefusals::no1))]
fn no1(field: u64) -> Result<(), Refusal>
    ensures { told result ≡ no1 field }
{
    verdict::refuse_if(field != 16, Refusal::Field(field))
}

// 1, 2, 3, 21
pub fn sizes(o: WideOrder) -> Result<(), Refusal>
    ensures { told result ≡ sizes o }
{
    no1(o.field)?;
    verdict::no2(o.shares)?;
    verdict::no3(o.rows)?;
    verdict::no21(o.rows, o.columns)
}

// stays: Sizes and placed are asked as pattern and wide_walk ask them, of records with public fields; a type with an invariant would be unpacked at each call.
#[tactic(auto, unfolding(table::specs::Layout::table_bytes))]
fn whole_table(o: WideOrder) -> usize
    requires { Sizes o }
    ensures { result ≡ whole_table o }
{
    o.rows as usize * (o.columns as usize + 1) * (o.shares as usize)
}

fn table_rows(o: WideOrder) -> Rows
    requires { Sizes o }
    ensures { (result ≡ table_rows o) × NonEmpty result }
{
    Rows::Shared {
        shares: o.shares as usize,
        width: o.columns as usize + 1,
    }
}

// 1, 2, 3, 21, 4 to 9
pub fn solve(
    o: WideOrder,
    table: &[u8],
    solution: usize,
    mask: usize,
    nonzero: &[u8],
) -> Result<(), Refusal>
    ensures { told result ≡ solve_order o table.now solution mask nonzero.now }
{
    sizes(o)?;
    verdict::buffers(
        o.field,
        table_rows(o),
        whole_table(o),
        table,
        o.columns as usize,
        solution,
    )?;
    let d = pattern::wanted(o);
    verdict::at_least(o.field, d.mask, d.nonzero, mask, nonzero)
}

// 10, 19, 11
fn standing(p: WideProgress) -> Result<(), Refusal>
    requires { Sizes p.order }
    ensures { told result ≡ standing p }
{
    if !p.is_placed() {
        return Err(Refusal::OffList);
    }
    if !pattern::is_counted(p) {
        return Err(Refusal::Counters);
    }
    match p.place {
        WidePlace::At(_) => Ok(()),
        WidePlace::Short | WidePlace::Done => Err(Refusal::Ended),
    }
}

// 1, 2, 3, 21, 10, 19, 11
pub fn wanted(p: WideProgress) -> Result<(), Refusal>
    ensures { told result ≡ wanted_order p }
{
    sizes(p.order)?;
    standing(p)
}

// The draws of the record's place.
pub fn cost_at(p: WideProgress) -> Draws
    requires sizes { Sizes p.order }
    requires p_value { placed p ≡ true }
    ensures { result ≡ cost_at p.order p.place }
{
    match p.place {
        WidePlace::At(s) => pattern::cost(p.order, s),
        WidePlace::Short | WidePlace::Done => Draws {
            mask: 0,
            nonzero: 0,
        },
    }
}

// 20: whether the byte that a Lift reads is no element.
fn no20(p: WideProgress, solution: &[u8]) -> Result<(), Refusal>
    requires sizes { Sizes p.order }
    requires p_value { placed p ≡ true }
    requires solution_len { length solution.now ≡ p.order.columns }
    ensures { told result ≡ no20 p.order p.place solution.now }
{
    let WidePlace::At(Step::Lift(j)) = p.place else {
        return Ok(());
    };
    let x = solution[j as usize - 1];
    verdict::refuse_if(
        verdict::is_too_large(p.order.field, x),
        Refusal::LiftByte(j),
    )
}

// 12: whether the pivot of a Scale is 0, by opening it blinded, on copies: the shares are never summed bare.
fn no12(p: WideProgress, table: &[u8], mask: &[u8], nonzero: &[u8]) -> Result<(), Refusal>
    requires sizes { Sizes p.order }
    requires p_value { placed p ≡ true }
    requires table_len { length table.now ≡ whole_table p.order }
    requires p_in_bounds { ((cost_at p.order p.place).mask ≤ length mask.now) × ((cost_at p.order p.place).nonzero ≤ length nonzero.now) }
    requires nonzero_value { no9 p.order.field nonzero.now ≡ passed }
    ensures { told result ≡ no12 p.order (listed p.pivots) p.place table.now }
{
    let WidePlace::At(Step::Scale(j)) = p.place else {
        return Ok(());
    };
    let o = p.order;
    let r = pattern::row_of(p.pivots, Step::Scale(j));
    let shape = Shape {
        field: o.field,
        shares: o.shares as usize,
        rows: o.rows as usize,
        columns: o.columns as usize + 1,
    };
    let zero = table::opens_zero(shape, table, r, j as usize, nonzero, mask);
    verdict::refuse_if(
        zero,
        Refusal::ZeroPivot(Cell {
            row: r as u64,
            column: j,
            share: 0,
        }),
    )
}

// 1, 2, 3, 21, 4, 5, 10, 19, 11, 6, 7, 14, 8, 15, 9, 20, 12
pub fn step(
    p: WideProgress,
    table: &[u8],
    solution: &[u8],
    mask: &[u8],
    nonzero: &[u8],
) -> Result<(), Refusal>
    ensures { told result ≡ step_order p table.now solution.now (length mask.now) nonzero.now }
{
    let o = p.order;
    sizes(o)?;
    verdict::no4(whole_table(o), table.len())?;
    verdict::no5(o.columns as usize, solution.len())?;
    standing(p)?;
    verdict::no6(o.field, table_rows(o), table)?;
    let d = cost_at(p);
    verdict::exactly(o.field, d.mask, d.nonzero, mask.len(), nonzero)?;
    no20(p, solution)?;
    no12(p, table, mask, nonzero)
}

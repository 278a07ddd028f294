// The work behind the wide calls (R-8), after their checks: one step, and the whole solve. Stands on pattern, walk and table.
#![tactic(auto)]

ghost use Rattle.std.specs.Prelude.{◌≡◌, true, ◌+◌, ◌≤◌, length};
ghost use Rattle.table.specs.Layout.{table_bytes};
ghost use Rattle.pattern.specs.declared.WidePlace.TheVariants.{At};
ghost use Rattle.pattern.specs.Pivots.{listed};
ghost use Rattle.pattern.specs.PatternList.{Sizes, mask_cost, nonzero_cost, wanted};
ghost use Rattle.pattern.specs.Next.{kept, stands};
ghost use Rattle.walk.specs.Act.{held};
ghost use Rattle.wide_walk.specs.WideWalk.{opened, acted, leaves, solved};

use course::{Counts, Step};
use pattern::{Pivots, WideOrder, WidePlace, WideProgress};
use table::Shape;

// How a wide solve ends, with the steps, mask draws and nonzero draws taken.
#[derive(Clone, Copy, Debug, PartialEq, Eq)]
pub enum WideEnding {
    Solved(Counts),
    Short(Counts),
}

// Does one step, on the row that the pivots give it, and returns the number that it opened, 0 where it opens none.
// stays: as walk::act: 0 where a step opens none, and what is lent one by one; o, v and s apart, as the definitions (specs/WideWalk.antt) take them.
pub fn act(
    o: WideOrder,
    v: Pivots,
    s: Step,
    table: &mut [u8],
    solution: &mut [u8],
    mask: &[u8],
    nonzero: &[u8],
) -> u8
    requires sizes { Sizes o }
    requires v_value { (kept o v ≡ true) × (stands o (listed v) (At s) ≡ true) }
    requires table_len { (length table.old ≡ table_bytes o.shares o.rows (o.columns + 1)) × (length solution.old ≡ o.columns) }
    requires s_in_bounds { (mask_cost o s ≤ length mask.now) × (nonzero_cost o s ≤ length nonzero.now) }
    ensures value { result ≡ opened o (listed v) s mask.now (held table.old solution.old) }
    ensures solution_after { held table.new solution.new ≡ acted o (listed v) s mask.now nonzero.now (held table.old solution.old) }
{
    let r = pattern::row_of(v, s);
    let shape = Shape {
        field: o.field,
        shares: o.shares as usize,
        rows: o.rows as usize,
        columns: o.columns as usize + 1,
    };
    walk::perform(shape, r, s, table, solution, mask, nonzero)
}

// The whole solve: the unknowns of columns that are passed over, and on short all of them, are 0 from the start.
// stays: the twin of walk::solve, for the reason that stands there.
pub fn solve(
    o: WideOrder,
    table: &mut [u8],
    solution: &mut [u8],
    mask: &[u8],
    nonzero: &[u8],
) -> WideEnding
    requires sizes { Sizes o }
    requires table_len { (length table.old ≡ table_bytes o.shares o.rows (o.columns + 1)) × (length solution.old ≡ o.columns) }
    requires o_in_bounds { ((wanted o).mask ≤ length mask.now) × ((wanted o).nonzero ≤ length nonzero.now) }
    ensures { leaves result table.new solution.new ≡ solved o mask.now nonzero.now (held table.old solution.old) }
{
    sharing::wipe(solution);
    let mut p = WideProgress::start(o);
    let mut steps = 0;
    while let WidePlace::At(s) = p.place {
        let x = act(
            o,
            p.pivots,
            s,
            table,
            solution,
            &mask[p.mask as usize..],
            &nonzero[p.nonzero as usize..],
        );
        p = p.next(s, x);
        steps += 1;
    }
    let counts = Counts {
        steps,
        mask: p.mask as usize,
        nonzero: p.nonzero as usize,
    };
    match p.place {
        WidePlace::Short => WideEnding::Short(counts),
        _ => WideEnding::Solved(counts),
    }
}

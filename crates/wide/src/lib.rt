// The wide calls (R-8): start, step, solve, the lengths that a solve wants, and the draws that a record's step wants. Stands on wide_walk.
// Each takes any numbers, tables and tapes, does all its own checking, and promises by one equation its answer and every lent byte, refusals
// included.
// stays: solver's twin: R-8's calls and 01's are two sets of definitions (specs/WideCalls.antt, solver's specs/Calls.antt), whose theorems stay.
#![tactic(auto)]

mod checks;

ghost use Rattle.std.specs.Prelude.{◌≡◌};
ghost use Rattle.course.specs.StepList.{revealed_by};
ghost use Rattle.walk.specs.Act.{held};
ghost use Rattle.verdict.specs.Calls.{after, says};
ghost use Rattle.wide.specs.WideCalls.{order, start_call, counts_call, wanted_call, solve_call, TellsIn, step_says, left_by, step_call, tells, lent};

use course::{Draws, Step};
use pattern::{WideOrder, WidePlace, WideProgress};
pub use verdict::Refusal;
pub use wide_walk::WideEnding;

// What a step tells. Opened and Done carry the column and its unknown.
#[derive(Clone, Copy, Debug, PartialEq, Eq)]
pub enum WideStride {
    Moved,
    Opened(u64, u8),
    Short,
    Done(u64, u8),
}

// What a step tells, and the record at the following place.
#[derive(Clone, Copy, Debug, PartialEq, Eq)]
pub struct WideStepped {
    pub told: WideStride,
    pub next: WideProgress,
}

// A fresh record, or refusal 1, 2, 3, 21.
// stays: numbers and lent slices one by one, here and below, and no WideOrder or struct of tapes: README and the C interface (hz_wide_start ..) have them so.
pub fn start(field: u64, shares: u64, rows: u64, columns: u64) -> Result<WideProgress, Refusal>
    ensures { after (says result) tt ≡ start_call (order field shares rows columns) }
{
    let o = WideOrder {
        field,
        shares,
        rows,
        columns,
    };
    checks::sizes(o)?;
    Ok(WideProgress::start(o))
}

// The lengths of the tapes that a whole solve wants, or refusal 1, 2, 3, 21.
pub fn counts(field: u64, shares: u64, rows: u64, columns: u64) -> Result<Draws, Refusal>
    ensures { after (says result) tt ≡ counts_call (order field shares rows columns) }
{
    let o = WideOrder {
        field,
        shares,
        rows,
        columns,
    };
    checks::sizes(o)?;
    Ok(pattern::wanted(o))
}

// The draws that the step at the record's place must be lent, exactly. Or refusal 1, 2, 3, 21, 10, 19, 11.
pub fn wanted(p: WideProgress) -> Result<Draws, Refusal>
    ensures { after (says result) tt ≡ wanted_call p }
{
    checks::wanted(p)?;
    Ok(checks::cost_at(p))
}

// The whole solve. The first promise fixes the answer and every lent byte; the second says what the answer means, with its counters.
pub fn solve(
    field: u64,
    shares: u64,
    rows: u64,
    columns: u64,
    table: &mut [u8],
    solution: &mut [u8],
    mask: &[u8],
    nonzero: &[u8],
) -> Result<WideEnding, Refusal>
    ensures outcome { after (says result) (held table.new solution.new) ≡ solve_call (order field shares rows columns) (held table.old solution.old) mask.now nonzero.now }
    ensures meaning { TellsIn (order field shares rows columns) table.old (says result) solution.new }
{
    let o = WideOrder {
        field,
        shares,
        rows,
        columns,
    };
    checks::solve(o, &table[..], solution.len(), mask.len(), nonzero)?;
    Ok(wide_walk::solve(o, table, solution, mask, nonzero))
}

// What a step tells that opened x and came to the next place.
fn answer(s: Step, x: u8, next: WidePlace) -> WideStride
    ensures { result ≡ tells (revealed_by s) x next }
{
    match (s, next) {
        (Step::Open(j), WidePlace::Done) => WideStride::Done(j, x),
        (Step::Open(j), _) => WideStride::Opened(j, x),
        (_, WidePlace::Short) => WideStride::Short,
        _ => WideStride::Moved,
    }
}

// One step: the one at the record's place, lent exactly its draws. On a refusal the record stays as it was.
pub fn step(
    p: WideProgress,
    table: &mut [u8],
    solution: &mut [u8],
    mask: &[u8],
    nonzero: &[u8],
) -> Result<WideStepped, Refusal>
    ensures { after (step_says result) (lent (left_by p result) (held table.new solution.new)) ≡ step_call p (held table.old solution.old) mask.now nonzero.now }
{
    checks::step(p, &table[..], &solution[..], mask, nonzero)?;
    let WidePlace::At(s) = p.place else {
        return Ok(WideStepped {
            told: WideStride::Moved,
            next: p,
        });
    };
    let x = wide_walk::act(p.order, p.pivots, s, table, solution, mask, nonzero);
    let next = p.next(s, x);
    Ok(WideStepped {
        told: answer(s, x, next.place),
        next,
    })
}

// The step call on a progress record lent by `&mut`, moved on where it stands. Stands on solver; a host that keeps one record calls `step`.
#![tactic(auto)]

ghost use Rattle.std.specs.Prelude.{◌≡◌};
ghost use Rattle.walk.specs.Act.{held};
ghost use Rattle.verdict.specs.Calls.{after, says};
ghost use Rattle.solver.specs.Calls.{step_says, left_by, step_call, lent};

use course::Progress;
use solver::{Stepped, Stride};
use verdict::Refusal;

// One step: the successor that the by-value step works out is stored where the record stands. On a refusal the record stands as it was.
pub fn step(
    p: &mut Progress,
    table: &mut [u8],
    solution: &mut [u8],
    mask: &[u8],
    nonzero: &[u8],
) -> Result<Stride, Refusal>
    ensures { after (says result) (lent p.new (held table.new solution.new)) ≡ step_call p.old (held table.old solution.old) mask.now nonzero.now }
{
    let s = solver::step(*p, table, solution, mask, nonzero)?;
    *p = s.next;
    Ok(s.told)
}

// The same for a caller that has the record by value: a local record is lent to `step` and handed back.
pub fn stepped(
    p: Progress,
    table: &mut [u8],
    solution: &mut [u8],
    mask: &[u8],
    nonzero: &[u8],
) -> Result<Stepped, Refusal>
    ensures { after (step_says result) (lent (left_by p result) (held table.new solution.new)) ≡ step_call p (held table.old solution.old) mask.now nonzero.now }
{
    let mut q = p;
    let told = step(&mut q, table, solution, mask, nonzero)?;
    Ok(Stepped { told, next: q })
}

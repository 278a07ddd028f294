// The public calls: start, step, solve, deal, gather, the counts of an order, and what the next step wants. Stands on walk.
// The entry calls are `start`, `counts`, `wanted`, `deal`, `gather`, `step` and `solve`: each takes any numbers, tables and tapes, does all its own
// checking, and promises by one equation its answer and every lent byte, refusals included.
// stays: (a) field, shares and size come as three numbers, as in 01's calls and in the C interface (hz_start, hz_deal, hz_gather, hz_solve, hz_counts)
#![tactic(auto)]

mod checks;

ghost use Rattle.std.specs.Prelude.{◌≡◌};
ghost use Rattle.course.specs.StepList.{revealed_by};
ghost use Rattle.walk.specs.Act.{held};
ghost use Rattle.verdict.specs.Calls.{after, says};
ghost use Rattle.solver.specs.Calls.{order, start_call, counts_call, deal_call, gather_call, solve_call, Tells, Taken, step_says, left_by, step_call, tells, lent, wanted_call};

use course::{Counts, Draws, Order, Place, Progress, Step};
use std::fmt;
pub use verdict::Refusal;
pub use walk::Ending;

// What a step tells.
#[derive(Clone, Copy, Debug, PartialEq, Eq)]
pub enum Stride {
    Moved,
    Opened(u64, u8),
    Stopped(u64),
    Done(u8),
}

// How the programs print it.
impl fmt::Display for Stride {
    fn fmt<W: fmt::Write>(&self, f: &mut fmt::Formatter<W>) -> fmt::Result {
        match self {
            Stride::Moved => write!(f, "moved"),
            Stride::Opened(j, x) => write!(f, "opened x_{j} = {x}"),
            Stride::Stopped(j) => write!(f, "stopped {j}"),
            Stride::Done(x) => write!(f, "done, x_1 = {x}"),
        }
    }
}

// What a step tells, and the record at the following place.
#[derive(Clone, Copy, Debug, PartialEq, Eq)]
pub struct Stepped {
    pub told: Stride,
    pub next: Progress,
}

// A fresh record, or refusal 1, 2, 3.
pub fn start(field: u64, shares: u64, size: u64) -> Result<Progress, Refusal>
    ensures { after (says result) tt ≡ start_call (order field shares size) }
{
    let o = Order {
        field,
        shares,
        size,
    };
    checks::sizes(o)?;
    Ok(Progress::start(o))
}

// The steps, mask draws and nonzero draws of a full solve, or refusal 1, 2, 3.
pub fn counts(field: u64, shares: u64, size: u64) -> Result<Counts, Refusal>
    ensures { after (says result) tt ≡ counts_call (order field shares size) }
{
    let o = Order {
        field,
        shares,
        size,
    };
    checks::sizes(o)?;
    Ok(course::full_counts(o))
}

// The draws that the step at the record's place must be lent, exactly: mask draws and nonzero draws. Or refusal 1, 2, 3, 10, 19, 11.
pub fn wanted(p: Progress) -> Result<Draws, Refusal>
    ensures { after (says result) tt ≡ wanted_call p }
{
    checks::wanted(p)?;
    Ok(checks::cost_at(p.order(), p.place))
}

// Values in row order into a table of shares.
pub fn deal(
    field: u64,
    shares: u64,
    size: u64,
    values: &[u8],
    table: &mut [u8],
    mask: &[u8],
) -> Result<(), Refusal>
    ensures { after (says result) table.new ≡ deal_call (order field shares size) values.now mask.now table.old }
{
    let o = Order {
        field,
        shares,
        size,
    };
    checks::deal(o, values, table.len(), mask.len())?;
    walk::deal(field, shares as usize, table, values, mask);
    Ok(())
}

// The values of a table of shares, in row order.
pub fn gather(
    field: u64,
    shares: u64,
    size: u64,
    table: &[u8],
    values: &mut [u8],
) -> Result<(), Refusal>
    ensures { after (says result) values.new ≡ gather_call (order field shares size) table.now values.old }
{
    let o = Order {
        field,
        shares,
        size,
    };
    checks::gather(o, table, values.len())?;
    walk::gather(field, shares as usize, table, values);
    Ok(())
}

// The whole solve. The first promise fixes the answer and every lent byte; the second says what the answer means, and the third what its
// counters are.
pub fn solve(
    field: u64,
    shares: u64,
    size: u64,
    table: &mut [u8],
    solution: &mut [u8],
    mask: &[u8],
    nonzero: &[u8],
) -> Result<Ending, Refusal>
    ensures outcome { after (says result) (held table.new solution.new) ≡ solve_call (order field shares size) (held table.old solution.old) mask.now nonzero.now }
    ensures meaning { Tells (order field shares size) table.old (says result) solution.new }
    ensures counters { Taken (order field shares size) (says result) }
{
    let o = Order {
        field,
        shares,
        size,
    };
    checks::solve(o, &table[..], solution.len(), mask.len(), nonzero)?;
    Ok(walk::solve(o, table, solution, mask, nonzero))
}

// What a step tells that opened x.
fn answer(s: Step, x: u8) -> Stride
    ensures { result ≡ tells (revealed_by s) x }
{
    match s {
        Step::Check(j) if x == 1 => Stride::Stopped(j),
        Step::Open(1) => Stride::Done(x),
        Step::Open(j) => Stride::Opened(j, x),
        _ => Stride::Moved,
    }
}

// One step: the one at the record's place, lent exactly its draws. On a refusal the record stands as it was.
pub fn step(
    p: Progress,
    table: &mut [u8],
    solution: &mut [u8],
    mask: &[u8],
    nonzero: &[u8],
) -> Result<Stepped, Refusal>
    ensures { after (step_says result) (lent (left_by p result) (held table.new solution.new)) ≡ step_call p (held table.old solution.old) mask.now nonzero.now }
{
    checks::step(p, &table[..], &solution[..], mask, nonzero)?;
    let Place::At(s) = p.place else {
        return Ok(Stepped {
            told: Stride::Moved,
            next: p,
        });
    };
    let x = walk::act(p.order(), s, table, solution, mask, nonzero);
    Ok(Stepped {
        told: answer(s, x),
        next: p.next(s, x),
    })
}

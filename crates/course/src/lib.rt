// The course of a solve: the step list, the progress record and its next place, and what the steps draw. Stands on table, for the costs.
#![tactic(auto)]

ghost use Rattle.std.specs.Prelude.{◌≡◌, true, ◌+◌, ◌*◌, ◌≤◌};
ghost use Rattle.sharing.specs.Bounds.{most_rows, most_width, most_columns};
ghost use Rattle.course.specs.StepList.{Sizes, in_list, column_of, draws, cost_in, cost_of, mask_cost, nonzero_cost, step_list, sums};
ghost use Rattle.course.specs.Next.{first_of, following, order_of, moved_on, start_of};
ghost use Rattle.course.specs.Code.Closed.{flags_over, rows_over, part, part_at, part_of, Stands, Kept, weighed, mask_of, agrees};

use std::fmt;

// One of the six steps with its j and k. Check, Scale, Open and Lift carry j only.
#[derive(Clone, Copy, Debug, PartialEq, Eq)]
pub enum Step {
    Mix { j: u64, k: u64 },
    Check(u64),
    Scale(u64),
    Clear { j: u64, k: u64 },
    Open(u64),
    Lift(u64),
}

#[derive(Clone, Copy, Debug, PartialEq, Eq)]
pub enum Place {
    At(Step),
    Stopped(u64),
    Done,
}

// Field, shares and size, as an order form has them.
// stays: what an order must keep to is `Sizes` in a requires, and no invariant: solver's checks answer orders outside it with refusals 1, 2 and 3.
#[derive(Clone, Copy, Debug, PartialEq, Eq)]
pub struct Order {
    pub field: u64,
    pub shares: u64,
    pub size: u64,
}

// The progress record, with the draws taken so far.
// stays: 01's progress struct has field, shares and size beside the place and the counters, by value; `order` gives them as one.
#[derive(Clone, Copy, Debug, PartialEq, Eq)]
pub struct Progress {
    pub field: u64,
    pub shares: u64,
    pub size: u64,
    pub place: Place,
    pub mask: u64,
    pub nonzero: u64,
}

// Mask draws and nonzero draws.
#[derive(Clone, Copy, Debug, Default, PartialEq, Eq)]
pub struct Draws {
    pub mask: usize,
    pub nonzero: usize,
}

// Steps, mask draws and nonzero draws.
#[derive(Clone, Copy, Debug, Default, PartialEq, Eq)]
pub struct Counts {
    pub steps: usize,
    pub mask: usize,
    pub nonzero: usize,
}

// How the programs print them.
impl fmt::Display for Step {
    fn fmt<W: fmt::Write>(&self, f: &mut fmt::Formatter<W>) -> fmt::Result {
        match self {
            Step::Mix { j, k } => write!(f, "Mix({j},{k})"),
            Step::Check(j) => write!(f, "Check({j})"),
            Step::Scale(j) => write!(f, "Scale({j})"),
            Step::Clear { j, k } => write!(f, "Clear({j},{k})"),
            Step::Open(j) => write!(f, "Open({j})"),
            Step::Lift(j) => write!(f, "Lift({j})"),
        }
    }
}

impl fmt::Display for Place {
    fn fmt<W: fmt::Write>(&self, f: &mut fmt::Formatter<W>) -> fmt::Result {
        match self {
            Place::At(s) => write!(f, "{s}"),
            Place::Stopped(j) => write!(f, "Stopped({j})"),
            Place::Done => write!(f, "Done"),
        }
    }
}

impl fmt::Display for Order {
    fn fmt<W: fmt::Write>(&self, f: &mut fmt::Formatter<W>) -> fmt::Result {
        write!(
            f,
            "field {}, shares {}, size {}",
            self.field, self.shares, self.size
        )
    }
}

impl fmt::Display for Progress {
    fn fmt<W: fmt::Write>(&self, f: &mut fmt::Formatter<W>) -> fmt::Result {
        write!(
            f,
            "{}, at {}, taken {} and {}",
            self.order(),
            self.place,
            self.mask,
            self.nonzero
        )
    }
}

impl fmt::Display for Counts {
    fn fmt<W: fmt::Write>(&self, f: &mut fmt::Formatter<W>) -> fmt::Result {
        write!(f, "{} {} {}", self.steps, self.mask, self.nonzero)
    }
}

// Whether a step is one of the list of size m.
#[tactic(auto, using(std::proofs::lemmas::Bool::Decides::nat_tests), unfolding(crate::specs::StepList::in_list))]
pub fn in_list(m: u64, s: Step) -> bool
    ensures { result ≡ in_list m s }
{
    match s {
        Step::Mix { j, k } | Step::Clear { j, k } => 1 <= j && j < k && k <= m,
        Step::Check(j) | Step::Scale(j) | Step::Open(j) => 1 <= j && j <= m,
        Step::Lift(j) => 2 <= j && j <= m,
    }
}

// The first place of column j.
#[tactic(auto, using(std::proofs::lemmas::Bool::Decides::nat_tests), unfolding(crate::specs::Next::first_of))]
fn first_of(m: u64, j: u64) -> Place
    ensures { result ≡ first_of m j }
{
    if j < m {
        Place::At(Step::Mix { j, k: j + 1 })
    } else {
        Place::At(Step::Check(j))
    }
}

// The place after a step of the list that opened x.
// stays: x is the byte that the step opened, as `following` (specs/Next.antt) and 01's "stopped at j where Check opened 1" have it.
#[tactic(auto, using(std::proofs::lemmas::Bool::Decides::nat_tests), unfolding(crate::specs::Next::following, crate::specs::StepList::in_list))]
fn place_after(m: u64, s: Step, x: u8) -> Place
    requires { in_list m s ≡ true }
    ensures { result ≡ following m s x }
{
    match s {
        Step::Mix { j, k } if k < m => Place::At(Step::Mix { j, k: k + 1 }),
        Step::Mix { j, .. } => Place::At(Step::Check(j)),
        Step::Check(j) if x == 1 => Place::Stopped(j),
        Step::Check(j) => Place::At(Step::Scale(j)),
        Step::Scale(j) if j < m => Place::At(Step::Clear { j, k: j + 1 }),
        Step::Scale(_) => Place::At(Step::Open(m)),
        Step::Clear { j, k } if k < m => Place::At(Step::Clear { j, k: k + 1 }),
        Step::Clear { j, .. } => first_of(m, j + 1),
        Step::Open(j) if 1 < j => Place::At(Step::Lift(j)),
        Step::Open(_) => Place::Done,
        Step::Lift(j) => Place::At(Step::Open(j - 1)),
    }
}

impl Progress {
    // A fresh record.
    #[tactic(auto, unfolding(crate::specs::Next::start_of))]
    pub fn start(o: Order) -> Progress
        ensures { result ≡ start_of o }
    {
        let Order {
            field,
            shares,
            size,
        } = o;
        Progress {
            field,
            shares,
            size,
            place: first_of(size, 1),
            mask: 0,
            nonzero: 0,
        }
    }

    // The record's field, shares and size.
    pub fn order(self) -> Order
        ensures { result ≡ order_of self }
    {
        Order {
            field: self.field,
            shares: self.shares,
            size: self.size,
        }
    }

    // The record at the following place, where step s at its place opened x: the step's draws are added to its counters.
    pub fn next(self, s: Step, x: u8) -> Progress
        requires sizes { Sizes (order_of self) }
        requires s_value { in_list self.size s ≡ true }
        requires s_bound { (self.mask + mask_cost (order_of self) s ≤ 18446744073709551615) × (self.nonzero + nonzero_cost (order_of self) s ≤ 18446744073709551615) }
        ensures { result ≡ moved_on self s x }
    {
        let d = cost(self.order(), s);
        Progress {
            place: place_after(self.size, s, x),
            mask: self.mask + d.mask as u64,
            nonzero: self.nonzero + d.nonzero as u64,
            ..self
        }
    }
}

// The j of a step.
pub fn column_of(s: Step) -> u64
    ensures { result ≡ column_of s }
{
    match s {
        Step::Mix { j, .. } | Step::Clear { j, .. } => j,
        Step::Check(j) | Step::Scale(j) | Step::Open(j) | Step::Lift(j) => j,
    }
}

impl Draws {
    // So many mask draws, and no nonzero draw.
    fn masks(mask: usize) -> Draws
        ensures { result ≡ draws mask 0 }
    {
        Draws { mask, nonzero: 0 }
    }
}

// The draws of a step, on rows of w columns.
#[tactic(auto, unfolding(crate::specs::StepList::cost_in, table::specs::Costs::scale_nonzero))]
pub fn cost_in(f: u64, n: usize, w: usize, s: Step) -> Draws
    requires le_n { (2 ≤ n) × (n ≤ 4) × (w ≤ most_columns) }
    requires bound { (1 ≤ column_of s) × (column_of s ≤ w) }
    ensures { result ≡ cost_in f n w s }
{
    let columns = w + 1 - column_of(s) as usize;
    match s {
        Step::Mix { .. } => Draws::masks(table::mix_cost(f, n, columns)),
        Step::Check(_) => Draws::masks(table::check_cost(f, n)),
        Step::Scale(_) => Draws {
            mask: table::scale_cost(n, columns),
            nonzero: n - 1,
        },
        Step::Clear { .. } => Draws::masks(table::clear_cost(n, columns)),
        Step::Open(_) => Draws::masks(table::open_cost(n)),
        Step::Lift(_) => Draws::default(),
    }
}

// The draws of a step of the list.
#[tactic(auto, using(crate::proofs::Within::column_listed), unfolding(crate::specs::StepList::cost_of))]
pub fn cost(o: Order, s: Step) -> Draws
    requires sizes { Sizes o }
    requires s_value { in_list o.size s ≡ true }
    ensures { result ≡ cost_of o s }
{
    cost_in(o.field, o.shares as usize, o.size as usize + 1, s)
}

// The draws taken at a place, with no walk over the list: refusal 19 asks for them in every step call. What a place has taken beside the columns
// that are done: `width` is the columns of a row from the first column that is not done on (1 where all are), `flags` so many zero flags more, and
// `more` and `less` so many times the N draws of all pairs.
#[derive(Clone, Copy, Debug, PartialEq, Eq)]
pub struct Part {
    pub width: usize,
    pub flags: usize,
    pub more: usize,
    pub less: usize,
}

// The zero flags of the whole columns: L-1 in each, for L = y+1..w columns of its rows.
#[tactic(auto, unfolding(crate::specs::Code::Closed::flags_over))]
fn flags_over(w: usize, y: usize) -> usize
    requires { (1 ≤ y) × (y ≤ w) × (w ≤ most_width) }
    ensures { (result ≡ flags_over w y) × (result ≤ 2 * most_width * most_width) }
{
    (w - y) * (w + y - 1) / 2
}

// The sum of (L-1)L in the same columns, whose steps take the N draws of all pairs twice as often.
#[tactic(auto, unfolding(crate::specs::Code::Closed::rows_over))]
fn rows_over(w: usize, y: usize) -> usize
    requires { (1 ≤ y) × (y ≤ w) × (w ≤ most_width) }
    ensures { (result ≡ rows_over w y) × (result ≤ 4 * most_width * most_width * most_width) }
{
    let s = w + y;
    (w - y) * (s * s - w * y - 1) / 3
}

impl Part {
    // Where so many zero flags of a column are taken, and for each of them so many times the N draws of all pairs.
    fn within(width: usize, flags: usize, times: usize) -> Part
        requires { (flags ≤ most_width) × (times ≤ most_width + 1) }
        ensures { result ≡ part width flags (flags * times) 0 }
    {
        Part {
            width,
            flags,
            more: flags * times,
            less: 0,
        }
    }

    // Where all columns are done.
    fn behind(more: usize) -> Part
        ensures { result ≡ part 1 0 more 0 }
    {
        Part {
            width: 1,
            flags: 0,
            more,
            less: 0,
        }
    }
}

// At Clear(j,k) column j counts as done, less the Clears that are still to come.
#[tactic(auto, using(std::proofs::lemmas::Bool::Decides::nat_tests), unfolding(crate::specs::Code::Closed::part_at, crate::specs::StepList::in_list))]
fn part_at(m: usize, s: Step) -> Part
    requires { (m ≤ most_rows) × (in_list m s ≡ true) }
    ensures { result ≡ part_at (m + 1) s }
{
    let j = column_of(s) as usize;
    let y = m + 2 - j;
    match s {
        Step::Mix { k, .. } => Part::within(y, k as usize - j - 1, y),
        Step::Check(_) => Part::within(y, m - j, y),
        Step::Scale(_) => Part::within(y, y - 1, y - 1),
        Step::Clear { k, .. } => Part {
            width: y - 1,
            flags: 0,
            more: 0,
            less: (m + 1 - k as usize) * y,
        },
        Step::Open(_) => Part::behind(m - j),
        Step::Lift(_) => Part::behind(y - 1),
    }
}

#[tactic(auto, using(std::proofs::lemmas::Bool::Decides::nat_tests), unfolding(crate::specs::Code::Closed::part_of, crate::specs::StepList::in_list))]
pub fn part_of(m: usize, p: Place) -> Part
    requires { (m ≤ most_rows) × Stands m p }
    ensures { result ≡ part_of (m + 1) p }
{
    match p {
        Place::At(s) => part_at(m, s),
        Place::Stopped(j) => part_at(m, Step::Scale(j)),
        Place::Done => Part::behind(m),
    }
}

// The mask draws of c Inversions with their sharings, so many zero flags, and so many times all pairs.
#[tactic(auto, using(sharing::proofs::Pairs::pairs_small), unfolding(crate::specs::Code::Closed::weighed))]
fn weighed(o: Order, c: usize, flags: usize, times: usize) -> usize
    requires sizes { Sizes o }
    requires few { (c ≤ most_width) × (flags ≤ 3 * most_width * most_width) × (times ≤ 9 * most_width * most_width * most_width) }
    ensures { result ≡ weighed o.field o.shares c flags times }
{
    let n = o.shares as usize;
    c * (n - 1) * (2 * n - 1)
        + flag::flag_draws(o.field, n) * flags
        + sharing::pair_count(n) * times
}

// The mask draws taken at the place that has this part.
#[tactic(auto, unfolding(crate::specs::Code::Closed::mask_of))]
fn mask_of(o: Order, z: Part) -> usize
    requires { Sizes o × Kept (o.size + 1) z }
    ensures { result ≡ mask_of o.field o.shares (o.size + 1) z }
{
    let w = o.size as usize + 1;
    let y = z.width;
    let flags = flags_over(w, y) + z.flags;
    let times = 2 * rows_over(w, y) - z.less + z.more;
    weighed(o, w - y, flags, times)
}

// Whether the counters are those of the place that has this part.
// stays: mask and nonzero are a record's two u64, which may be any (refusal 19), so they are no `Draws`.
#[tactic(auto, using(std::proofs::lemmas::Bool::Decides::nat_tests), unfolding(crate::specs::Code::Closed::agrees, crate::specs::Code::Closed::nonzero_of))]
pub fn agrees(o: Order, z: Part, mask: u64, nonzero: u64) -> bool
    requires { Sizes o × Kept (o.size + 1) z }
    ensures { result ≡ agrees o z mask nonzero }
{
    let n = o.shares as usize;
    let w = o.size as usize + 1;
    mask == mask_of(o, z) as u64 && nonzero == ((w - z.width) * (n - 1)) as u64
}

// The counts of a full solve: those of a record that is done.
pub fn full_counts(o: Order) -> Counts
    requires { Sizes o }
    ensures { result ≡ sums o (step_list o.size) }
{
    let n = o.shares as usize;
    let m = o.size as usize;
    Counts {
        steps: m * (m + 3) - 1,
        mask: mask_of(o, part_of(m, Place::Done)),
        nonzero: m * (n - 1),
    }
}

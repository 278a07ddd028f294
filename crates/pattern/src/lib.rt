// The course of a wide solve (R-8): its progress record, which keeps the pivots found, the next place, the places that pivots can have, and what the
// steps draw by the pattern of the pivots. Stands on course, for the steps and their costs.
#![tactic(auto)]

ghost use Rattle.std.specs.Prelude.{◌≡◌, true, ◌+◌, ◌-◌, ◌*◌, ◌≤◌, ◌<◌, eqb, get_or, length};
ghost use Rattle.sharing.specs.Bounds.{most_rows, most_columns, most_draws};
ghost use Rattle.table.specs.Costs.{check_cost, scale_cost, open_cost};
ghost use Rattle.course.specs.StepList.{column_of};
ghost use Rattle.pattern.specs.Pivots.{before, row_of, last, has, ascends, zeros, listed, unused, with};
ghost use Rattle.pattern.specs.declared.WidePlace.TheVariants.{At};
ghost use Rattle.pattern.specs.PatternList.{Sizes, cost_of, mask_cost, nonzero_cost, wanted};
ghost use Rattle.pattern.specs.Code.Asked.{Earlier, Roomy};
ghost use Rattle.pattern.specs.Next.{next_column, following, found_by, start_of, moved_on, kept, stands, placed, counted};
ghost use Rattle.pattern.specs.Code.Columns.{from, most_column, mixing, clearing, column_cost, columns_cost, full_cost, step_done, step_beyond, step_scales, done_columns, beyond, scales_before};

use course::{Draws, Step};

// Field, shares, rows and columns, as an order form has them.
// stays: what an order must keep to is `Sizes` in a requires, and no invariant: wide's checks answer orders outside it with refusals.
#[derive(Clone, Copy, Debug, PartialEq, Eq)]
pub struct WideOrder {
    pub field: u64,
    pub shares: u64,
    pub rows: u64,
    pub columns: u64,
}

#[derive(Clone, Copy, Debug, PartialEq, Eq)]
pub enum WidePlace {
    At(Step),
    Short,
    Done,
}

// The pivots found, ascending: the first `found` of the slots, and 0 in the others.
// stays: a count beside fixed slots, since C lends the record word for word (host) and there is no heap; `listed` gives the slice.
// stays: what they must keep to is a requires (`found ≤ most_rows`, `placed`) and no invariant: refusal 10 answers records that C lends with others.
#[derive(Clone, Copy, Debug, PartialEq, Eq)]
pub struct Pivots {
    pub found: u64,
    pub columns: [u8; 96],
}

// The progress record, with the draws taken so far and the pivots found.
// stays: the twin of course's Progress: R-8's record, list and next place are definitions of their own (specs/Next, PatternList), as 01's are.
#[derive(Clone, Copy, Debug, PartialEq, Eq)]
pub struct WideProgress {
    pub order: WideOrder,
    pub place: WidePlace,
    pub mask: u64,
    pub nonzero: u64,
    pub pivots: Pivots,
}

// Whether each is above the one before it, the first above 0, and none above high.
#[tactic(auto, using(std::proofs::lemmas::Bool::Decides::nat_tests, crate::proofs::Loops::ascends_turn, crate::proofs::Loops::ascends_done))]
fn is_ascending(ps: &[u8], high: u64) -> bool
    ensures { result ≡ ascends 0 high ps.now }
{
    let mut low = 0;
    for &p in ps {
        if p <= low || high < u64::from(p) {
            return false;
        }
        low = p;
    }
    true
}

fn is_zeros(s: &[u8]) -> bool
    ensures { result ≡ zeros s.now }
{
    s.iter().all(|x| *x == 0)
}

// How many pivots stand before column j.
// stays: a count of its own: by `filter` and `count` it is no loop of vectors, and each step of a whole wide solve takes some 150 instructions more.
fn count_before(ps: &[u8], j: u64) -> usize
    ensures { (result ≡ before ps.now j) × (result ≤ length ps.now) }
{
    let mut k: usize = 0;
    for p in ps {
        k += usize::from(u64::from(*p) < j);
    }
    k
}

impl Pivots {
    // The columns of the pivots found.
    fn listed(&self) -> &[u8]
        requires { self.now.found ≤ most_rows }
        ensures { result.now ≡ listed self.now }
    {
        &self.columns[..self.found as usize]
    }

    // The slots behind them.
    fn unused(&self) -> &[u8]
        requires { self.now.found ≤ most_rows }
        ensures { result.now ≡ unused self.now }
    {
        &self.columns[self.found as usize..]
    }

    // How many stand before column j.
    #[tactic(auto, using(crate::proofs::Slots::used))]
    pub fn before(self, j: u64) -> usize
        requires { self.found ≤ most_rows }
        ensures { (result ≡ before (listed self) j) × (result ≤ self.found) }
    {
        count_before(self.listed(), j)
    }

    // The last one, or 0.
    #[tactic(auto, using(crate::proofs::Loops::last_slot))]
    pub fn last(self) -> u64
        requires { self.found ≤ most_rows }
        ensures { result ≡ last (listed self) }
    {
        u64::from(self.listed().last().copied().unwrap_or(0))
    }

    // Whether slot i has column j, which is not 0.
    fn slot_is(&self, i: usize, j: u64) -> bool
        requires few { self.now.found ≤ most_rows }
        requires some { 1 ≤ j }
        ensures { result ≡ eqb (get_or (listed self.now) i 0) j }
    {
        self.listed().get(i).is_some_and(|p| u64::from(*p) == j)
    }

    // Whether column j is one of them.
    #[tactic(auto, using(std::proofs::lemmas::Bool::Decides::nat_tests), unfolding(crate::specs::Pivots::has))]
    pub fn has(self, j: u64) -> bool
        requires { self.found ≤ most_rows }
        ensures { result ≡ has (listed self) j }
    {
        1 <= j && self.slot_is(self.before(j), j)
    }

    // With one more.
    #[tactic(auto, unfolding(crate::specs::Pivots::with))]
    fn with(self, j: u64) -> Pivots
        requires { (self.found < most_rows) × (j ≤ 255) }
        ensures { result ≡ with self j }
    {
        let mut columns = self.columns;
        columns[self.found as usize] = j as u8;
        Pivots {
            found: self.found + 1,
            columns,
        }
    }
}

// Where a column is done and j is next.
#[tactic(auto, using(std::proofs::lemmas::Bool::Decides::nat_tests, crate::proofs::Slots::used), unfolding(crate::specs::Next::next_column))]
fn next_column(o: WideOrder, v: Pivots, j: u64) -> WidePlace
    requires { (o.rows ≤ most_rows) × (v.found ≤ o.rows) }
    ensures { result ≡ next_column o.rows o.columns (listed v) j }
{
    if o.rows <= v.found {
        WidePlace::At(Step::Open(v.last()))
    } else if o.columns < j {
        WidePlace::Short
    } else if v.found + 1 < o.rows {
        WidePlace::At(Step::Mix { j, k: v.found + 2 })
    } else {
        WidePlace::At(Step::Check(j))
    }
}

// The pivot before column j.
#[tactic(auto, using(crate::proofs::Slots::used))]
fn earlier(v: Pivots, j: u64) -> u64
    requires { (v.found ≤ most_rows) × (1 ≤ before (listed v) j) }
    ensures { result ≡ get_or (listed v) (before (listed v) j - 1) 0 }
{
    u64::from(v.listed()[v.before(j) - 1])
}

// The place after a step that opened x, by the pivots found up to and with it.
// stays: x is the byte that the step opened, as `following` and `moved_on` (specs/Next.antt) have it; only Check looks at it.
#[tactic(auto, using(std::proofs::lemmas::Bool::Decides::nat_tests, crate::proofs::Slots::used), unfolding(crate::specs::Next::following))]
fn place_after(o: WideOrder, v: Pivots, s: Step, x: u8) -> WidePlace
    requires rows_le_most_rows { (o.rows ≤ most_rows) × (v.found ≤ o.rows) × (column_of s ≤ 255) }
    requires earlier { Earlier (listed v) s }
    ensures { result ≡ following o.rows o.columns (listed v) s x }
{
    match s {
        Step::Mix { j, k } if k < o.rows => WidePlace::At(Step::Mix { j, k: k + 1 }),
        Step::Mix { j, .. } => WidePlace::At(Step::Check(j)),
        Step::Check(j) if x != 1 => WidePlace::At(Step::Scale(j)),
        Step::Scale(j) if v.found < o.rows => WidePlace::At(Step::Clear { j, k: v.found + 1 }),
        Step::Clear { j, k } if k < o.rows => WidePlace::At(Step::Clear { j, k: k + 1 }),
        Step::Check(j) | Step::Scale(j) | Step::Clear { j, .. } => next_column(o, v, j + 1),
        Step::Open(j) if v.before(j) == 0 => WidePlace::Done,
        Step::Open(j) => WidePlace::At(Step::Lift(j)),
        Step::Lift(j) => WidePlace::At(Step::Open(earlier(v, j))),
    }
}

// The pivots found up to and with a step that opened x.
// stays: x is the byte that the step opened, as in `place_after`.
#[tactic(auto, using(std::proofs::lemmas::Bool::Decides::nat_tests), unfolding(crate::specs::Next::found_by))]
fn found_by(s: Step, x: u8, v: Pivots) -> Pivots
    requires { Roomy s v }
    ensures { result ≡ found_by s x v }
{
    match s {
        Step::Check(j) if x != 1 => v.with(j),
        _ => v,
    }
}

// The row that takes the pivot of a step's column.
#[tactic(auto, unfolding(crate::specs::Pivots::row_of))]
pub fn row_of(v: Pivots, s: Step) -> usize
    requires { v.found ≤ most_rows }
    ensures { result ≡ row_of (listed v) (column_of s) }
{
    v.before(course::column_of(s)) + 1
}

// The draws of a step.
#[tactic(auto, unfolding(crate::specs::PatternList::cost_of))]
pub fn cost(o: WideOrder, s: Step) -> Draws
    requires sizes { Sizes o }
    requires bound { (1 ≤ column_of s) × (column_of s ≤ o.columns) }
    ensures { result ≡ cost_of o s }
{
    course::cost_in(o.field, o.shares as usize, o.columns as usize + 1, s)
}

impl WideProgress {
    // A fresh record.
    #[tactic(auto, unfolding(crate::specs::Next::start_of))]
    pub fn start(o: WideOrder) -> WideProgress
        requires { Sizes o }
        ensures { result ≡ start_of o }
    {
        let none = Pivots {
            found: 0,
            columns: [0u8; 96],
        };
        WideProgress {
            order: o,
            place: next_column(o, none, 1),
            mask: 0,
            nonzero: 0,
            pivots: none,
        }
    }

    // The record at the following place, where step s at its place opened x: the step's draws are added to its counters.
    pub fn next(self, s: Step, x: u8) -> WideProgress
        requires sizes { Sizes self.order }
        requires self_value { (placed self ≡ true) × (self.place ≡ At s) }
        requires s_bound { (self.mask + mask_cost self.order s ≤ 18446744073709551615) × (self.nonzero + nonzero_cost self.order s ≤ 18446744073709551615) }
        ensures { result ≡ moved_on self s x }
    {
        let o = self.order;
        let d = cost(o, s);
        let pivots = found_by(s, x, self.pivots);
        WideProgress {
            order: o,
            place: place_after(o, pivots, s, x),
            mask: self.mask + d.mask as u64,
            nonzero: self.nonzero + d.nonzero as u64,
            pivots,
        }
    }

    // Whether the pivots are such as some place has.
    #[tactic(auto, using(std::proofs::lemmas::Bool::Decides::nat_tests), unfolding(crate::specs::Next::kept))]
    fn is_kept(self) -> bool
        requires { self.order.rows ≤ most_rows }
        ensures { result ≡ kept self.order self.pivots }
    {
        let v = self.pivots;
        v.found <= self.order.rows
            && is_ascending(v.listed(), self.order.columns)
            && is_zeros(v.unused())
    }

    // Whether such pivots are those of the place.
    #[tactic(auto, using(std::proofs::lemmas::Bool::Decides::nat_tests, crate::proofs::Slots::used), unfolding(crate::specs::Next::stands))]
    fn stands(self) -> bool
        requires { (self.order.rows ≤ most_rows) × (self.pivots.found ≤ self.order.rows) }
        ensures { result ≡ stands self.order (listed self.pivots) self.place }
    {
        let WideOrder { rows, columns, .. } = self.order;
        let v = self.pivots;
        let found = v.found;
        let last = v.last();
        match self.place {
            WidePlace::At(Step::Mix { j, k }) => last < j
                && j <= columns
                && found + 1 < k
                && k <= rows,
            WidePlace::At(Step::Check(j)) => last < j && j <= columns && found < rows,
            WidePlace::At(Step::Scale(j)) => 1 <= j && last == j,
            WidePlace::At(Step::Clear { j, k }) => 1 <= j && last == j && found < k && k <= rows,
            WidePlace::At(Step::Open(j)) => found == rows && v.has(j),
            WidePlace::At(Step::Lift(j)) => found == rows && v.has(j) && 1 <= v.before(j),
            WidePlace::Short => found < rows,
            WidePlace::Done => found == rows,
        }
    }

    // Whether the pivots are such as the place can have.
    pub fn is_placed(self) -> bool
        requires { self.order.rows ≤ most_rows }
        ensures { result ≡ placed self }
    {
        self.is_kept() && self.stands()
    }
}

// ---- the draws taken at a place

// A column of an order whose steps are counted.
#[derive(Clone, Copy)]
struct Column {
    order: WideOrder,
    j: usize,
    ghost sizes: { Sizes order },
    ghost low: { 1 ≤ j },
    ghost high: { j ≤ order.columns },
}

impl Column {
    // The columns of a row from this one on.
    fn width(self) -> usize
        ensures { (result ≡ from self.order self.j) × (result ≤ most_columns) }
    {
        self.order.columns as usize + 2 - self.j
    }

    // So many Mixes.
    #[tactic(auto, unfolding(crate::specs::Code::Columns::mixing))]
    fn mixing(self, k: usize) -> usize
        requires { k ≤ most_rows }
        ensures { (result ≡ mixing self.order k self.j) × (result ≤ most_rows * most_draws) }
    {
        k * table::mix_cost(self.order.field, self.order.shares as usize, self.width())
    }

    // So many Clears.
    #[tactic(auto, unfolding(crate::specs::Code::Columns::clearing))]
    fn clearing(self, k: usize) -> usize
        requires { k ≤ most_rows }
        ensures { (result ≡ clearing self.order k self.j) × (result ≤ most_rows * most_draws) }
    {
        k * table::clear_cost(self.order.shares as usize, self.width())
    }

    // A Scale, with the Clears in so many rows.
    fn taking(self, k: usize) -> usize
        requires { k ≤ most_rows }
        ensures { (result ≡ scale_cost self.order.shares (from self.order self.j) + clearing self.order k self.j) × (result ≤ most_draws + most_rows * most_draws) }
    {
        table::scale_cost(self.order.shares as usize, self.width()) + self.clearing(k)
    }

    // The Mixes in so many rows, and the Check.
    fn seeking(self, k: usize) -> usize
        requires { k ≤ most_rows }
        ensures { (result ≡ mixing self.order k self.j + check_cost self.order.field self.order.shares) × (result ≤ most_draws + most_rows * most_draws) }
    {
        self.mixing(k) + table::check_cost(self.order.field, self.order.shares as usize)
    }

    // All steps on row r, where the column takes the pivot of this row or is passed over.
    // stays: `taken` is the Bool of `column_cost` (specs/Code/Columns.antt), which adds a term to the sum and switches no step.
    #[tactic(auto, unfolding(crate::specs::Code::Columns::column_cost))]
    fn cost(self, r: usize, taken: bool) -> usize
        ensures { (result ≡ column_cost self.order r self.j taken) × (result ≤ most_column) }
    {
        let k = (self.order.rows as usize).saturating_sub(r);
        let sought = self.seeking(k);
        if taken {
            sought + self.taking(k)
        } else {
            sought
        }
    }
}

// So many Opens.
fn opening(o: WideOrder, k: usize) -> usize
    requires sizes { Sizes o }
    requires k_le_most_rows { k ≤ most_rows }
    ensures { (result ≡ k * open_cost o.shares) × (result ≤ most_rows * most_draws) }
{
    k * table::open_cost(o.shares as usize)
}

// All steps of columns 1 to n, by the pivots.
// stays: i counts the pivots that were met beside the columns; to ask `before` at each column would sum the pivots again for every column of every step.
fn columns_cost(o: WideOrder, v: &Pivots, n: usize) -> usize
    requires sizes { Sizes o }
    requires n_le_columns { (n ≤ o.columns) × (v.now.found ≤ most_rows) × (ascends 0 o.columns (listed v.now) ≡ true) }
    ensures { (result ≡ columns_cost o (listed v.now) n) × (result ≤ 144 * most_column) }
{
    let mut mask = 0;
    let mut i = 0;
    for j in 1..n + 1 {
        let taken = v.slot_is(i, j as u64);
        mask += Column { order: o, j }.cost(i + 1, taken);
        i += usize::from(taken);
    }
    mask
}

// All steps of columns 1 to n, as if row 1 took each.
// stays: tried as `(1..n + 1).map(..).sum()`: its closure knows nothing of j, so that Column's facts and the bound of the sum didn't close.
fn full_cost(o: WideOrder, n: usize) -> usize
    requires sizes { Sizes o }
    requires n_le_columns { n ≤ o.columns }
    ensures { (result ≡ full_cost o n) × (result ≤ 144 * most_column) }
{
    let mut mask = 0;
    for j in 1..n + 1 {
        mask += Column { order: o, j }.cost(1, true);
    }
    mask
}

// What a whole solve wants of each tape.
pub fn wanted(o: WideOrder) -> Draws
    requires { Sizes o }
    ensures { result ≡ wanted o }
{
    let m = o.rows as usize;
    Draws {
        mask: opening(o, m) + full_cost(o, o.columns as usize),
        nonzero: m * (o.shares as usize - 1),
    }
}

// What is taken at a place: so many whole columns, so many mask draws beyond them, and so many Scales.
#[derive(Clone, Copy)]
struct Tally {
    columns: usize,
    beyond: usize,
    scales: usize,
}

impl WideProgress {
    // What is taken at step s.
    #[tactic(auto, using(crate::proofs::Tallied::tallied), unfolding(crate::specs::Code::Columns::step_done, crate::specs::Code::Columns::step_beyond, crate::specs::Code::Columns::step_scales))]
    fn taken_at(self, s: Step) -> Tally
        requires sizes { Sizes self.order }
        requires self_value { (placed self ≡ true) × (self.place ≡ At s) }
        ensures columns { (result.columns ≡ step_done self.order (listed self.pivots) s) × (result.columns ≤ self.order.columns) }
        ensures beyond { (result.beyond ≡ step_beyond self.order (listed self.pivots) s) × (result.beyond ≤ most_column) }
        ensures scales { (result.scales ≡ step_scales (listed self.pivots) s) × (result.scales ≤ most_rows) }
    {
        let o = self.order;
        let v = self.pivots;
        let scales = v.found as usize;
        let j = course::column_of(s) as usize;
        let r = row_of(v, s);
        let below = o.rows as usize - r;
        let column = Column { order: o, j };
        match s {
            Step::Mix { k, .. } => Tally {
                columns: j - 1,
                beyond: column.mixing(k as usize - r - 1),
                scales,
            },
            Step::Check(_) => Tally {
                columns: j - 1,
                beyond: column.mixing(below),
                scales,
            },
            Step::Scale(_) => Tally {
                columns: j - 1,
                beyond: column.seeking(below),
                scales: scales - 1,
            },
            Step::Clear { k, .. } => Tally {
                columns: j - 1,
                beyond: column.seeking(below) + column.taking(k as usize - r - 1),
                scales,
            },
            Step::Open(_) => Tally {
                columns: v.last() as usize,
                beyond: opening(o, below),
                scales,
            },
            Step::Lift(_) => Tally {
                columns: v.last() as usize,
                beyond: opening(o, below + 1),
                scales,
            },
        }
    }

    // What is taken at the record's place.
    #[tactic(auto, using(crate::proofs::Tallied::tallied))]
    fn taken(self) -> Tally
        requires sizes { Sizes self.order }
        requires self_value { placed self ≡ true }
        ensures columns { (result.columns ≡ done_columns self.order (listed self.pivots) self.place) × (result.columns ≤ self.order.columns) }
        ensures beyond { (result.beyond ≡ beyond self.order (listed self.pivots) self.place) × (result.beyond ≤ most_column) }
        ensures scales { (result.scales ≡ scales_before (listed self.pivots) self.place) × (result.scales ≤ most_rows) }
    {
        let o = self.order;
        let v = self.pivots;
        match self.place {
            WidePlace::At(s) => self.taken_at(s),
            WidePlace::Short => Tally {
                columns: o.columns as usize,
                beyond: 0,
                scales: v.found as usize,
            },
            WidePlace::Done => Tally {
                columns: v.last() as usize,
                beyond: opening(o, o.rows as usize),
                scales: v.found as usize,
            },
        }
    }
}

// Whether a record's counters are those of its place, by its pivots.
pub fn is_counted(p: WideProgress) -> bool
    requires sizes { Sizes p.order }
    requires p_value { placed p ≡ true }
    ensures { result ≡ counted p }
{
    let taken = p.taken();
    let mask = columns_cost(p.order, &p.pivots, taken.columns) + taken.beyond;
    let nonzero = taken.scales * (p.order.shares as usize - 1);
    p.mask == mask as u64 && p.nonzero == nonzero as u64
}

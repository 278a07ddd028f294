// The small rules on sharings of 01: Refresh, the pair refresh, Opening and Inversion. Product stands in row, and the zero flag in flag.
// Stands on field. A sharing is a slice of its n shares, n from 2 to 4; ds is a part of the mask tape that begins at the rule's own first
// draw and is at least as long as the rule needs.
#![tactic(auto)]

ghost use Rattle.std.specs.Prelude.{◌≡◌, ℕ, List, [], ◌∷◌, ◌++◌, ◌+◌, ◌-◌, ◌*◌, ◌<◌, ◌≤◌, length, replicate};
ghost use Rattle.field.specs.Field.{F16, field_of};
ghost use Rattle.sharing.specs.Run.{tab, pairs, over_pairs};
ghost use Rattle.sharing.specs.Rules.{sum, draw_at, add_at, sub_at, refresh, InversionFits, pair_refresh_turn, pair_refresh, opening, scaled, blinded, blinded_value, factors, four_of, inversion_draws};

// The limits of 01, as in specs/Bounds.
pub const MOST_ROWS: u64 = 96;

pub const MOST_WIDTH: usize = 97;

// The answer of an inversion: n factors whose product is the inverse; places not in use are 0.
// stays: what may not change (the paper's form of Factors).
#[derive(Clone, Copy)]
pub struct Factors {
    pub f: [u8; 4],
    pub n: usize,
}

// N, the number of pairs of n shares.
pub fn pair_count(n: usize) -> usize
    requires { (2 ≤ n) × (n ≤ 4) }
    ensures { result ≡ pairs n }
{
    n * (n - 1) / 2
}

pub fn copy_into(dst: &mut [u8], src: &[u8])
    requires { length dst.old ≡ length src.now }
    ensures { dst.new ≡ src.now }
{
    // stays: the new form misses a bar of speed (copy_from_slice calls memmove for a zero flag's 2 to 4 bytes: 243 instructions for 218).
    for (k, x) in src.iter().enumerate() {
        dst[k] = *x;
    }
}

// stays: the name that the two walks and docs/DECISIONS.md have, with its promise as one equation; its body is the library's fill.
pub fn wipe(x: &mut [u8])
    ensures { x.new ≡ replicate (length x.old) 0 }
{
    x.fill(0);
}

// The value of a sharing.
pub fn sum(f: u64, s: &[u8]) -> u8
    ensures { result ≡ sum (field_of f) s.now }
{
    let mut v: u8 = 0;
    for x in s.iter().rev() {
        v = field::add(f, *x, v);
    }
    v
}

pub fn add_at(f: u64, s: &mut [u8], i: usize, v: u8)
    requires { i < length s.old }
    ensures { s.new ≡ add_at (field_of f) i v s.old }
{
    s[i] = field::add(f, s[i], v);
}

// d is added to share i and taken from share j.
fn join(f: u64, s: &mut [u8], d: u8, i: usize, j: usize)
    requires { (i < length s.old) × (j < length s.old) }
    ensures { s.new ≡ sub_at (field_of f) j d (add_at (field_of f) i d s.old) }
{
    s[i] = field::add(f, s[i], d);
    s[j] = field::sub(f, s[j], d);
}

pub fn refresh(f: u64, s: &mut [u8], ds: &[u8])
    requires { (0 < length s.old) × (length s.old - 1 ≤ length ds.now) }
    ensures { s.new ≡ refresh (field_of f) ds.now s.old }
{
    let draws = s.len() - 1;
    for (k, d) in ds[..draws].iter().enumerate() {
        join(f, s, field::draw(f, *d), k + 1, 0);
    }
}

// What is done at each pair i < j of n places, in the order 12, 13, .., 23, ..: k is the pair's number from 0.
pub trait PairRule {
    // What a turn asks of the pair and of the length of the slice that it writes to.
    ghost Reaches: { Self → ℕ → ℕ → ℕ → ℕ → Type 0 };

    ghost turn: { Self → ℕ → ℕ → ℕ → List ℕ → List ℕ };

    fn turn(&self, out: &mut [u8], k: usize, i: usize, j: usize)
        requires { Reaches self.now k i j (length out.old) }
        ensures { out.new ≡ turn self.now k i j out.old };
}

// The rule at each pair in turn.
pub fn over_pairs<R: PairRule>(rule: &R, n: usize, out: &mut [u8])
    requires few { n ≤ 4 }
    requires reaches { (k i j : ℕ) → k < pairs n → i < j → j < n → R.Reaches rule.now k i j (length out.old) }
    ensures { out.new ≡ over_pairs (R.turn rule.now) n out.old }
{
    // stays: the new form is no plainer (a pair's number, worked out of i and j, is a formula with n, and a count is not).
    let mut k: usize = 0;
    for i in 0..n {
        for j in i + 1..n {
            rule.turn(out, k, i, j);
            k += 1;
        }
    }
}

#[derive(Clone, Copy)]
struct PairRefresh<'a> {
    f: u64,
    ds: &'a [u8],
}

impl<'a> PairRule for PairRefresh<'a> {
    ghost Reaches = { λ r k i j len. (i < len) × (j < len) × (k < length r.ds.now) };

    ghost turn = { λ r k i j s. pair_refresh_turn (field_of r.f) r.ds.now k i j s };

    fn turn(&self, out: &mut [u8], k: usize, i: usize, j: usize) {
        join(self.f, out, field::draw(self.f, self.ds[k]), i, j);
    }
}

// Opening's first half.
pub fn pair_refresh(f: u64, s: &mut [u8], ds: &[u8])
    requires { (length s.old ≤ 4) × (pairs (length s.old) ≤ length ds.now) }
    ensures { s.new ≡ pair_refresh (field_of f) ds.now s.old }
{
    let n = s.len();
    over_pairs(&PairRefresh { f, ds }, n, s);
}

// s is a copy, which is spent: it is left as its pair refresh, which is what is summed.
pub fn opening(f: u64, s: &mut [u8], ds: &[u8]) -> u8
    requires { (length s.old ≤ 4) × (pairs (length s.old) ≤ length ds.now) }
    ensures { (result ≡ opening (field_of f) ds.now s.old) × (s.new ≡ pair_refresh (field_of f) ds.now s.old) }
{
    pair_refresh(f, s, ds);
    sum(f, s)
}

// Every share times z, which may be secret.
pub fn scale(f: u64, s: &mut [u8], z: u8)
    ensures { s.new ≡ scaled (field_of f) z s.old }
{
    for x in s.iter_mut() {
        *x = field::mul(f, z, *x);
    }
}

// The products of z's row that the shares name: z chooses the row and each share its own entry, so z may not be secret.
fn look_up16(s: &mut [u8], z: u8)
    ensures { s.new ≡ scaled F16 z s.old }
{
    let row = field::row16(z);
    for x in s.iter_mut() {
        *x = row[usize::from(*x % 16)];
    }
}

// Every share times z where z was opened, as Lift's x_j and the last factor of an inversion are.
pub fn scale_opened(f: u64, s: &mut [u8], z: u8)
    ensures { s.new ≡ scaled (field_of f) z s.old }
{
    if f == 16 {
        look_up16(s, z);
    } else {
        scale(f, s, z);
    }
}

// How many mask draws an inversion takes.
pub fn inversion_draws(n: usize) -> usize
    requires { (2 ≤ n) × (n ≤ 4) }
    ensures { (result ≡ inversion_draws n) × (result ≤ 15) }
{
    (n - 1) * (n - 1) + pair_count(n)
}

// Times each draw of the nonzero tape in turn, refreshed each time.
fn blind(f: u64, s: &mut [u8], nz: &[u8], ds: &[u8])
    requires { InversionFits s.old nz.now ds.now }
    ensures { s.new ≡ blinded (field_of f) nz.now ds.now s.old }
{
    let turns = s.len() - 1;
    for (k, z) in nz[..turns].iter().enumerate() {
        let at = k * turns;
        scale(f, s, field::draw(f, *z));
        refresh(f, s, &ds[at..]);
    }
}

// u, the value of s times all the nonzero draws.
pub fn blinded_value(f: u64, s: &[u8], nz: &[u8], ds: &[u8]) -> u8
    requires { InversionFits s.now nz.now ds.now }
    ensures { result ≡ blinded_value (field_of f) nz.now ds.now s.now }
{
    let n = s.len();
    let at = (n - 1) * (n - 1);
    let mut copy = [0u8; 4];
    copy_into(&mut copy[..n], s);
    blind(f, &mut copy[..n], nz, ds);
    opening(f, &mut copy[..n], &ds[at..])
}

// z_1..z_(n-1), then last, then 0.
fn factor_list(f: u64, n: usize, nz: &[u8], last: u8) -> [u8; 4]
    requires { (2 ≤ n) × (n ≤ 4) × (n - 1 ≤ length nz.now) }
    ensures { result ≡ four_of (tab (n - 1) (draw_at (field_of f) nz.now) ++ (last ∷ [])) }
{
    let mut list = [0u8; 4];
    for (k, z) in nz[..n - 1].iter().enumerate() {
        list[k] = field::draw(f, *z);
    }
    list[n - 1] = last;
    list
}

// The factors whose product is the inverse of the value of s. Where that value is 0 and no nonzero draw is, the last factor is 0; it is not 0
// otherwise.
pub fn inversion(f: u64, s: &[u8], nz: &[u8], ds: &[u8]) -> Factors
    requires { InversionFits s.now nz.now ds.now }
    ensures { (result.n ≡ length s.now) × (result.f ≡ four_of (factors (field_of f) nz.now ds.now s.now)) }
{
    let n = s.len();
    let u = blinded_value(f, s, nz, ds);
    let last = field::inverse(f, u);
    Factors {
        f: factor_list(f, n, nz, last),
        n,
    }
}

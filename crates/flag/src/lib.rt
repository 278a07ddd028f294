// The zero flag of 01, refreshed as R-6 has it, and And, of which it is made. Stands on sharing.
// A sharing is a slice of its n shares, n from 2 to 4; ds is a part of the mask tape that begins at the rule's own first draw and is at
// least as long as the rule needs. Sums are exclusive or here, so that the folds serve the binary fields.
#![tactic(auto)]

ghost use Rattle.std.specs.Prelude.{◌≡◌, ◌+◌, ◌-◌, ◌*◌, ◌<◌, ◌≤◌, length, drop};
ghost use Rattle.field.specs.Field.{Binary, field_of};
ghost use Rattle.sharing.specs.Run.{run, pairs, over_pairs};
ghost use Rattle.flag.specs.Flag.{and_of, folds, fold_draws, flag_draws, complemented, shifted, fresh_shift, fold, fold_turn, low_bits, zero_flag};
ghost use Rattle.flag.specs.Code.Passes.{cross_turn, cross_terms, own_terms, sum_turn, reduced, summed};

use sharing::PairRule;

// How many folds the zero flag has.
fn fold_count(f: u64) -> usize
    ensures { result ≡ folds f }
{
    if f == 16 { 2 } else { 3 }
}

// How many draws one fold takes.
fn fold_draws(n: usize) -> usize
    requires { (2 ≤ n) × (n ≤ 4) }
    ensures { (result ≡ fold_draws n) × (result ≤ 12) }
{
    2 * sharing::pair_count(n)
}

// How many draws a zero flag takes.
pub fn flag_draws(f: u64, n: usize) -> usize
    requires { (2 ≤ n) × (n ≤ 4) }
    ensures { (result ≡ flag_draws f n) × (result ≤ 36) }
{
    fold_count(f) * fold_draws(n)
}

// All w bits of share 1 turned over.
fn complement(f: u64, s: &mut [u8])
    requires binary { Binary f }
    requires s_nonzero { 0 < length s.old }
    ensures { s.new ≡ complemented (field_of f) s.old }
{
    let ones = field::reduce(f, 255);
    sharing::add_at(f, s, 0, ones);
}

// Bit 0 of each share.
fn low_bits(s: &mut [u8])
    ensures { s.new ≡ low_bits s.old }
{
    for x in s.iter_mut() {
        *x %= 2;
    }
}

// t becomes each share's w bits, shifted right by h.
fn shift<const N: usize>(f: u64, t: &mut [u8], s: &[u8], h: u8)
    requires { (h < 8) × (length s.now ≡ N) × (length t.old ≡ N) }
    ensures { t.new ≡ shifted (field_of f) h s.now }
{
    // stays: the new form misses a bar of speed (over its slices, here and in reduce, a flag of two shares takes 234 instructions for 218).
    for i in 0..N {
        t[i] = field::reduce(f, s[i]) >> h;
    }
}

// y_k becomes z_k and the term of a_i and b_j.
#[derive(Clone, Copy)]
struct CrossTerms<'a> {
    z: &'a [u8],
    a: &'a [u8],
    b: &'a [u8],
}

impl<'a> PairRule for CrossTerms<'a> {
    ghost Reaches = { λ r k i j len. (k < len) × (k < length r.z.now) × (i < length r.a.now) × (j < length r.b.now) };

    ghost turn = { λ r k i j y. cross_turn r.z.now r.a.now r.b.now k i j y };

    fn turn(&self, y: &mut [u8], k: usize, i: usize, j: usize) {
        y[k] = self.z[k] ^ (self.a[i] & self.b[j]);
    }
}

fn cross<const N: usize>(y: &mut [u8], z: &[u8], a: &[u8], b: &[u8])
    requires { (N ≤ 4) × (length a.now ≡ N) × (length b.now ≡ N) × (pairs N ≤ length y.old) × (pairs N ≤ length z.now) }
    ensures { y.new ≡ over_pairs (cross_turn z.now a.now b.now) N y.old }
{
    sharing::over_pairs(&CrossTerms { z, a, b }, N, y);
}

// s_i becomes the term of s_i and t_i, and old is s as it was.
fn own_terms<const N: usize>(s: &mut [u8], old: &mut [u8], t: &[u8])
    requires { (length s.old ≡ N) × (length old.old ≡ N) × (length t.now ≡ N) }
    ensures { (s.new ≡ own_terms s.old t.now) × (old.new ≡ s.old) }
{
    // stays: two of the three slices are written, and of a zip with an iter_mut a proof knows no element; N is a number here, as in shift.
    for i in 0..N {
        let x = s[i];
        old[i] = x;
        s[i] = x & t[i];
    }
}

// z_k joins share i, and y_k share j. In And these are the pair's draw and what it became; where both are the draw, the pair is refreshed.
#[derive(Clone, Copy)]
struct PairSums<'a> {
    z: &'a [u8],
    y: &'a [u8],
}

impl<'a> PairRule for PairSums<'a> {
    ghost Reaches = { λ r k i j len. (i < len) × (j < len) × (k < length r.z.now) × (k < length r.y.now) };

    ghost turn = { λ r k i j out. sum_turn r.z.now r.y.now k i j out };

    fn turn(&self, out: &mut [u8], k: usize, i: usize, j: usize) {
        out[i] ^= self.z[k];
        out[j] ^= self.y[k];
    }
}

fn sum_pairs<const N: usize>(out: &mut [u8], z: &[u8], y: &[u8])
    requires { (length out.old ≡ N) × (N ≤ 4) × (pairs N ≤ length z.now) × (pairs N ≤ length y.now) }
    ensures { out.new ≡ over_pairs (sum_turn z.now y.now) N out.old }
{
    sharing::over_pairs(&PairSums { z, y }, N, out);
}

// Each share modulo q.
fn reduce<const N: usize>(f: u64, s: &mut [u8])
    requires { length s.old ≡ N }
    ensures { s.new ≡ reduced (field_of f) s.old }
{
    // stays: the new form misses a bar of speed (as in shift).
    for i in 0..N {
        s[i] = field::reduce(f, s[i]);
    }
}

// Of a fold, what comes before the sharing is stored to: t becomes the shifted shares, refreshed pair by pair with ds, and each first cross
// term joins its draw, in x. z are And's draws. The refresh goes by the pass that And has, and not by sharing's, so that N is a number in it too.
fn first_terms<const N: usize>(
    f: u64,
    t: &mut [u8],
    x: &mut [u8],
    s: &[u8],
    h: u8,
    ds: &[u8],
    z: &[u8],
)
    requires binary { Binary f }
    requires h_bound { (h < 8) × (2 ≤ N) × (N ≤ 4) × (length s.now ≡ N) × (length t.old ≡ N) × (pairs N ≤ length ds.now) × (pairs N ≤ length z.now) × (pairs N ≤ length x.old) }
    ensures t_after { t.new ≡ fresh_shift (field_of f) h ds.now s.now }
    ensures x_after { x.new ≡ cross_terms N z.now s.now t.new x.old }
{
    shift::<N>(f, t, s, h);
    sum_pairs::<N>(t, ds, ds);
    reduce::<N>(f, t);
    cross::<N>(x, z, s, t);
}

// And what comes after: s is stored to; then each second cross term joins what stands in x, in y; then s is stored to again.
fn second_terms<const N: usize>(f: u64, s: &mut [u8], t: &[u8], x: &[u8], y: &mut [u8], z: &[u8])
    requires { (2 ≤ N) × (N ≤ 4) × (length s.old ≡ N) × (length t.now ≡ N) × (pairs N ≤ length z.now) × (pairs N ≤ length x.now) × (pairs N ≤ length y.old) }
    ensures { s.new ≡ summed (field_of f) N z.now s.old t.now x.now y.old }
{
    let mut old = [0u8; 4];
    own_terms::<N>(s, &mut old[..N], t);
    cross::<N>(y, x, t, &old[..N]);
    sum_pairs::<N>(s, z, y);
    reduce::<N>(f, s);
}

// The passes of a fold, with a number for n, so that the compiler unrolls the loops. It has to take x, y and s for parts of one memory, so that
// in the machine too no sum of two cross terms ever stands without the draw.
// stays: what may not change (docs/OBJECT.md, the order: in one struct x and y would be known to lie apart).
fn passes<const N: usize>(
    f: u64,
    s: &mut [u8],
    t: &mut [u8],
    x: &mut [u8],
    y: &mut [u8],
    h: u8,
    ds: &[u8],
    z: &[u8],
)
    requires binary { Binary f }
    requires h_bound { (h < 8) × (2 ≤ N) × (N ≤ 4) × (length s.old ≡ N) × (length t.old ≡ N) × (pairs N ≤ length ds.now) }
    requires s_in_bounds { (pairs N ≤ length z.now) × (pairs N ≤ length x.old) × (pairs N ≤ length y.old) }
    ensures { s.new ≡ and_of (field_of f) z.now s.old (fresh_shift (field_of f) h ds.now s.old) }
{
    first_terms::<N>(f, t, x, s, h, ds, z);
    second_terms::<N>(f, s, t, x, y, z);
}

// One fold of the flag: s becomes And(s, t), t being s shifted right by h and refreshed. x and y are lent to work in.
fn fold(f: u64, s: &mut [u8], x: &mut [u8], y: &mut [u8], h: u8, ds: &[u8])
    requires binary { Binary f }
    requires h_bound { (h < 8) × (2 ≤ length s.old) × (length s.old ≤ 4) × (fold_draws (length s.old) ≤ length ds.now) }
    requires s_in_bounds { (pairs (length s.old) ≤ length x.old) × (pairs (length s.old) ≤ length y.old) }
    ensures { s.new ≡ fold (field_of f) h ds.now s.old }
{
    let n = s.len();
    let first = sharing::pair_count(n);
    let z = &ds[first..];
    let mut t = [0u8; 4];
    match n {
        2 => passes::<2>(f, s, &mut t[..2], x, y, h, ds, z),
        3 => passes::<3>(f, s, &mut t[..3], x, y, h, ds, z),
        _ => passes::<4>(f, s, &mut t[..], x, y, h, ds, z),
    }
}

// The last two folds of the flag: h is 2, then 1.
fn fold_twice(f: u64, s: &mut [u8], x: &mut [u8], y: &mut [u8], ds: &[u8])
    requires binary { Binary f }
    requires in_bounds { (2 ≤ length s.old) × (length s.old ≤ 4) × (2 * fold_draws (length s.old) ≤ length ds.now) }
    requires s_in_bounds { (pairs (length s.old) ≤ length x.old) × (pairs (length s.old) ≤ length y.old) }
    ensures { s.new ≡ fold (field_of f) 1 (drop (fold_draws (length s.old)) ds.now) (fold (field_of f) 2 ds.now s.old) }
{
    let turn = fold_draws(s.len());
    fold(f, s, x, y, 2, ds);
    fold(f, s, x, y, 1, &ds[turn..]);
}

// The folds of the flag: h is half the width, then half of that, down to 1.
// stays: what may not change (docs/OBJECT.md: fold stays a call of its own; called in one place, in a loop over the widths, it is inlined).
fn fold_all(f: u64, s: &mut [u8], ds: &[u8])
    requires binary { Binary f }
    requires in_bounds { (2 ≤ length s.old) × (length s.old ≤ 4) × (flag_draws f (length s.old) ≤ length ds.now) }
    ensures { s.new ≡ run (fold_turn f ds.now (length s.old)) (folds f) s.old }
{
    let turn = fold_draws(s.len());
    let mut x = [0u8; 6];
    let mut y = [0u8; 6];
    if f == 16 {
        fold_twice(f, s, &mut x[..], &mut y[..], ds);
    } else {
        fold(f, s, &mut x[..], &mut y[..], 4, ds);
        fold_twice(f, s, &mut x[..], &mut y[..], &ds[turn..]);
    }
}

// out becomes the flag of s: its shares add to 1 where s is a sharing of 0, and to 0 otherwise.
pub fn zero_flag(f: u64, out: &mut [u8], s: &[u8], ds: &[u8])
    requires { (2 ≤ length s.now) × (length s.now ≤ 4) × (length out.old ≡ length s.now) × (flag_draws f (length s.now) ≤ length ds.now) }
    ensures { out.new ≡ zero_flag f ds.now s.now }
{
    sharing::copy_into(out, s);
    complement(f, out);
    fold_all(f, out, ds);
    low_bits(out);
}

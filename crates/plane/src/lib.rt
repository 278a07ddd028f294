// A row of words += Product(factor, another row): the products of all pairs of shares, as choices by what `choice` prepared, and their sums with
// the draws, in 01's order. BITS is how many bits tell a share of the factor, and N how many shares there are, so that the compiler unrolls what goes
// over bits and shares. Stands on word, and on row for the laws of Product.

#![tactic(auto)]

ghost use Rattle.std.specs.Prelude.{◌≡◌, suc, ◌+◌, ◌-◌, ◌*◌, ◌<◌, ◌≤◌, length};
ghost use Rattle.std.specs.Int.Bits.{bit_xor};
ghost use Rattle.sharing.specs.Run.{run, before, pairs};
ghost use Rattle.plane.specs.Code.Products.{dot, share_turn, all_products};
ghost use Rattle.plane.specs.Code.Sums.{own_turn, pair_turn, pairs_turn, all_sums};
ghost use Rattle.plane.specs.Code.Words.{JoinedWords};

// A share of the factor times a word: its masks choose among the word and its doubles.
fn times<const BITS: usize>(other: &[u64], b: usize, masks: &[u64], a: usize) -> u64
    requires { (a + BITS ≤ length masks.now) × (b + BITS ≤ length other.now) }
    ensures { result ≡ dot BITS masks.now a other.now b }
{
    let mut v: u64 = 0;
    // stays: masks and words stand at places of their own in two slices, and a zip over two parts of them is no shorter
    for t in 0..BITS {
        v ^= masks[a + t] & other[b + t];
    }
    v
}

// All shares of the factor times a word.
fn word_products<const BITS: usize, const N: usize>(
    p: &mut [u64],
    q: usize,
    other: &[u64],
    b: usize,
    masks: &[u64],
)
    requires { (N * BITS ≤ length masks.now) × (b + BITS ≤ length other.now) × (q + N ≤ length p.old) }
    ensures { p.new ≡ run (share_turn BITS masks.now other.now b q) N p.old }
{
    // stays: share i has its masks at i * BITS and its place in p at q + i, so that one number finds both
    for i in 0..N {
        p[q + i] = times::<BITS>(other, b, masks, i * BITS);
    }
}

// And times all words of a row.
fn products<const BITS: usize, const N: usize>(
    count: usize,
    p: &mut [u64],
    other: &[u64],
    masks: &[u64],
)
    requires { (N * BITS ≤ length masks.now) × (count * BITS ≤ length other.now) × (count * N ≤ length p.old) }
    ensures { p.new ≡ all_products BITS N count masks.now other.now p.old }
{
    // stays: a word's place in p and its doubles' in other are g times N and g times BITS; after chunks_mut a proof knows no element of p
    for g in 0..count {
        word_products::<BITS, N>(p, g * N, other, g * BITS, masks);
    }
}

// z' of a pair. `hidden` is 0 in a way that the compiler does not see through. An addition can't be exchanged with exclusive or, so in the machine
// too the draw has joined the first cross term before the second one comes, and all of it stands before it joins a share (docs/OBJECT.md).
fn crossed(z: u64, first: u64, second: u64, hidden: u64) -> u64
    requires { hidden ≡ 0 }
    ensures { result ≡ bit_xor (bit_xor z first) second }
{
    (((z ^ first) + hidden) ^ second) + hidden
}

// The terms of share i and share i join share i.
fn add_own<const N: usize>(row: &mut [u64], g: usize, p: &[u64], q: usize)
    requires { (N ≤ 4) × (g + N ≤ length row.old) × (q + N * N ≤ length p.now) }
    ensures { row.new ≡ run (own_turn N g p.now q) N row.old }
{
    // stays: share i stands at g + i, and its own term N + 1 times i on
    for i in 0..N {
        row[g + i] ^= p[q + i * (N + 1)];
    }
}

// The pairs of i; the first of them is number k of z.
fn add_pairs_of<const N: usize>(
    hidden: u64,
    row: &mut [u64],
    g: usize,
    p: &[u64],
    q: usize,
    z: &[u64],
    k: usize,
    i: usize,
)
    requires { (N ≤ 4) × (i < N) × (hidden ≡ 0) × (g + N ≤ length row.old) × (q + N * N ≤ length p.now) × (k + (N - suc i) ≤ length z.now) }
    ensures { row.new ≡ run (pair_turn N g p.now q z.now k i) (N - suc i) row.old }
{
    // stays: a pair's number finds its draw, its two terms and its two shares, which are in three slices
    for v in 0..N - 1 - i {
        let j = i + 1 + v;
        let e = q + j * N + i;
        let f = q + i * N + j;
        let d = z[k + v];
        let y = crossed(d, p[e], p[f], hidden);
        row[g + i] ^= d;
        row[g + j] ^= y;
    }
}

fn add_pairs<const N: usize>(
    hidden: u64,
    row: &mut [u64],
    g: usize,
    p: &[u64],
    q: usize,
    z: &[u64],
    k: usize,
)
    requires { (N ≤ 4) × (hidden ≡ 0) × (g + N ≤ length row.old) × (q + N * N ≤ length p.now) × (k + pairs N ≤ length z.now) }
    ensures { row.new ≡ run (pairs_turn N g p.now q z.now k) N row.old }
{
    // stays: the pairs of the shares before i are a sum over these shares, so that a count is plainer than what it comes to
    let mut at = k;
    for i in 0..N {
        add_pairs_of::<N>(hidden, row, g, p, q, z, at, i);
        at += N - 1 - i;
    }
}

// Each word of the row takes its products and draws.
fn combine<const N: usize>(words: usize, hidden: u64, row: &mut [u64], p: &[u64], z: &[u64])
    requires { (2 ≤ N) × (N ≤ 4) × (hidden ≡ 0) × (words * N ≤ length row.old) × (words * (N * N) ≤ length p.now) × (words * pairs N ≤ length z.now) }
    ensures { row.new ≡ all_sums N words p.now z.now row.old }
{
    let pairs = sharing::pair_count(N);
    // stays: word u has its shares, products and draws at three steps; after chunks_mut a proof knows no element of the row
    for u in 0..words {
        add_own::<N>(row, u * N, p, u * (N * N));
        add_pairs::<N>(hidden, row, u * N, p, u * (N * N), z, u * pairs);
    }
}

// One pass and then the other.
fn join_shares<const BITS: usize, const N: usize>(
    words: usize,
    hidden: u64,
    row: &mut [u64],
    other: &[u64],
    masks: &[u64],
    z: &[u64],
    p: &mut [u64],
)
    requires { (2 ≤ N) × (N ≤ 4) × (hidden ≡ 0) × (words * N ≤ length row.old) × (words * N * BITS ≤ length other.now) × (N * BITS ≤ length masks.now) × (words * pairs N ≤ length z.now) × (words * N * N ≤ length p.old) }
    ensures { JoinedWords BITS N words masks.now other.now z.now row.old row.new }
{
    products::<BITS, N>(words * N, p, other, masks);
    combine::<N>(words, hidden, row, p, z);
}

// The first words of a row, eight columns each, += Product: other, masks and z are what Prepared, Masked and Dealt say (word's specs). p is lent to
// work in.
pub fn join<const BITS: usize>(
    n: usize,
    words: usize,
    hidden: u64,
    row: &mut [u64],
    other: &[u64],
    masks: &[u64],
    z: &[u64],
    p: &mut [u64],
)
    requires { (2 ≤ n) × (n ≤ 4) × (hidden ≡ 0) × (words * n ≤ length row.old) × (words * n * BITS ≤ length other.now) × (n * BITS ≤ length masks.now) × (words * pairs n ≤ length z.now) × (words * n * n ≤ length p.old) }
    ensures { JoinedWords BITS n words masks.now other.now z.now row.old row.new }
{
    match n {
        2 => join_shares::<BITS, 2>(words, hidden, row, other, masks, z, p),
        3 => join_shares::<BITS, 3>(words, hidden, row, other, masks, z, p),
        _ => join_shares::<BITS, 4>(words, hidden, row, other, masks, z, p),
    }
}

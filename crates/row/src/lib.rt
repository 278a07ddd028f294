// Product of a factor and each entry of a row, for the whole row at once: Mix and Clear spend their time here. Stands on sharing.
//
// The bytes stay as they are in the table, an entry's n shares side by side, and the same is done at each byte, so that the compiler takes
// sixteen at once. There are n rows of span bytes to work in. At share s of a column row d is for the pair of share s and the share d before
// it. `spread` puts the pair's draw there, and into row 0 what is taken from share s. `products` adds a_(s-d)·b_s, the first cross term. Where
// there is no share d before, that is a_(s-d+n)·b_s, the second cross term of another pair, and stands alone. `gather` brings the two
// together and sums. These are loops of their own, through memory: in the machine too the draw joins the first cross term before the
// second one comes (docs/OBJECT.md).
//
// A product is a choice for each bit: `repeat` and `double_rows` make a stream of the factor's shares, over and over, and of their doubles,
// r bytes for each bit of an element. Read from d places before, it has at each byte the share that row d wants.
#![tactic(auto)]

ghost use Rattle.std.specs.Prelude.{◌≡◌, ◌+◌, ◌-◌, ◌*◌, ◌^◌, ◌<◌, ◌≤◌, length};
ghost use Rattle.field.specs.Field.{field_of, draw};
ghost use Rattle.sharing.specs.Run.{run, tab, before, pairs, pairs_of, over_pairs};
ghost use Rattle.sharing.specs.Rules.{draw_at};
ghost use Rattle.sharing.specs.Bounds.{most_width, row_room};
ghost use Rattle.row.specs.Code.Streams.{doubled, repeated, doubled_rows};
ghost use Rattle.row.specs.Code.Spread.{spread_turn, spread_all};
ghost use Rattle.row.specs.Code.Products.{term, byte_products, product_byte_turn, all_products};
ghost use Rattle.row.specs.Code.Gather.{later, gathered_byte, block_turn, gather_all};
ghost use Rattle.row.specs.Code.Shape.{Shape};
ghost use Rattle.row.specs.Rows.{Products};

// Room for a row, and for n work rows: whole blocks of 16 or 48 bytes.
pub const ROW_ROOM: usize = (sharing::MOST_WIDTH * 4 + 15) / 16 * 16;

// stays: three constants, since Rattle has no computed const argument, and the room is fixed memory (a rule of the project).
const WORK_ROOM_2: usize = 2 * ((sharing::MOST_WIDTH * 2 + 47) / 48 * 48);

const WORK_ROOM_3: usize = 3 * ((sharing::MOST_WIDTH * 3 + 47) / 48 * 48);

const WORK_ROOM_4: usize = 4 * ROW_ROOM;

// An element times the polynomial x.
fn doubled<const BITS: usize>(x: u8) -> u8
    ensures { result ≡ doubled BITS x }
{
    if BITS == 4 {
        ((x << 1) % 16) ^ (((x >> 3) % 2) * 3)
    } else {
        (x << 1) ^ (((x >> 7) % 2) * 27)
    }
}

// The factor's shares, over and over.
// stays: by hand: with `copy_from_slice` a whole product of two shares takes 12 of a hundred more instructions (measured).
fn repeat<const N: usize>(turns: usize, m: &mut [u8], a: &[u8; N])
    requires { turns * N ≤ length m.old }
    ensures { m.new ≡ repeated N turns a.now m.old }
{
    for u in 0..turns {
        for (s, x) in a.iter().enumerate() {
            m[u * N + s] = *x;
        }
    }
}

// Each row of the stream is the one before it, doubled.
// stays: by the index: each turn reads one place of m and writes another, and `split_at_mut` for each row is no plainer.
fn double_rows<const BITS: usize>(r: usize, m: &mut [u8])
    requires { (1 ≤ BITS) × (BITS ≤ 8) × (r ≤ 64) × (BITS * r ≤ length m.old) }
    ensures { m.new ≡ doubled_rows BITS r m.old }
{
    for q in 0..(BITS - 1) * r {
        m[q + r] = doubled::<BITS>(m[q]);
    }
}

// stays: span beside c, and r beside m: a struct around what is lent here to write and in `gather` to read is no plainer.
// The pairs of i; the first of them is pair number at of the column's, whose first byte is at a and whose first draw is number b.
fn spread_of<const N: usize>(
    span: usize,
    c: &mut [u8],
    a: usize,
    z: &[u8],
    b: usize,
    i: usize,
    at: usize,
)
    requires { (N ≤ 4) × (i < N) × (at ≡ before N i) × (a + N ≤ span) × (span ≤ row_room) × (N * span ≤ length c.old) × (b + pairs N ≤ length z.now) }
    ensures { c.new ≡ pairs_of (spread_turn span z.now a b) N i c.old }
{
    let p = a + i;
    let f = b + at;
    for (v, r) in z[f..f + (N - 1 - i)].iter().enumerate() {
        let d = v + 1;
        let g = d * span + p + d;
        c[p] ^= *r;
        c[g] ^= *r;
    }
}

// One column.
fn spread_column<const N: usize>(span: usize, c: &mut [u8], a: usize, z: &[u8], b: usize)
    requires { (N ≤ 4) × (a + N ≤ span) × (span ≤ row_room) × (N * span ≤ length c.old) × (b + pairs N ≤ length z.now) }
    ensures { c.new ≡ over_pairs (spread_turn span z.now a b) N c.old }
{
    // stays: counted, since i(2N-1-i)/2, the number of pairs before those of i, is no plainer.
    let mut at: usize = 0;
    for i in 0..N {
        spread_of::<N>(span, c, a, z, b, i, at);
        at += N - 1 - i;
    }
}

// stays: the number of a turn gives places at several steps, here, in the products and in gather, so that no one slice is gone through.
// inline, as products: where the compiler has no vectors it made one function of these for both fields, and looked at the number of bits in each turn.
#[inline]
fn spread<const N: usize>(columns: usize, span: usize, c: &mut [u8], z: &[u8])
    requires { (2 ≤ N) × (N ≤ 4) × (columns * N ≤ span) × (span ≤ row_room) × (N * span ≤ length c.old) × (columns * pairs N ≤ length z.now) }
    ensures { c.new ≡ spread_all N columns span z.now c.old }
{
    let np = sharing::pair_count(N);
    for u in 0..columns {
        spread_column::<N>(span, c, u * N, z, u * np);
    }
}

// The byte y times the share that stands at g of m.
// stays: bits is an argument: as a const parameter it makes jumps by the bits of b, and 3 to 6 times the instructions (measured).
fn term(bits: usize, r: usize, m: &[u8], g: usize, y: u8) -> u8
    requires { (bits ≤ 8) × (r ≤ 64) × (g < r) × (bits * r ≤ length m.now) }
    ensures { result ≡ term m.now r bits g y }
{
    let mut v: u8 = 0;
    let mut h = y;
    for t in 0..bits {
        v ^= (h & 1) * m[t * r + g];
        h >>= 1;
    }
    v
}

// Byte o of the row, which is byte q of its block.
fn product_byte<const N: usize>(
    bits: usize,
    r: usize,
    span: usize,
    c: &mut [u8],
    m: &[u8],
    y: u8,
    o: usize,
    q: usize,
)
    requires { (bits ≤ 8) × (r ≤ 64) × (q + N < r) × (bits * r ≤ length m.now) × (N ≤ 4) × (o < span) × (span ≤ row_room) × (N * span ≤ length c.old) }
    ensures { c.new ≡ byte_products bits N r span m.now y o q c.old }
{
    for d in 0..N {
        let g = q + N - d;
        c[d * span + o] ^= term(bits, r, m, g, y);
    }
}

// The block of BLOCK bytes that begins at `at`.
fn product_block<const N: usize, const BLOCK: usize>(
    bits: usize,
    span: usize,
    c: &mut [u8],
    b: &[u8],
    m: &[u8],
    at: usize,
)
    requires { (bits ≤ 8) × (BLOCK ≤ 48) × (bits * (BLOCK + 16) ≤ length m.now) × (N ≤ 4) × (at + BLOCK ≤ span) × (span ≤ row_room) × (N * span ≤ length c.old) × (at + BLOCK ≤ length b.now) }
    ensures { c.new ≡ run (product_byte_turn bits N (BLOCK + 16) span b.now m.now at) BLOCK c.old }
{
    for (q, y) in b[at..at + BLOCK].iter().enumerate() {
        product_byte::<N>(bits, BLOCK + 16, span, c, m, *y, at + q, q);
    }
}

#[inline]
fn products<const N: usize, const BLOCK: usize>(
    bits: usize,
    blocks: usize,
    span: usize,
    c: &mut [u8],
    b: &[u8],
    m: &[u8],
)
    requires { (bits ≤ 8) × (BLOCK ≤ 48) × (bits * (BLOCK + 16) ≤ length m.now) × (N ≤ 4) × (blocks * BLOCK ≤ span) × (span ≤ row_room) × (N * span ≤ length c.old) × (blocks * BLOCK ≤ length b.now) }
    ensures { c.new ≡ all_products bits N BLOCK (BLOCK + 16) blocks span b.now m.now c.old }
{
    for u in 0..blocks {
        product_block::<N, BLOCK>(bits, span, c, b, m, u * BLOCK);
    }
}

// All ones where byte q of a block has a share d before it in its own column, and else 0. Worked out and not looked up (R-4): N, d and q are
// known where the block's loop is unrolled or made of vectors.
fn later<const N: usize>(d: usize, q: usize) -> u8
    requires { 1 ≤ N }
    ensures { result ≡ later N d q }
{
    if d <= q % N { 255 } else { 0 }
}

// Byte o, which is byte q of its block. What stands in row d and what stands d places before in row n - d join each other first: the draw
// is in one of the two.
fn gather_byte<const N: usize>(span: usize, c: &[u8], o: usize, q: usize) -> u8
    requires { (1 ≤ N) × (N ≤ 4) × (N ≤ span) × (o < span) × (span ≤ row_room) × (N * span ≤ length c.now) }
    ensures { result ≡ gathered_byte N span c.now o q }
{
    let mut v = c[o];
    for i in 0..N - 1 {
        let d = N - 1 - i;
        let g = d * span + o;
        let h = (i + 1) * span + o - d;
        v ^= (c[g] ^ c[h]) & later::<N>(d, q);
    }
    v
}

// The block of BLOCK bytes that begins at `at`.
fn gather_block<const N: usize, const BLOCK: usize>(
    span: usize,
    out: &mut [u8],
    c: &[u8],
    at: usize,
)
    requires { (1 ≤ N) × (N ≤ 4) × (N ≤ span) × (at + BLOCK ≤ span) × (span ≤ row_room) × (N * span ≤ length c.now) × (span ≤ length out.old) }
    ensures { out.new ≡ run (block_turn N span c.now at) BLOCK out.old }
{
    for (q, x) in out[at..at + BLOCK].iter_mut().enumerate() {
        *x = gather_byte::<N>(span, c, at + q, q);
    }
}

fn gather<const N: usize, const BLOCK: usize>(blocks: usize, span: usize, out: &mut [u8], c: &[u8])
    requires { (1 ≤ N) × (N ≤ 4) × (N ≤ span) × (blocks * BLOCK ≤ span) × (span ≤ row_room) × (N * span ≤ length c.now) × (span ≤ length out.old) }
    ensures { out.new ≡ gather_all N BLOCK blocks span c.now out.old }
{
    for u in 0..blocks {
        gather_block::<N, BLOCK>(span, out, c, u * BLOCK);
    }
}

// The factor's shares, modulo q.
// stays: by the index, as in table::join: of a zip with its iter_mut a proof knows no element.
fn reduced(f: u64, a: &mut [u8], factor: &[u8])
    requires { length a.old ≡ length factor.now }
    ensures { a.new ≡ tab (length factor.now) (draw_at (field_of f) factor.now) }
{
    for (s, x) in a.iter_mut().enumerate() {
        *x = field::reduce(f, factor[s]);
    }
}

// The passes for a field and a number of shares. The numbers are const parameters, so that the compiler unrolls what goes over shares and bits.
// The products go by blocks of BLOCK bytes and the sums by blocks of WIDE: 16, or 48, where 16 is no multiple of N or the body is so small that it
// would unroll the block too. A row of the stream is 16 bytes longer than a block, since it is read from up to N places on.
fn passes<
    const BITS: usize,
    const N: usize,
    const BLOCK: usize,
    const WIDE: usize,
    const STREAM: usize,
    const ROOM: usize,
>(columns: usize, row: &mut [u8], factor: &[u8], mask: &[u8])
    requires shape { Shape BITS N BLOCK WIDE STREAM ROOM }
    requires le_columns { (1 ≤ columns) × (columns ≤ most_width) × (length row.old ≡ row_room) × (length factor.now ≡ N) × (columns * pairs N ≤ length mask.now) }
    ensures { Products (field_of (2 ^ BITS)) N columns mask.now factor.now row.old row.new }
{
    let len = columns * N;
    let blocks = (len + (BLOCK - 1)) / BLOCK;
    let wide = (len + (WIDE - 1)) / WIDE;
    let span = wide * WIDE;
    let mut a = [0u8; N];
    let mut c = [0u8; ROOM];
    let mut m = [0u8; STREAM];
    reduced(1 << BITS, &mut a[..], factor);
    spread::<N>(columns, span, &mut c[..], mask);
    repeat::<N>((BLOCK + 16) / N, &mut m[..], &a);
    double_rows::<BITS>(BLOCK + 16, &mut m[..]);
    products::<N, BLOCK>(BITS, blocks, span, &mut c[..], row, &m[..]);
    gather::<N, WIDE>(wide, span, row, &c[..]);
}

// The entries of a row, which begins with `columns` of them, become Product(factor, entry), each share modulo q.
pub fn product(f: u64, n: usize, columns: usize, row: &mut [u8], factor: &[u8], mask: &[u8])
    requires { (2 ≤ n) × (n ≤ 4) × (1 ≤ columns) × (columns ≤ most_width) × (length row.old ≡ row_room) × (length factor.now ≡ n) × (columns * pairs n ≤ length mask.now) }
    ensures { Products (field_of f) n columns mask.now factor.now row.old row.new }
{
    match (f, n) {
        (16, 2) => passes::<4, 2, 16, 48, 128, WORK_ROOM_2>(columns, row, factor, mask),
        (16, 3) => passes::<4, 3, 48, 48, 256, WORK_ROOM_3>(columns, row, factor, mask),
        (16, _) => passes::<4, 4, 16, 16, 128, WORK_ROOM_4>(columns, row, factor, mask),
        (_, 2) => passes::<8, 2, 16, 48, 256, WORK_ROOM_2>(columns, row, factor, mask),
        (_, 3) => passes::<8, 3, 48, 48, 512, WORK_ROOM_3>(columns, row, factor, mask),
        _ => passes::<8, 4, 16, 16, 256, WORK_ROOM_4>(columns, row, factor, mask),
    }
}

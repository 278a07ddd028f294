// The fields F16 and F256: sum, difference, product, inverse, the element that a byte counts as, and the draw of a tape's byte.
// The ground of the map: it stands on nothing. An operation takes any bytes; a byte of 16 or more counts in F16 as what it leaves.
#![tactic(auto)]

ghost use Rattle.std.specs.Prelude.{◌≡◌, ◌<◌, ◌≤◌, ◌%◌, ◌^◌};
ghost use Rattle.field.specs.Field.{F16, F256, inv, field_of, sub, draw, RowOf};
ghost use Rattle.field.specs.Code.Power.{power254};
ghost use Rattle.field.specs.Code.Shift.{shift_add};

// stays: what may not change (the paper's form: constant tables in field, MUL16 indexed by both factors).
const MUL16: [[u8; 16]; 16] = [
    [0, 0, 0, 0, 0, 0, 0, 0, 0, 0, 0, 0, 0, 0, 0, 0],
    [0, 1, 2, 3, 4, 5, 6, 7, 8, 9, 10, 11, 12, 13, 14, 15],
    [0, 2, 4, 6, 8, 10, 12, 14, 3, 1, 7, 5, 11, 9, 15, 13],
    [0, 3, 6, 5, 12, 15, 10, 9, 11, 8, 13, 14, 7, 4, 1, 2],
    [0, 4, 8, 12, 3, 7, 11, 15, 6, 2, 14, 10, 5, 1, 13, 9],
    [0, 5, 10, 15, 7, 2, 13, 8, 14, 11, 4, 1, 9, 12, 3, 6],
    [0, 6, 12, 10, 11, 13, 7, 1, 5, 3, 9, 15, 14, 8, 2, 4],
    [0, 7, 14, 9, 15, 8, 1, 6, 13, 10, 3, 4, 2, 5, 12, 11],
    [0, 8, 3, 11, 6, 14, 5, 13, 12, 4, 15, 7, 10, 2, 9, 1],
    [0, 9, 1, 8, 2, 11, 3, 10, 4, 13, 5, 12, 6, 15, 7, 14],
    [0, 10, 7, 13, 14, 4, 9, 3, 15, 5, 8, 2, 1, 11, 6, 12],
    [0, 11, 5, 14, 10, 1, 15, 4, 7, 12, 2, 9, 13, 6, 8, 3],
    [0, 12, 11, 7, 5, 9, 14, 2, 10, 6, 1, 13, 15, 3, 4, 8],
    [0, 13, 9, 4, 1, 12, 8, 5, 2, 15, 11, 6, 3, 14, 10, 7],
    [0, 14, 15, 1, 13, 3, 2, 12, 9, 7, 6, 8, 4, 10, 11, 5],
    [0, 15, 13, 2, 9, 6, 4, 11, 1, 14, 12, 3, 8, 7, 5, 10],
];

const INV16: [u8; 16] = [0, 1, 9, 14, 13, 11, 7, 6, 15, 2, 12, 5, 10, 4, 3, 8];

// A chain of products that ends in the power 254. The powers are 1, 2, 3, 6, 12, 15, 30, 60, 120, 240, 252 and 254: each is the product of
// the one before it and of one whose place, from 0, stands here.
const CHAIN: [u8; 11] = [0, 0, 2, 3, 2, 5, 6, 7, 8, 4, 1];

// The row of a: its products with each element, in order. Who looks a secret byte up in it must have an a that is public: a look-up in
// the whole table is an address that both factors choose.
pub fn row16(a: u8) -> [u8; 16]
    ensures { RowOf a result }
{
    let i = usize::from(a % 16);
    MUL16[i]
}

// 0, in a way that the compiler does not see through: a square leaves 0 or 1 modulo 3. What such a 0 is added to, by plain addition, is a sum to
// itself: the compiler does not move an exclusive or past it.
pub fn unseen_zero(a: u8) -> u8
    ensures { result ≡ 0 }
{
    let g = a % 16;
    g * g % 3 / 2
}

// 1, likewise. A bit that is taken by a 1 that the compiler knows is a choice to it, and on AArch64 it made a branch of that (docs/OBJECT.md).
pub fn unseen_one(a: u8) -> u8
    ensures { result ≡ 1 }
{
    1 + unseen_zero(a)
}

// The product of two elements of W bits by shifting and adding, with no branch and no table, where both may be secret: p + x·y is the product
// at each turn. TAIL is what x^W leaves. one is 1; the caller chooses whether the compiler may know that.
fn shift_add<const W: usize, const TAIL: u8>(one: u8, a: u8, b: u8) -> u8
    requires field { (0 < W) × (W ≤ 8) × (TAIL < 2 ^ W) }
    requires factors { (one ≡ 1) × (a < 2 ^ W) }
    ensures { result ≡ shift_add W TAIL W a b }
{
    let mut p: u8 = 0;
    let mut x = a;
    let mut y = b;
    for _ in 0..W {
        p ^= (y & one) * x;
        x = ((x << 1) & (255 >> (8 - W))) ^ ((x >> (W - 1)) * TAIL);
        y >>= 1;
    }
    p
}

// In F16 by a 1 that the compiler does not see through.
fn shift16(a: u8, b: u8) -> u8
    ensures { result ≡ F16.mul a b }
{
    shift_add::<4, 3>(unseen_one(a), a % 16, b % 16)
}

// In F256, where the compiler has made no branch.
fn mul256(a: u8, b: u8) -> u8
    ensures { result ≡ F256.mul a b }
{
    shift_add::<8, 0x1b>(1, a, b)
}

fn inv16(a: u8) -> u8
    ensures { result ≡ inv F16 a }
{
    let i = usize::from(a % 16);
    INV16[i]
}

// In a loop: written out, eleven products take more room than the table of inverses that they stand for.
fn power254(a: u8) -> u8
    ensures { result ≡ power254 a }
{
    let mut powers = [0u8; 12];
    powers[0] = a;
    for (i, k) in CHAIN.iter().enumerate() {
        powers[i + 1] = mul256(powers[i], powers[usize::from(*k)]);
    }
    powers[11]
}

// The power 254 is 0 at 0; any other element times its power 254 is the power 255, which is 1. No branch and no address depends on a.
fn inv256(a: u8) -> u8
    ensures { result ≡ inv F256 a }
{
    power254(a)
}

// With one mask and no choice after it: a loop over this is one loop to the compiler.
// stays: what may not change (a field goes by its number in the contracts of add, mul, inverse and reduce, and in hostozaro.h).
pub fn add(f: u64, a: u8, b: u8) -> u8
    ensures { result ≡ (field_of f).add a b }
{
    let m: u8 = if f == 16 { 15 } else { 255 };
    (a ^ b) & m
}

// Sum and difference are both exclusive or.
// stays: what may not change (01's sub beside its add, in the contracts of sub and of sharing's refreshes).
pub fn sub(f: u64, a: u8, b: u8) -> u8
    ensures { result ≡ sub (field_of f) a b }
{
    add(f, a, b)
}

// The product, where both factors may be secret.
pub fn mul(f: u64, a: u8, b: u8) -> u8
    ensures { result ≡ (field_of f).mul a b }
{
    if f == 16 { shift16(a, b) } else { mul256(a, b) }
}

// The inverse; 0 at 0, which has none.
pub fn inverse(f: u64, a: u8) -> u8
    ensures { result ≡ inv (field_of f) a }
{
    if f == 16 { inv16(a) } else { inv256(a) }
}

// The element that a byte counts as.
pub fn reduce(f: u64, x: u8) -> u8
    ensures { result ≡ x % (field_of f).q }
{
    if f == 16 { x % 16 } else { x }
}

// The draw that a byte of a tape is.
// stays: what may not change (01's draw, which another field than these two need not take modulo q; contract of draw).
pub fn draw(f: u64, byte: u8) -> u8
    ensures { result ≡ draw (field_of f) byte }
{
    reduce(f, byte)
}

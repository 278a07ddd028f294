// What is prepared of a row in words and of a factor, so that a product is a choice for each bit of the factor: each word and its doubles side by
// side, and masks of ones or zeros. BITS is how many bits of the factor's shares are looked at: with one, a row's words are copied as they are, for a
// factor whose shares are 0 or 1. Stands on word.

#![tactic(auto)]

ghost use Rattle.std.specs.Prelude.{◌≡◌, ◌+◌, ◌*◌, ◌/◌, ◌%◌, ◌^◌, ◌<◌, ◌≤◌, length, EachIndex, slice_index};
ghost use Rattle.std.specs.Int.Bits.{bit_and};
ghost use Rattle.sharing.specs.Bounds.{most_columns};
ghost use Rattle.word.specs.Rows.{words_of, Prepared, Masked};
ghost use Rattle.choice.specs.Code.Writing.{most_words, WroteGroups, IsDouble, IsMultiple, IsMultipleOf, IsMask, IsLive};

pub const ONES: u64 = u64::MAX;

// The lowest bit of each lane.
const LOWEST: u64 = 0x0101010101010101;

// Each lane times the polynomial x, where bit TOP is an element's highest and LOW has the bits below it: what stays in the lanes, and then what
// leaves them.
fn moved<const TOP: u32, const LOW: u64>(x: u64) -> (u64, u64)
    requires { TOP < 64 }
    ensures { (result.0 ≡ bit_and x LOW * 2 ^ 1 % 2 ^ 64) × (result.1 ≡ bit_and (x / 2 ^ TOP) LOWEST) }
{
    ((x & LOW) << 1, (x >> TOP) & LOWEST)
}

// x^4 is x + 1 in F16, and x^8 is x^4 + x^3 + x + 1 in F256.
fn double<const BITS: usize>(x: u64) -> u64
    ensures { IsDouble BITS x result }
{
    if BITS == 4 {
        let (low, h) = moved::<3, 0x0707070707070707>(x);
        low ^ h ^ (h << 1)
    } else {
        let (low, h) = moved::<7, 0x7f7f7f7f7f7f7f7f>(x);
        low ^ h ^ (h << 1) ^ (h << 3) ^ (h << 4)
    }
}

// A word and its doubles.
fn multiples<const BITS: usize>(group: &mut [u64], x: u64)
    ensures { EachIndex group.new (λ t. IsMultiple BITS x t (slice_index group.new t)) }
{
    let mut v = x;
    for place in group.iter_mut() {
        *place = v;
        v = double::<BITS>(v);
    }
}

// Those of words from..to of a row, in the live lanes.
fn prepare_part<const BITS: usize>(
    from: usize,
    to: usize,
    live: u64,
    other: &mut [u64],
    row: &[u64],
)
    requires { (BITS ≤ 8) × (from ≤ to) × (to ≤ most_words) × (to ≤ length row.now) × (to * BITS ≤ length other.old) }
    ensures { WroteGroups BITS from to (IsMultipleOf BITS live row.now) other.old other.new }
{
    // stays: the groups are lent from `other` one by one, and after chunks_mut a proof knows no element of it
    for g in from..to {
        let at = g * BITS;
        multiples::<BITS>(&mut other[at..at + BITS], row[g] & live);
    }
}

// The lanes of the last word that are of the last `columns` columns.
fn live_lanes(columns: usize) -> u64
    requires { columns ≤ most_columns }
    ensures { IsLive columns result }
{
    let dead = 7 - ((columns + 7) % 8) as u64;
    ONES << (8 * dead)
}

pub fn prepare<const BITS: usize>(n: usize, columns: usize, other: &mut [u64], row: &[u64])
    requires le_bits { (1 ≤ BITS) × (BITS ≤ 8) × (2 ≤ n) × (n ≤ 4) × (1 ≤ columns) × (columns ≤ most_columns) }
    requires n_in_bounds { (words_of columns * n ≤ length row.now) × (words_of columns * n * BITS ≤ length other.old) }
    ensures { Prepared BITS n columns row.now other.new }
{
    let count = (columns + 7) / 8 * n;
    let full = count - n;
    prepare_part::<BITS>(0, full, ONES, other, row);
    prepare_part::<BITS>(full, count, live_lanes(columns), other, row);
}

// All ones or all zeros for each bit of a. `one` is 1 in a way that the compiler does not see through, so that a mask is no choice to it.
fn share_masks(group: &mut [u64], a: u8, one: u8)
    requires { one ≡ 1 }
    ensures { EachIndex group.new (λ t. IsMask a t (slice_index group.new t)) }
{
    let mut h = a;
    for mask in group.iter_mut() {
        *mask = u64::from(h & one) * ONES;
        h >>= 1;
    }
}

pub fn masks_of<const BITS: usize>(masks: &mut [u64], factor: &[u8], one: u8)
    requires { (one ≡ 1) × (BITS ≤ 8) × (length factor.now ≤ 4) × (length factor.now * BITS ≤ length masks.old) }
    ensures { Masked BITS (length factor.now) factor.now masks.new }
{
    for (i, share) in factor.iter().enumerate() {
        let at = i * BITS;
        share_masks(&mut masks[at..at + BITS], *share, one);
    }
}

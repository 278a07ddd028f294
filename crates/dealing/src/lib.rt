// Columns of bytes, so many to a column, into words: the shares of a row of the table, or the draws of a row. N is how many bytes a column has, where the
// compiler is to know how far apart the bytes are. Stands on word.

#![tactic(auto)]

ghost use Rattle.std.specs.Prelude.{◌≡◌, ◌+◌, ◌-◌, ◌*◌, ◌/◌, ◌%◌, ◌<◌, ◌≤◌, length, get_or};
ghost use Rattle.field.specs.Field.{field_of};
ghost use Rattle.sharing.specs.Bounds.{most_columns};
ghost use Rattle.word.specs.Lanes.{Lanes};
ghost use Rattle.word.specs.Rows.{words_of, Dealt};
ghost use Rattle.dealing.specs.Code.Words.{column_byte, kept_byte, Written, DealtWords};

// Eight bytes, N apart.
fn word_at<const N: usize>(d: &[u8], o: usize) -> u64
    requires { (N ≤ 6) × (o + 7 * N < length d.now) }
    ensures { Lanes result (λ l. get_or d.now (o + l * N) 0) }
{
    let mut bytes = [0u8; 8];
    // stays: tried by iter_mut().enumerate() over the array: the turn's value has a name in the goal that no answer may cite, and the proof didn't close
    for l in 0..8 {
        bytes[l] = d[o + l * N];
    }
    u64::from_le_bytes(bytes)
}

// Two neighbouring bytes of each of four columns, m bytes apart. A pair is read at once.
fn four_at(d: &[u8], o: usize, m: usize) -> u64
    requires { (m ≤ 12) × (o + 3 * m + 1 < length d.now) }
    ensures { Lanes result (λ l. get_or d.now (o + l / 2 * m + l % 2) 0) }
{
    let mut v: u64 = 0;
    // stays: q is the pair's number, from which both its bytes are found; step_by over d gives one of them
    for q in (0..4).rev() {
        let p = o + q * m;
        let pair = u16::from_le_bytes([d[p], d[p + 1]]);
        v = (v << 16) + u64::from(pair);
    }
    v
}

// Of eight columns, N bytes apart, the first bytes and the second ones: pairs of bytes are read at once, those of even columns into one word
// and those of odd columns into another.
fn two_at<const N: usize>(d: &[u8], o: usize) -> (u64, u64)
    requires { (N ≤ 6) × (o + 7 * N + 1 < length d.now) }
    ensures lanes { Lanes result.0 (λ l. get_or d.now (o + l * N) 0) }
    ensures lanes_2 { Lanes result.1 (λ l. get_or d.now (o + 1 + l * N) 0) }
{
    let even = four_at(d, o, 2 * N);
    let odd = four_at(d, o + N, 2 * N);
    let x = (even & 0x00ff00ff00ff00ff) ^ ((odd & 0x00ff00ff00ff00ff) << 8);
    let y = ((even >> 8) & 0x00ff00ff00ff00ff) ^ (odd & 0xff00ff00ff00ff00);
    (x, y)
}

// The first `rest` columns, in the high lanes; 0 in the others.
fn few_at(d: &[u8], o: usize, n: usize, rest: usize) -> u64
    requires { (n ≤ 6) × (rest ≤ 8) × (o < n) × (rest * n ≤ length d.now) }
    ensures { Lanes result (column_byte n d.now 0 (8 - rest) o) }
{
    let mut v: u64 = 0;
    // stays: the number of a column gives its byte's place, n apart; a step_by over d asks for a measure and ends by its own length
    for q in 0..rest {
        v = (v >> 8) ^ (u64::from(d[o + q * n]) << 56);
    }
    v
}

// Fewer columns than a word has lanes.
fn few(n: usize, columns: usize, low: u64, row: &mut [u64], d: &[u8])
    requires { (n ≤ 6) × (columns ≤ 8) × (n ≤ length row.old) × (columns * n ≤ length d.now) }
    ensures { Written 0 n (kept_byte low n d.now 0 (8 - columns)) row.old row.new }
{
    let words = &mut row[..n];
    for (k, word) in words.iter_mut().enumerate() {
        *word = few_at(d, k, n, columns) & low;
    }
}

// Two bytes of each column at a time.
fn pairs_word<const N: usize>(d: &[u8], o: usize, shift: u64, low: u64, row: &mut [u64], at: usize)
    requires { (N ≤ 6) × (o + 8 * N ≤ length d.now) × (shift < 64) × (shift % 8 ≡ 0) × (at + N ≤ length row.old) }
    ensures { Written at (N / 2 * 2) (kept_byte low N d.now o (shift / 8)) row.old row.new }
{
    // stays: two words are written a turn, and after chunks_mut a proof knows no element of what was lent (std has no clause on it)
    for p in 0..N / 2 {
        let k = 2 * p;
        let (x, y) = two_at::<N>(d, o + k);
        row[at + k] = (x << shift) & low;
        row[at + k + 1] = (y << shift) & low;
    }
}

// The N words of the eight columns from byte o on, moved up by `shift` bits.
fn deal_word<const N: usize>(d: &[u8], o: usize, shift: u64, low: u64, row: &mut [u64], at: usize)
    requires { (N ≤ 6) × (o + 8 * N ≤ length d.now) × (shift < 64) × (shift % 8 ≡ 0) × (at + N ≤ length row.old) }
    ensures { Written at N (kept_byte low N d.now o (shift / 8)) row.old row.new }
{
    pairs_word::<N>(d, o, shift, low, row, at);
    if N % 2 == 1 {
        row[at + N - 1] = (word_at::<N>(d, o + N - 1) << shift) & low;
    }
}

// Eight columns or more. The last word takes the first eight columns, moved up so that only those that are left stay.
fn deal_many<const N: usize>(columns: usize, low: u64, row: &mut [u64], d: &[u8])
    requires n_bound { (N ≤ 6) × (8 ≤ columns) × (columns ≤ most_columns) }
    requires n_in_bounds { (columns * N ≤ length d.now) × (words_of columns * N ≤ length row.old) }
    ensures { DealtWords low N columns (words_of columns) d.now row.new }
{
    // stays: a turn's words, at u * N, are lent on as a part: after chunks_mut a proof knows no element of the row
    for u in 0..(columns + 7) / 8 {
        let left = columns - 8 * u;
        let (first, shift) = if left < 8 {
            (0, 64 - 8 * (left as u64))
        } else {
            (left - 8, 0)
        };
        deal_word::<N>(d, first * N, shift, low, row, u * N);
    }
}

fn deal_row(n: usize, columns: usize, low: u64, row: &mut [u64], d: &[u8])
    requires le_n { (1 ≤ n) × (n ≤ 6) × ((n ≡ 5) → ⊥) × (8 ≤ columns) × (columns ≤ most_columns) }
    requires n_in_bounds { (columns * n ≤ length d.now) × (words_of columns * n ≤ length row.old) }
    ensures { DealtWords low n columns (words_of columns) d.now row.new }
{
    match n {
        1 => deal_many::<1>(columns, low, row, d),
        2 => deal_many::<2>(columns, low, row, d),
        3 => deal_many::<3>(columns, low, row, d),
        4 => deal_many::<4>(columns, low, row, d),
        _ => deal_many::<6>(columns, low, row, d),
    }
}

// The first columns of d, n bytes each, into the words of a row; each byte modulo the size of the field f.
pub fn deal(f: u64, n: usize, columns: usize, row: &mut [u64], d: &[u8])
    requires le_n { (1 ≤ n) × (n ≤ 6) × ((n ≡ 5) → ⊥) × (1 ≤ columns) × (columns ≤ most_columns) }
    requires n_in_bounds { (columns * n ≤ length d.now) × (words_of columns * n ≤ length row.old) }
    ensures { Dealt (field_of f).q n columns d.now row.new }
{
    let low: u64 = if f == 16 {
        0x0f0f0f0f0f0f0f0f
    } else {
        u64::MAX
    };
    if columns < 8 {
        few(n, columns, low, row, d);
    } else {
        deal_row(n, columns, low, row, d);
    }
}

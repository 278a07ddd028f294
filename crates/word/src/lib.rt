// A row of shares in words of eight lanes, a byte each: single entries, and the last columns as bytes. Stands on row for the doubles that its
// definitions name. A row in words is drawn in specs/Rows.

#![tactic(auto)]

ghost use Rattle.std.specs.Prelude.{◌≡◌, ◌+◌, ◌-◌, ◌*◌, ◌/◌, ◌%◌, ◌^◌, ◌<◌, ◌≤◌, length};
ghost use Rattle.sharing.specs.Run.{tab};
ghost use Rattle.sharing.specs.Bounds.{most_columns};
ghost use Rattle.word.specs.Rows.{byte_of, words_of, bytes_of, PutEntry, PutBytes};

// Where the lane of what stands e columns before the last begins.
fn lane_shift(e: usize) -> u64
    ensures { result ≡ 8 * (7 - e % 8) }
{
    8 * (7 - (e % 8) as u64)
}

fn byte_of(x: u64, shift: u64) -> u8
    requires { shift < 64 }
    ensures { result ≡ x / 2 ^ shift % 256 }
{
    ((x >> shift) % 256) as u8
}

// The n shares of what stands e columns before the last.
pub fn entry(n: usize, row: &[u64], e: usize, out: &mut [u8])
    requires { (n ≤ 4) × (length out.old ≡ n) × (e < most_columns) × (e / 8 * n + n ≤ length row.now) }
    ensures { out.new ≡ tab n (byte_of n row.now e) }
{
    let g = e / 8 * n;
    let shift = lane_shift(e);
    for (s, share) in out.iter_mut().enumerate() {
        *share = byte_of(row[g + s], shift);
    }
}

// And they become those of v.
pub fn put_entry(n: usize, row: &mut [u64], e: usize, v: &[u8])
    requires { (n ≤ 4) × (length v.now ≡ n) × (e < most_columns) × (e / 8 * n + n ≤ length row.old) }
    ensures { PutEntry n e v.now row.old row.new }
{
    let g = e / 8 * n;
    let shift = lane_shift(e);
    for (s, share) in v.iter().enumerate() {
        let x = row[g + s];
        let change = byte_of(x, shift) ^ *share;
        row[g + s] = x ^ (u64::from(change) << shift);
    }
}

// The last columns of a row, as bytes.
pub fn take_row(n: usize, columns: usize, bytes: &mut [u8], row: &[u64])
    requires { (2 ≤ n) × (n ≤ 4) × (columns ≤ most_columns) × (length bytes.old ≡ columns * n) × (words_of columns * n ≤ length row.now) }
    ensures { bytes.new ≡ bytes_of n columns row.now }
{
    // stays: the bytes are lent column by column, and after chunks_mut a proof knows no element of them
    for e in (0..columns).rev() {
        let p = (columns - 1 - e) * n;
        entry(n, row, e, &mut bytes[p..p + n]);
    }
}

// The last columns of a row become these bytes.
pub fn give_row(n: usize, columns: usize, row: &mut [u64], bytes: &[u8])
    requires { (2 ≤ n) × (n ≤ 4) × (columns ≤ most_columns) × (length bytes.now ≡ columns * n) × (words_of columns * n ≤ length row.old) }
    ensures { PutBytes n columns bytes.now row.old row.new }
{
    for e in (0..columns).rev() {
        let p = (columns - 1 - e) * n;
        put_entry(n, row, e, &bytes[p..p + n]);
    }
}

// The steps that take most of a whole solve, on a table in words: Mix, Check, Scale and Clear. Stands on plane, dealing, choice and word for the words,
// and on table for what the steps are. A table in words stands for a table of bytes (specs/Table), and each step does to that table what table's
// own step does.

#![tactic(auto)]

ghost use Rattle.std.specs.Prelude.{false, ◌≡◌, ◌*◌, ◌<◌, ◌≤◌, length};
ghost use Rattle.field.specs.Field.{field_of};
ghost use Rattle.sharing.specs.Run.{pairs};
ghost use Rattle.sharing.specs.Lists.{Below};
ghost use Rattle.sharing.specs.Bounds.{most_columns};
ghost use Rattle.flag.specs.Flag.{zero_flag, flag_draws};
ghost use Rattle.table.specs.Layout.{Shaped, Bounded, Inside, columns_from, entry};
ghost use Rattle.table.specs.Steps.{join_rows, mix, check, scale, clear};
ghost use Rattle.table.specs.Costs.{mix_cost, check_cost, scale_cost, scale_nonzero, clear_cost};
ghost use Rattle.word.specs.Rows.{words_of, bytes_of, PutBytes};
ghost use Rattle.word_table.specs.Code.Scaling.{scale_bytes};
ghost use Rattle.word_table.specs.Table.{row_words, table_in, Worded, Room, Told};

use table::Shape;

// The words of a row.
fn row_words(shape: Shape) -> usize
    requires { (shape.shares ≤ 4) × (shape.columns ≤ most_columns) }
    ensures { (result ≡ row_words shape.shares shape.columns) × (result ≤ 76) }
{
    (shape.columns + 7) / 8 * shape.shares
}

// A table of bytes into words.
pub fn load(shape: Shape, words: &mut [u64], table: &[u8])
    requires some { 1 ≤ shape.columns }
    requires shaped { Shaped shape table.now }
    requires worded { Worded shape words.old }
    ensures { table_in shape words.new ≡ table.now }
{
    let n = shape.shares;
    let w = shape.columns;
    let size = row_words(shape);
    let len = w * n;
    // stays: rows of words are lent beside rows of bytes, and after chunks_mut a proof knows no element of what was lent
    for r in 0..shape.rows {
        let a = r * size;
        let o = r * len;
        dealing::deal(256, n, w, &mut words[a..a + size], &table[o..o + len]);
    }
}

// A table in words into bytes.
pub fn store(shape: Shape, table: &mut [u8], words: &[u64])
    requires shaped { Shaped shape table.old }
    requires worded { Worded shape words.now }
    ensures { table.new ≡ table_in shape words.now }
{
    let n = shape.shares;
    let w = shape.columns;
    let size = row_words(shape);
    let len = w * n;
    // stays: rows of bytes are lent beside rows of words, and after chunks_mut a proof knows no element of what was lent
    for r in 0..shape.rows {
        let a = r * size;
        let o = r * len;
        word::take_row(n, w, &mut table[o..o + len], &words[a..a + size]);
    }
}

// T[r,j], as its n shares.
fn entry(shape: Shape, words: &[u64], r: usize, j: usize, out: &mut [u8])
    requires worded { Worded shape words.now }
    requires inside { Inside shape.rows shape.columns r j }
    requires out_len { length out.old ≡ shape.shares }
    ensures { out.new ≡ entry shape.shares shape.columns r j (table_in shape words.now) }
{
    let size = row_words(shape);
    let a = (r - 1) * size;
    word::entry(shape.shares, &words[a..a + size], shape.columns - j, out);
}

// The flag of T[r,j].
fn pivot_flag(shape: Shape, words: &[u64], r: usize, j: usize, flag: &mut [u8], mask: &[u8])
    requires worded { Worded shape words.now }
    requires inside { Inside shape.rows shape.columns r j }
    requires draws { (length flag.old ≡ shape.shares) × (flag_draws shape.field shape.shares ≤ length mask.now) }
    ensures { flag.new ≡ zero_flag shape.field mask.now (entry shape.shares shape.columns r j (table_in shape words.now)) }
{
    let n = shape.shares;
    let mut pivot = [0u8; 4];
    entry(shape, words, r, j, &mut pivot[..n]);
    flag::zero_flag(shape.field, flag, &pivot[..n], mask);
}

// Check(j), where row r takes column j's pivot: 1 where its value is 0, and 0 otherwise.
pub fn check(shape: Shape, words: &[u64], r: usize, j: usize, mask: &[u8]) -> u8
    requires worded { Worded shape words.now }
    requires inside { Inside shape.rows shape.columns r j }
    requires draws { check_cost shape.field shape.shares ≤ length mask.now }
    ensures { result ≡ check shape.field shape.shares shape.columns r j mask.now (table_in shape words.now) }
{
    let f = shape.field;
    let n = shape.shares;
    let d = flag::flag_draws(f, n);
    let mut flag = [0u8; 4];
    pivot_flag(shape, words, r, j, &mut flag[..n], mask);
    sharing::opening(f, &mut flag[..n], &mask[d..])
}

// What Mix and Clear are lent to work in. hidden is 0 in a way that the compiler does not see through.
#[derive(Drop)]
struct Workspace<'a> {
    other: &'a mut [u64],
    draws: &'a mut [u64],
    products: &'a mut [u64],
    masks: &'a mut [u64],
    hidden: u64,
}

// Row a += Product(factor, row b), from column j on, where BITS bits tell the factor.
fn join_rows<const BITS: usize>(
    shape: Shape,
    words: &mut [u64],
    factor: &[u8],
    a: usize,
    b: usize,
    j: usize,
    mask: &[u8],
    lent: Workspace<'_>,
)
    requires worded { Worded shape words.old }
    requires inside { Inside shape.rows shape.columns a j × Inside shape.rows shape.columns b j }
    requires draws { (length factor.now ≡ shape.shares) × (columns_from shape.columns j * pairs shape.shares ≤ length mask.now) }
    requires room { Room shape lent.other.now lent.draws.now lent.products.now lent.masks.now × (lent.hidden ≡ 0) × Told shape.field factor.now BITS }
    requires below { Below (field_of shape.field).q (table_in shape words.old) }
    ensures { table_in shape words.new ≡ join_rows (field_of shape.field) false shape.shares shape.columns a b j factor.now mask.now (table_in shape words.old) }
{
    let Workspace {
        other,
        draws,
        products,
        masks,
        hidden,
    } = lent;
    let n = shape.shares;
    let columns = shape.columns + 1 - j;
    let size = row_words(shape);
    let p = (a - 1) * size;
    let o = (b - 1) * size;
    let one = 1 + hidden as u8;
    choice::masks_of::<BITS>(masks, factor, one);
    choice::prepare::<BITS>(n, columns, other, &words[o..o + size]);
    dealing::deal(shape.field, sharing::pair_count(n), columns, draws, mask);
    let count = (columns + 7) / 8;
    let row = &mut words[p..p + size];
    plane::join::<BITS>(n, count, hidden, row, other, masks, draws, products);
}

// Mix(j,k), where row r takes column j's pivot. The flag's shares are 0 or 1, so one bit tells them.
// stays: the room in slices, here and in clear, as a caller lends it: where the same slices go to two steps, the borrow checker refuses a Workspace that
// is made inside each call (tried), and a caller would have to make each by a let.
pub fn mix(
    shape: Shape,
    words: &mut [u64],
    r: usize,
    j: usize,
    k: usize,
    mask: &[u8],
    other: &mut [u64],
    draws: &mut [u64],
    products: &mut [u64],
    masks: &mut [u64],
    hidden: u64,
)
    requires worded { Worded shape words.old }
    requires inside { Inside shape.rows shape.columns r j × Inside shape.rows shape.columns k j }
    requires draws { mix_cost shape.field shape.shares (columns_from shape.columns j) ≤ length mask.now }
    requires room { Room shape other.old draws.old products.old masks.old × (hidden ≡ 0) }
    requires below { Below (field_of shape.field).q (table_in shape words.old) }
    ensures { table_in shape words.new ≡ mix shape.field shape.shares shape.columns r j k mask.now (table_in shape words.old) }
{
    let f = shape.field;
    let n = shape.shares;
    let d = flag::flag_draws(f, n);
    let mut flag = [0u8; 4];
    pivot_flag(shape, words, r, j, &mut flag[..n], mask);
    let lent = Workspace {
        other,
        draws,
        products,
        masks,
        hidden,
    };
    join_rows::<1>(shape, words, &flag[..n], r, k, j, &mask[d..], lent);
}

// Clear(j,k), where row r takes column j's pivot.
pub fn clear(
    shape: Shape,
    words: &mut [u64],
    r: usize,
    j: usize,
    k: usize,
    mask: &[u8],
    other: &mut [u64],
    draws: &mut [u64],
    products: &mut [u64],
    masks: &mut [u64],
    hidden: u64,
)
    requires worded { Worded shape words.old }
    requires inside { Inside shape.rows shape.columns r j × Inside shape.rows shape.columns k j }
    requires draws { clear_cost shape.shares (columns_from shape.columns j) ≤ length mask.now }
    requires room { Room shape other.old draws.old products.old masks.old × (hidden ≡ 0) }
    requires below { Below (field_of shape.field).q (table_in shape words.old) }
    ensures { table_in shape words.new ≡ clear shape.field shape.shares shape.columns r j k mask.now (table_in shape words.old) }
{
    let n = shape.shares;
    let mut copy = [0u8; 4];
    entry(shape, words, k, j, &mut copy[..n]);
    let factor = &copy[..n];
    let lent = Workspace {
        other,
        draws,
        products,
        masks,
        hidden,
    };
    if shape.field == 16 {
        join_rows::<4>(shape, words, factor, k, r, j, mask, lent);
    } else {
        join_rows::<8>(shape, words, factor, k, r, j, mask, lent);
    }
}

// The last columns of a row of words, as a table of this row alone, with room for their bytes: the first entry is the pivot, and each entry is taken
// times its inverse, factor by factor.
fn scale_words(shape: Shape, bytes: &mut [u8], row: &mut [u64], nonzero: &[u8], mask: &[u8])
    requires bounded { Bounded shape.shares shape.rows shape.columns }
    requires alone { (shape.rows ≡ 1) × (1 ≤ shape.columns) × (length bytes.old ≡ shape.columns * shape.shares) × (words_of shape.columns * shape.shares ≤ length row.old) }
    requires draws { (scale_cost shape.shares shape.columns ≤ length mask.now) × (scale_nonzero shape.shares ≤ length nonzero.now) }
    ensures { PutBytes shape.shares shape.columns (scale_bytes shape.field shape.shares shape.columns nonzero.now mask.now (bytes_of shape.shares shape.columns row.old)) row.old row.new }
{
    word::take_row(shape.shares, shape.columns, bytes, row);
    table::scale(shape, bytes, 1, 1, nonzero, mask);
    word::give_row(shape.shares, shape.columns, row, bytes);
}

// Scale(j), where row r takes column j's pivot: the row from column j on as bytes, scaled as table scales them, and back.
pub fn scale(shape: Shape, words: &mut [u64], r: usize, j: usize, nonzero: &[u8], mask: &[u8])
    requires worded { Worded shape words.old }
    requires inside { Inside shape.rows shape.columns r j }
    requires draws { (scale_cost shape.shares (columns_from shape.columns j) ≤ length mask.now) × (scale_nonzero shape.shares ≤ length nonzero.now) }
    ensures { table_in shape words.new ≡ scale shape.field shape.shares shape.columns r j nonzero.now mask.now (table_in shape words.old) }
{
    let alone = Shape {
        rows: 1,
        columns: shape.columns + 1 - j,
        ..shape
    };
    let size = row_words(shape);
    let a = (r - 1) * size;
    let len = alone.columns * alone.shares;
    let mut bytes = [0u8; 580];
    let row = &mut words[a..a + size];
    scale_words(alone, &mut bytes[..len], row, nonzero, mask);
}

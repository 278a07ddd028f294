// The record as eight words: field, shares, size, step, j, k, mask draws taken, nonzero draws taken. And the wide record as 106: field, shares, rows,
// columns, step, j, k, mask draws taken, nonzero draws taken, how many pivots are found, and 96 slots for these.
ghost use Rattle.std.specs.Prelude.{◌≡◌, length};
ghost use Rattle.sharing.specs.Bounds.{most_rows};
ghost use Rattle.host.specs.Words.{nowhere, without, place_of, step_spot, spot_of, progress_of, words_of};
ghost use Rattle.host.specs.WideWords.{widened, wide_place_of, wide_spot_of, byte_of, bytes_of, wide_of, head_of, wide_words_of};

use course::{Place, Progress, Step};
use pattern::{Pivots, WideOrder, WidePlace, WideProgress};

// A place as words: the step's number, j and k.
// stays: numbers for kinds, here and in place_of: the words of a record are those of hostozaro.h, in two records of 8 and of 106 words.
#[derive(Clone, Copy, Debug, PartialEq, Eq)]
pub struct Spot {
    pub step: u64,
    pub j: u64,
    pub k: u64,
}

// A place outside every list.
// stays: a place of no list and no Option, since refusal 10 answers such a record (`place_of`, specs/Words.antt).
fn no_place() -> Place
    ensures { result ≡ nowhere }
{
    Place::At(Step::Mix { j: 0, k: 0 })
}

// A place that does not carry this word: it must be 0.
fn carrying_no(word: u64, p: Place) -> Place
    ensures { result ≡ without word p }
{
    if word == 0 { p } else { no_place() }
}

// The place of three words, whatever they are.
fn place_of(step: u64, j: u64, k: u64) -> Place
    ensures { result ≡ place_of step j k }
{
    match step {
        0 => Place::At(Step::Mix { j, k }),
        1 => carrying_no(k, Place::At(Step::Check(j))),
        2 => carrying_no(k, Place::At(Step::Scale(j))),
        3 => Place::At(Step::Clear { j, k }),
        4 => carrying_no(k, Place::At(Step::Open(j))),
        5 => carrying_no(k, Place::Stopped(j)),
        6 => carrying_no(j, carrying_no(k, Place::Done)),
        7 => carrying_no(k, Place::At(Step::Lift(j))),
        _ => no_place(),
    }
}

fn spot_of_step(s: Step) -> Spot
    ensures { result ≡ step_spot s }
{
    match s {
        Step::Mix { j, k } => Spot { step: 0, j, k },
        Step::Check(j) => Spot { step: 1, j, k: 0 },
        Step::Scale(j) => Spot { step: 2, j, k: 0 },
        Step::Clear { j, k } => Spot { step: 3, j, k },
        Step::Open(j) => Spot { step: 4, j, k: 0 },
        Step::Lift(j) => Spot { step: 7, j, k: 0 },
    }
}

fn spot_of(p: Place) -> Spot
    ensures { result ≡ spot_of p }
{
    match p {
        Place::At(s) => spot_of_step(s),
        Place::Stopped(j) => Spot { step: 5, j, k: 0 },
        Place::Done => Spot {
            step: 6,
            j: 0,
            k: 0,
        },
    }
}

// The record of eight words.
pub fn read(record_words: &[u64]) -> Progress
    requires { length record_words.now ≡ 8 }
    ensures { result ≡ progress_of record_words.now }
{
    Progress {
        field: record_words[0],
        shares: record_words[1],
        size: record_words[2],
        place: place_of(record_words[3], record_words[4], record_words[5]),
        mask: record_words[6],
        nonzero: record_words[7],
    }
}

// The eight words of a record.
pub fn write(record_words: &mut [u64], p: Progress)
    requires { length record_words.old ≡ 8 }
    ensures { record_words.new ≡ words_of p }
{
    let s = spot_of(p.place);
    record_words.copy_from_slice(&[
        p.field, p.shares, p.size, s.step, s.j, s.k, p.mask, p.nonzero,
    ]);
}

// ---- the wide record

// A place of the square list as one of a wide list. No column stops there.
fn widened(p: Place) -> WidePlace
    ensures { result ≡ widened p }
{
    match p {
        Place::At(s) => WidePlace::At(s),
        Place::Stopped(_) => WidePlace::At(Step::Mix { j: 0, k: 0 }),
        Place::Done => WidePlace::Done,
    }
}

// The place of three words: 8 is short, and the others are numbered as ever.
fn wide_place_of(step: u64, j: u64, k: u64) -> WidePlace
    ensures { result ≡ wide_place_of step j k }
{
    if step == 8 && j == 0 && k == 0 {
        return WidePlace::Short;
    }
    widened(place_of(step, j, k))
}

fn wide_spot_of(p: WidePlace) -> Spot
    ensures { result ≡ wide_spot_of p }
{
    match p {
        WidePlace::At(s) => spot_of_step(s),
        WidePlace::Short => Spot {
            step: 8,
            j: 0,
            k: 0,
        },
        WidePlace::Done => Spot {
            step: 6,
            j: 0,
            k: 0,
        },
    }
}

// A slot's word as a byte. One that is no byte becomes 255, which is no column.
fn byte_of(word: u64) -> u8
    ensures { result ≡ byte_of word }
{
    u8::try_from(word).unwrap_or(255)
}

fn read_slots(slots: &[u64]) -> [u8; 96]
    requires { length slots.now ≡ most_rows }
    ensures { result ≡ bytes_of slots.now }
{
    let mut columns = [0u8; 96];
    // stays: a loop over both lists at once has no name in its invariant for the one that is written, so that proof didn't close.
    for i in 0..96 {
        columns[i] = byte_of(slots[i]);
    }
    columns
}

fn write_slots(slots: &mut [u64], columns: &[u8])
    requires { length slots.old ≡ length columns.now }
    ensures { slots.new ≡ columns.now }
{
    for (i, slot) in slots.iter_mut().enumerate() {
        *slot = u64::from(columns[i]);
    }
}

// The wide record of 106 words.
pub fn read_wide(record_words: &[u64]) -> WideProgress
    requires { length record_words.now ≡ 106 }
    ensures { result ≡ wide_of record_words.now }
{
    let order = WideOrder {
        field: record_words[0],
        shares: record_words[1],
        rows: record_words[2],
        columns: record_words[3],
    };
    let place = wide_place_of(record_words[4], record_words[5], record_words[6]);
    let columns = read_slots(&record_words[10..]);
    WideProgress {
        order,
        place,
        mask: record_words[7],
        nonzero: record_words[8],
        pivots: Pivots {
            found: record_words[9],
            columns,
        },
    }
}

// The ten words before the slots.
fn write_head(head: &mut [u64], o: WideOrder, s: Spot, mask: u64, nonzero: u64, found: u64)
    requires { length head.old ≡ 10 }
    ensures { head.new ≡ head_of o s mask nonzero found }
{
    head.copy_from_slice(&[
        o.field, o.shares, o.rows, o.columns, s.step, s.j, s.k, mask, nonzero, found,
    ]);
}

// The 106 words of a wide record.
pub fn write_wide(record_words: &mut [u64], p: WideProgress)
    requires { length record_words.old ≡ 106 }
    ensures { record_words.new ≡ wide_words_of p }
{
    let s = wide_spot_of(p.place);
    let (head, slots) = record_words.split_at_mut(10);
    write_head(head, p.order, s, p.mask, p.nonzero, p.pivots.found);
    write_slots(slots, &p.pivots.columns);
}

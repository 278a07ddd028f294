// The library for C: the public calls over numbers and slices, under the names of include/hostozaro.h. Stands on solver, plain, exchange and wide.
// Each exported function takes any numbers and any buffers, and promises by one equation the code that it returns and every lent byte and
// word, for every input. A record or an answer that has not its number of words is code 99, before anything else, and nothing is written.
// The record is `record_words` here: antt reserves `record`.
#![tactic(auto)]

// stays: a square and a wide export each, since hostozaro.h has both names; what their answers share is `Answer`.
mod replies;
mod words;

ghost use Rattle.std.specs.Prelude.{◌≡◌};
ghost use Rattle.walk.specs.Act.{held};
ghost use Rattle.solver.specs.Calls.{order};
ghost use Rattle.host.specs.Faces.{back, recorded, hz_start, hz_step, hz_wanted, hz_solve, hz_deal, hz_gather, hz_counts, hz_plain, hz_write, hz_read, hz_wide_start, hz_wide_counts, hz_wide_wanted, hz_wide_step, hz_wide_solve};
ghost use Rattle.wide.specs.WideCalls as Wide;

use replies::Answer;

// A fresh record of these sizes, or refusal 1, 2, 3.
#[unsafe(no_mangle)]
pub extern "C" fn hz_start(
    field: u64,
    shares: u64,
    size: u64,
    record_words: &mut [u64],
    answer: &mut [u64],
) -> u64
    ensures { back result record_words.new answer.new ≡ hz_start (order field shares size) record_words.old answer.old }
{
    if record_words.len() != 8 || answer.len() != 4 {
        return 99;
    }
    match solver::start(field, shares, size) {
        Ok(p) => {
            words::write(record_words, p);
            replies::say(answer, replies::fresh())
        }
        Err(r) => replies::say(answer, r.reply()),
    }
}

// The step that the record stands at, and the record at the next place.
#[unsafe(no_mangle)]
pub extern "C" fn hz_step(
    record_words: &mut [u64],
    table: &mut [u8],
    solution: &mut [u8],
    mask: &[u8],
    nonzero: &[u8],
    answer: &mut [u64],
) -> u64
    ensures { back result (recorded record_words.new (held table.new solution.new)) answer.new ≡ hz_step record_words.old (held table.old solution.old) mask.now nonzero.now answer.old }
{
    if record_words.len() != 8 || answer.len() != 4 {
        return 99;
    }
    let p = words::read(&record_words[..]);
    match solver::step(p, table, solution, mask, nonzero) {
        Ok(s) => {
            words::write(record_words, s.next);
            replies::say(answer, s.told.reply())
        }
        Err(r) => replies::say(answer, r.reply()), // with the record's words as found
    }
}

// The draws that the next step must be lent.
#[unsafe(no_mangle)]
pub extern "C" fn hz_wanted(record_words: &[u64], answer: &mut [u64]) -> u64
    ensures { back result tt answer.new ≡ hz_wanted record_words.now answer.old }
{
    if record_words.len() != 8 || answer.len() != 4 {
        return 99;
    }
    let w = solver::wanted(words::read(record_words));
    replies::say(answer, w.reply())
}

// The whole solve.
#[unsafe(no_mangle)]
pub extern "C" fn hz_solve(
    field: u64,
    shares: u64,
    size: u64,
    table: &mut [u8],
    solution: &mut [u8],
    mask: &[u8],
    nonzero: &[u8],
    answer: &mut [u64],
) -> u64
    ensures { back result (held table.new solution.new) answer.new ≡ hz_solve (order field shares size) (held table.old solution.old) mask.now nonzero.now answer.old }
{
    if answer.len() != 4 {
        return 99;
    }
    let s = solver::solve(field, shares, size, table, solution, mask, nonzero);
    replies::say(answer, s.reply())
}

// Values in row order into a table of shares.
#[unsafe(no_mangle)]
pub extern "C" fn hz_deal(
    field: u64,
    shares: u64,
    size: u64,
    values: &[u8],
    table: &mut [u8],
    mask: &[u8],
    answer: &mut [u64],
) -> u64
    ensures { back result table.new answer.new ≡ hz_deal (order field shares size) values.now mask.now table.old answer.old }
{
    if answer.len() != 4 {
        return 99;
    }
    let f = solver::deal(field, shares, size, values, table, mask);
    replies::say(answer, f.reply())
}

// The values of a table of shares, in row order.
#[unsafe(no_mangle)]
pub extern "C" fn hz_gather(
    field: u64,
    shares: u64,
    size: u64,
    table: &[u8],
    values: &mut [u8],
    answer: &mut [u64],
) -> u64
    ensures { back result values.new answer.new ≡ hz_gather (order field shares size) table.now values.old answer.old }
{
    if answer.len() != 4 {
        return 99;
    }
    let f = solver::gather(field, shares, size, table, values);
    replies::say(answer, f.reply())
}

// What a full solve takes.
#[unsafe(no_mangle)]
pub extern "C" fn hz_counts(field: u64, shares: u64, size: u64, answer: &mut [u64]) -> u64
    ensures { back result tt answer.new ≡ hz_counts (order field shares size) answer.old }
{
    if answer.len() != 4 {
        return 99;
    }
    let c = solver::counts(field, shares, size);
    replies::say(answer, c.reply())
}

// The plain solve, for the laboratory. Not for secrets.
#[unsafe(no_mangle)]
pub extern "C" fn hz_plain(
    field: u64,
    size: u64,
    values: &[u8],
    solution: &mut [u8],
    answer: &mut [u64],
) -> u64
    ensures { back result solution.new answer.new ≡ hz_plain field size values.now solution.old answer.old }
{
    if answer.len() != 4 {
        return 99;
    }
    let s = plain::solve(field, size, values, solution);
    replies::say(answer, s.reply())
}

// The exchange record of a system.
#[unsafe(no_mangle)]
pub extern "C" fn hz_write(
    field: u64,
    shares: u64,
    size: u64,
    table: &[u8],
    target: &mut [u8],
    answer: &mut [u64],
) -> u64
    ensures { back result target.new answer.new ≡ hz_write field shares size table.now target.old answer.old }
{
    if answer.len() != 4 {
        return 99;
    }
    let w = exchange::write(field, shares, size, table, target);
    replies::say(answer, w.reply())
}

// The numbers of an exchange record, and the length of its table, which begins at its byte 16.
#[unsafe(no_mangle)]
pub extern "C" fn hz_read(input: &[u8], answer: &mut [u64]) -> u64
    ensures { back result tt answer.new ≡ hz_read input.now answer.old }
{
    if answer.len() != 4 {
        return 99;
    }
    let r = exchange::read(input);
    replies::say(answer, r.reply())
}

// A fresh wide record, or refusal 1, 2, 3, 21.
#[unsafe(no_mangle)]
pub extern "C" fn hz_wide_start(
    field: u64,
    shares: u64,
    rows: u64,
    columns: u64,
    record_words: &mut [u64],
    answer: &mut [u64],
) -> u64
    ensures { back result record_words.new answer.new ≡ hz_wide_start (Wide.order field shares rows columns) record_words.old answer.old }
{
    if record_words.len() != 106 || answer.len() != 4 {
        return 99;
    }
    match wide::start(field, shares, rows, columns) {
        Ok(p) => {
            words::write_wide(record_words, p);
            replies::say(answer, replies::fresh())
        }
        Err(r) => replies::say(answer, r.reply()),
    }
}

// The lengths that a whole wide solve wants.
#[unsafe(no_mangle)]
pub extern "C" fn hz_wide_counts(
    field: u64,
    shares: u64,
    rows: u64,
    columns: u64,
    answer: &mut [u64],
) -> u64
    ensures { back result tt answer.new ≡ hz_wide_counts (Wide.order field shares rows columns) answer.old }
{
    if answer.len() != 4 {
        return 99;
    }
    let c = wide::counts(field, shares, rows, columns);
    replies::say(answer, c.reply())
}

// The draws that the next wide step must be lent.
#[unsafe(no_mangle)]
pub extern "C" fn hz_wide_wanted(record_words: &[u64], answer: &mut [u64]) -> u64
    ensures { back result tt answer.new ≡ hz_wide_wanted record_words.now answer.old }
{
    if record_words.len() != 106 || answer.len() != 4 {
        return 99;
    }
    let w = wide::wanted(words::read_wide(record_words));
    replies::say(answer, w.reply())
}

// The step that the wide record stands at, and the record at the next place.
#[unsafe(no_mangle)]
pub extern "C" fn hz_wide_step(
    record_words: &mut [u64],
    table: &mut [u8],
    solution: &mut [u8],
    mask: &[u8],
    nonzero: &[u8],
    answer: &mut [u64],
) -> u64
    ensures { back result (recorded record_words.new (held table.new solution.new)) answer.new ≡ hz_wide_step record_words.old (held table.old solution.old) mask.now nonzero.now answer.old }
{
    if record_words.len() != 106 || answer.len() != 4 {
        return 99;
    }
    let p = words::read_wide(&record_words[..]);
    match wide::step(p, table, solution, mask, nonzero) {
        Ok(s) => {
            words::write_wide(record_words, s.next);
            replies::say(answer, s.told.reply())
        }
        Err(r) => replies::say(answer, r.reply()), // with the wide record's words as found
    }
}

// The whole wide solve.
#[unsafe(no_mangle)]
pub extern "C" fn hz_wide_solve(
    field: u64,
    shares: u64,
    rows: u64,
    columns: u64,
    table: &mut [u8],
    solution: &mut [u8],
    mask: &[u8],
    nonzero: &[u8],
    answer: &mut [u64],
) -> u64
    ensures { back result (held table.new solution.new) answer.new ≡ hz_wide_solve (Wide.order field shares rows columns) (held table.old solution.old) mask.now nonzero.now answer.old }
{
    if answer.len() != 4 {
        return 99;
    }
    let s = wide::solve(field, shares, rows, columns, table, solution, mask, nonzero);
    replies::say(answer, s.reply())
}

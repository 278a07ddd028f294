// The exchange record of R-3: a shared system as one record of tagged fields, for two sites that swap bench systems. Stands on verdict.
// The entry calls are `write`, `read` and `table_in`: they take any numbers and any slices, do all their own checking, and promise by one
// equation each their answer and every lent byte.
#![tactic(auto)]

ghost use Rattle.std.specs.Prelude.{◌≡◌, ◌+◌, ◌≤◌, length};
ghost use Rattle.sharing.specs.Bounds.{most_rows};
ghost use Rattle.verdict.specs.Told.{passed};
ghost use Rattle.verdict.specs.Cells.{NonEmpty};
ghost use Rattle.verdict.specs.Calls.{after, says};
ghost use Rattle.verdict.specs.Code.Verdicts.{told};
ghost use Rattle.exchange.specs.Record.{rows, table_length, record_of, number_at, field_at, framed, system_in, holding};
ghost use Rattle.exchange.specs.Calls.{write_order, write_call, read_order, read_call, table_in};
ghost use Rattle.exchange.specs.Code.Header.{header_of};

use verdict::{Refusal, Rows};

// What a record holds: its numbers, and the length of its table.
#[derive(Clone, Copy, Debug, PartialEq, Eq)]
pub struct System {
    pub field: u64,
    pub shares: u64,
    pub size: u64,
    pub length: usize,
}

impl System {
    // m(m+1)n, which the table's length has to be
    fn table_length(self) -> usize
        requires { (self.shares ≤ 4) × (self.size ≤ most_rows) }
        ensures { (result ≡ table_length self.shares self.size) × (result ≤ 37248) }
    {
        let m = self.size as usize;
        m * (m + 1) * (self.shares as usize)
    }

    fn rows(self) -> Rows
        requires { (1 ≤ self.shares) × (self.size ≤ most_rows) }
        ensures { (result ≡ rows self.shares self.size) × NonEmpty result }
    {
        Rows::Shared {
            shares: self.shares as usize,
            width: self.size as usize + 1,
        }
    }

    // All that stands before the table.
    fn header(self) -> [u8; 16]
        requires { (self.field ≤ 65535) × (self.shares ≤ 255) × (self.size ≤ 255) × (self.length ≤ 65535) }
        ensures { result ≡ header_of self.field self.shares self.size self.length }
    {
        let f = (self.field as u16).to_be_bytes();
        let k = (self.length as u16).to_be_bytes();
        let n = self.shares as u8;
        let m = self.size as u8;
        [1, 0, 2, f[0], f[1], 2, 0, 1, n, 3, 0, 1, m, 4, k[0], k[1]]
    }
}

// ---- writing

// 1 to 6
fn write_check(s: System, table: &[u8], target: usize) -> Result<(), Refusal>
    ensures { told result ≡ write_order s.field s.shares s.size table.now target }
{
    verdict::numbers(s.field, s.shares, s.size)?;
    let wanted = s.table_length();
    verdict::buffers(s.field, s.rows(), wanted, table, wanted + 19, target)
}

// The record, into a target of its length.
fn fill(s: System, table: &[u8], target: &mut [u8])
    requires s_bound { (s.field ≤ 65535) × (s.shares ≤ 255) × (s.size ≤ 255) × (s.length ≤ 65535) }
    requires target_len { (length table.now ≡ s.length) × (length target.old ≡ s.length + 19) }
    ensures { target.new ≡ record_of s.field s.shares s.size table.now }
{
    let end = 16 + s.length;
    target[..16].copy_from_slice(&s.header());
    // stays: by sharing's loop: copy_from_slice of two lent slices is memmove, which no other call of the archive for C asks of its host
    sharing::copy_into(&mut target[16..end], table);
    target[end..].copy_from_slice(&[255, 0, 0]);
}

// The record of a system, into the target.
// stays: (a) the numbers one by one, in the signature that README shows; inside they are a System
pub fn write(
    field: u64,
    shares: u64,
    size: u64,
    table: &[u8],
    target: &mut [u8],
) -> Result<(), Refusal>
    ensures { after (says result) target.new ≡ write_call field shares size table.now target.old }
{
    let s = System {
        field,
        shares,
        size,
        length: table.len(),
    };
    write_check(s, table, target.len())?;
    fill(s, table, target);
    Ok(())
}

// ---- one record at the front of the input, whatever follows it

// The number that two bytes are, high byte first.
#[tactic(auto, unfolding(crate::specs::Record::number_at))]
fn number_at(input: &[u8], at: usize) -> u16
    requires { (at ≤ 65552) × (at + 2 ≤ length input.now) }
    ensures { result ≡ number_at input.now at }
{
    u16::from_be_bytes([input[at], input[at + 1]])
}

// The field at an offset: that it begins, its tag, its length, its body.
// stays: (d) a tag and the two lengths that suit it are one line of `framed`, as in R-3's table; an enum of tags would only be turned back into these
fn field_at(input: &[u8], at: usize, tag: u8, least: u64, most: u64) -> Result<(), Refusal>
    requires { at ≤ 65551 }
    ensures { told result ≡ field_at input.now at tag least most }
{
    let cut = Refusal::CutField(at);
    verdict::refuse_if(input.len() < at + 1, cut)?;
    verdict::refuse_if(input[at] != tag, Refusal::BadTag(at))?;
    verdict::refuse_if(input.len() < at + 3, cut)?;
    let length = number_at(input, at + 1);
    verdict::refuse_if(verdict::is_outside(least, most, u64::from(length)), cut)?;
    verdict::refuse_if(input.len() < at + (3 + usize::from(length)), cut)
}

// 16 and 17: all five fields, in their order.
pub fn framed(input: &[u8]) -> Result<(), Refusal>
    ensures { told result ≡ framed input.now }
{
    field_at(input, 0, 1, 2, 2)?;
    field_at(input, 5, 2, 1, 1)?;
    field_at(input, 9, 3, 1, 1)?;
    field_at(input, 13, 4, 0, 65535)?;
    let end = 16 + usize::from(number_at(input, 14));
    field_at(input, end, 255, 0, 0)
}

// What the fields hold.
pub fn system_in(input: &[u8]) -> System
    requires { framed input.now ≡ passed }
    ensures { result ≡ system_in input.now }
{
    System {
        field: u64::from(number_at(input, 3)),
        shares: u64::from(input[8]),
        size: u64::from(input[12]),
        length: usize::from(number_at(input, 14)),
    }
}

// 1 to 4 and 6, of what the fields hold.
pub fn holding(input: &[u8]) -> Result<(), Refusal>
    requires { framed input.now ≡ passed }
    ensures { told result ≡ holding input.now }
{
    let s = system_in(input);
    verdict::numbers(s.field, s.shares, s.size)?;
    verdict::no4(s.table_length(), s.length)?;
    verdict::no6(s.field, s.rows(), &input[16..16 + s.length])
}

// ---- reading

// 16, 17, 18, 1 to 4, 6
fn read_check(input: &[u8]) -> Result<(), Refusal>
    ensures { told result ≡ read_order input.now }
{
    framed(input)?;
    let end = 16 + usize::from(number_at(input, 14));
    let next = 3 + end;
    verdict::refuse_if(next < input.len(), Refusal::PastEnd(next))?;
    holding(input)
}

// The numbers of a record, and the length of its table.
pub fn read(input: &[u8]) -> Result<System, Refusal>
    ensures { after (says result) tt ≡ read_call input.now }
{
    read_check(input)?;
    Ok(system_in(input))
}

// The table of a record, as the stretch of the caller's own bytes; empty where `read` refuses.
pub fn table_in(input: &[u8]) -> &[u8]
    ensures { result.now ≡ table_in input.now }
{
    match read(input) {
        Ok(s) => &input[16..16 + s.length],
        Err(_) => &[],
    }
}

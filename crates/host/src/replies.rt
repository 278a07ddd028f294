// What a call tells: a code and four words.
ghost use Rattle.std.specs.Prelude.{◌≡◌, length};
ghost use Rattle.verdict.specs.Calls.{says};
ghost use Rattle.verdict.specs.Refusals.{paper};
ghost use Rattle.plain.specs.Calls.{answer};
ghost use Rattle.host.specs.declared.replies.Reply.{Reply};
ghost use Rattle.host.specs.Replies.{reply, refusal_reply, said, counts_reply, full_reply, ending_reply, stride_reply, wanted_reply, plain_reply, system_reply, fresh_reply, wide_stride_reply, wide_ending_reply, four_of};

use course::{Counts, Draws};
use exchange::System;
use solver::Stride;
use verdict::Refusal;
use walk::Ending;
use wide::WideStride;
use wide_walk::WideEnding;

// stays: numbers for kinds: the codes are those of hostozaro.h.
#[derive(Clone, Copy, Debug, PartialEq, Eq)]
pub struct Reply {
    pub code: u64,
    pub a: u64,
    pub b: u64,
    pub c: u64,
    pub d: u64,
}

// What a call gives, as a reply.
pub trait Answer {
    ghost reply_of: { Self → Reply };

    fn reply(self) -> Reply
        ensures { result ≡ reply_of self };
}

// A code and two words; the others are 0.
fn short(code: u64, a: u64, b: u64) -> Reply
    ensures { result ≡ reply code a b 0 0 }
{
    Reply {
        code,
        a,
        b,
        c: 0,
        d: 0,
    }
}

// A fresh record.
pub fn fresh() -> Reply
    ensures { result ≡ fresh_reply }
{
    short(7, 0, 0)
}

// A code with the counts.
fn counted(code: u64, c: Counts) -> Reply
    ensures { result ≡ reply code c.steps c.mask c.nonzero 0 }
{
    Reply {
        code,
        a: c.steps as u64,
        b: c.mask as u64,
        c: c.nonzero as u64,
        d: 0,
    }
}

// The paper's number of a refusal, and its detail.
impl Answer for Refusal {
    ghost reply_of = { λ x. refusal_reply (paper x) };

    fn reply(self) -> Reply {
        let r = self.report();
        Reply {
            code: 0,
            a: r.number,
            b: r.a,
            c: r.b,
            d: r.c,
        }
    }
}

impl<T: Answer> Answer for Result<T, Refusal> {
    ghost reply_of = { λ x. said T.reply_of (says x) };

    fn reply(self) -> Reply {
        match self {
            Ok(x) => x.reply(),
            Err(r) => r.reply(),
        }
    }
}

impl Answer for Counts {
    ghost reply_of = { counts_reply };

    fn reply(self) -> Reply {
        counted(8, self)
    }
}

impl Answer for Draws {
    ghost reply_of = { wanted_reply };

    fn reply(self) -> Reply {
        short(9, self.mask as u64, self.nonzero as u64)
    }
}

// What was lent is filled, or written.
impl Answer for () {
    ghost reply_of = { full_reply };

    fn reply(self) -> Reply {
        short(6, 0, 0)
    }
}

impl Answer for Ending {
    ghost reply_of = { ending_reply };

    fn reply(self) -> Reply {
        match self {
            Ending::Solved(c) => counted(5, c),
            Ending::Stopped(j, c) => Reply {
                code: 3,
                a: j,
                b: c.steps as u64,
                c: c.mask as u64,
                d: c.nonzero as u64,
            },
        }
    }
}

impl Answer for WideEnding {
    ghost reply_of = { wide_ending_reply };

    fn reply(self) -> Reply {
        match self {
            WideEnding::Solved(c) => counted(5, c),
            WideEnding::Short(c) => counted(11, c),
        }
    }
}

impl Answer for plain::Ending {
    ghost reply_of = { λ e. plain_reply (answer e) };

    fn reply(self) -> Reply {
        match self {
            plain::Ending::Solved => short(5, 0, 0),
            plain::Ending::Stopped(j) => short(3, j, 0),
        }
    }
}

impl Answer for System {
    ghost reply_of = { system_reply };

    fn reply(self) -> Reply {
        Reply {
            code: 10,
            a: self.field,
            b: self.shares,
            c: self.size,
            d: self.length as u64,
        }
    }
}

impl Answer for Stride {
    ghost reply_of = { stride_reply };

    fn reply(self) -> Reply {
        match self {
            Stride::Moved => short(1, 0, 0),
            Stride::Opened(j, v) => short(2, j, u64::from(v)),
            Stride::Stopped(j) => short(3, j, 0),
            Stride::Done(v) => short(4, u64::from(v), 0),
        }
    }
}

impl Answer for WideStride {
    ghost reply_of = { wide_stride_reply };

    fn reply(self) -> Reply {
        match self {
            WideStride::Moved => short(1, 0, 0),
            WideStride::Opened(j, v) => short(2, j, u64::from(v)),
            WideStride::Short => short(11, 0, 0),
            WideStride::Done(j, v) => short(4, j, u64::from(v)),
        }
    }
}

// Writes the answer's words, and returns the code.
pub fn say(answer: &mut [u64], x: Reply) -> u64
    requires { length answer.old ≡ 4 }
    ensures { (result ≡ x.code) × (answer.new ≡ four_of x) }
{
    answer.copy_from_slice(&[x.a, x.b, x.c, x.d]);
    x.code
}

// The state in lent memory: what it says (specs/Memory.antt) and what every call promises of it (specs/Promise.antt). Here are its lists as one value
// (specs/Lent.antt), the words of its first rows by name, and such a row with other counts.
#![tactic(auto)]

ghost use Rattle.std.specs.Prelude.{◌≡◌, ◌≤◌};
ghost use Rattle.memory.specs.Memory.{with_counts, with_mails};

use definition::lent::{Own, Queue, Row, Rules};

// The lists of a memory, lent together where any of them but the model may be written. A call that writes only some takes them one by one: its
// types then say which, and hosts lend it the others to be read.
#[derive(Drop)]
pub struct Lent<'a> {
    pub model: &'a [Rules],
    pub inputs: &'a mut [Queue],
    pub outputs: &'a mut [Queue],
    pub transit: &'a mut [Row],
    pub own: &'a mut [Own],
}

// The words of a process's first row.
pub const ENTRIES: usize = 0;

pub const OUTPUTS: usize = 1;

pub const EVENTS: usize = 2;

pub const MODE: usize = 3;

pub const TALLY: usize = 4;

// The words of the whole's first row.
pub const MAILS: usize = 0;

pub const HORIZON: usize = 1;

pub const NEXT: usize = 2;

pub const RECORDED: usize = 3;

// A process's first row with other counts.
pub fn with_counts(numbers: Row, entries: usize, outputs: usize, events: usize) -> Row
    requires { (entries ≤ 64) × (outputs ≤ 64) × (events ≤ 32) }
    ensures { result ≡ with_counts numbers entries outputs events }
{
    [
        entries as u32,
        outputs as u32,
        events as u32,
        numbers[MODE],
        numbers[TALLY],
        0,
        0,
        0,
    ]
}

// The numbers of the whole with another count of rows in transit.
pub fn with_mails(numbers: Row, mails: usize) -> Row
    requires { mails ≤ 128 }
    ensures { result ≡ with_mails numbers mails }
{
    [
        mails as u32,
        numbers[HORIZON],
        numbers[NEXT],
        numbers[RECORDED],
        0,
        0,
        0,
        0,
    ]
}

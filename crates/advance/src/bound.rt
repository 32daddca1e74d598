// How far an advance goes: the bound is the least of all receive times in transit, either sign, and all unread times.
ghost use Rattle.std.specs.Prelude.{◌≡◌, ◌≤◌, min, max, length};
ghost use Rattle.memory.specs.Memory.{number};
ghost use Rattle.advance.specs.Rows.{rows_at, OwnRows, InputRows, Histories, Inputs};
ghost use Rattle.advance.specs.Bound.{unread_of, unread_at, least_of, reached_of};

use definition::lent::{Own, Queue, Row, WHOLE};
use definition::numbers::NEVER;
use definition::{Stand, Time};
use memory::{ENTRIES, EVENTS, HORIZON, MAILS, MODE, TALLY};
use queue::input::Entries;

// The unread time of one process.
#[tactic(auto, unfolding(crate::specs::Bound::unread_of))]
fn unread(own: &[Row], inputs: &[Row]) -> Time
    requires own_rows { OwnRows own.now }
    requires input_rows { InputRows own.now inputs.now }
    ensures { result ≡ unread_of own.now inputs.now }
{
    let numbers = own[0];
    let base = Stand {
        mode: numbers[MODE],
        tally: numbers[TALLY],
    };
    let last = history::last(own, numbers[EVENTS] as usize, base);
    Entries::new(&inputs[..numbers[ENTRIES] as usize]).unread(last.time)
}

// The least unread time of the processes.
fn least_unread(own: &[Own], inputs: &[Queue], processes: usize) -> Time
    requires histories { Histories own.now processes }
    requires inputs { Inputs own.now inputs.now processes }
    ensures { result ≡ least_of (unread_at own.now inputs.now) 0 processes }
{
    (0..processes)
        .map(|p| unread(&own[p], &inputs[p]))
        .min()
        .unwrap_or(NEVER)
}

// "The horizon becomes the smaller of bound and ceiling if that is higher."
#[tactic(auto, unfolding(crate::specs::Bound::reached_of))]
pub fn reached(
    inputs: &[Queue],
    transit: &[Row],
    own: &[Own],
    processes: usize,
    ceiling: Time,
) -> Time
    requires histories { Histories own.now processes }
    requires inputs { Inputs own.now inputs.now processes }
    requires own_len { (length (rows_at own.now 8) ≡ 33) × (number (rows_at own.now 8) 0 ≤ length transit.now) }
    ensures { result ≡ reached_of own.now inputs.now transit.now processes ceiling }
{
    let numbers = own[WHOLE][0];
    let mail = queue::transit::least(&transit[..numbers[MAILS] as usize]);
    let bound = mail.min(least_unread(own, inputs, processes));
    numbers[HORIZON].max(bound.min(ceiling))
}

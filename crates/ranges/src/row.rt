// One row: the fields of a message, of an input entry, of a message in transit, of an event.
ghost use Rattle.std.specs.Prelude.{◌≡◌};
ghost use Rattle.definition.specs.Model.{ok_stand};
ghost use Rattle.definition.specs.BadState.{ok_source, ok_message, ok_net, ok_entry, ok_mail, ok_saved};
ghost use Rattle.queue.specs.Rows.{message_of, net_of, entry_of, mail_of};
ghost use Rattle.history.specs.Rows.{saved_of};

use definition::lent::Row;
use definition::numbers::{
    HIGHEST_KIND, HIGHEST_MODE, LARGEST, LAST_ORDINAL, LAST_REQUEST, LAST_USABLE, MOST_READ,
    OUTSIDE,
};
use definition::{Stand, Time};
use queue::input::{COUNT, HIGHEST, LOWEST, ZERO};
use queue::rows::{KIND, ORDINAL, RECEIVED, RECEIVER, SENDER, SENT, VALUE};

// The words of an event's row.
pub const TIME: usize = 0;

const READ: usize = 1;

const MODE: usize = 2;

const TALLY: usize = 3;

// A request from outside, or a message of a process.
#[tactic(auto, unfolding(definition::specs::BadState::ok_source))]
fn ok_source(row: Row, processes: u32) -> bool
    ensures { result ≡ ok_source processes (message_of row) }
{
    if row[SENDER] == OUTSIDE {
        row[SENT] == 0 && row[ORDINAL] <= LAST_REQUEST
    } else {
        row[SENDER] < processes && row[ORDINAL] <= LAST_ORDINAL
    }
}

pub fn ok_message(row: Row, processes: u32) -> bool
    ensures { result ≡ ok_message processes (message_of row) }
{
    row[RECEIVER] < processes
        && row[RECEIVED] <= LAST_USABLE
        && row[SENT] < row[RECEIVED]
        && row[KIND] <= HIGHEST_KIND
        && row[VALUE] <= LARGEST
        && ok_source(row, processes)
}

// A net count + 256.
#[tactic(auto, unfolding(queue::specs::Rows::net_of))]
fn ok_net(count: u32) -> bool
    ensures { result ≡ ok_net (net_of count) }
{
    count != ZERO && LOWEST <= count && count <= HIGHEST
}

// An input entry of a process.
pub fn ok_entry(row: Row, processes: u32, horizon: Time, process: u32) -> bool
    ensures { result ≡ ok_entry processes horizon process (entry_of row) }
{
    ok_message(row, processes)
        && row[RECEIVER] == process
        && horizon <= row[RECEIVED]
        && ok_net(row[COUNT])
}

// A message in transit.
pub fn ok_mail(row: Row, processes: u32, horizon: Time) -> bool
    ensures { result ≡ ok_mail processes horizon (mail_of row) }
{
    ok_message(row, processes) && horizon <= row[RECEIVED]
}

// Where a process stands.
pub fn ok_stand(stand: Stand) -> bool
    ensures { result ≡ ok_stand stand }
{
    stand.mode <= HIGHEST_MODE && stand.tally <= LARGEST
}

// An event of the history.
pub fn ok_event(row: Row, horizon: Time) -> bool
    ensures { result ≡ ok_saved horizon (saved_of row) }
{
    1 <= row[TIME]
        && row[TIME] <= LAST_USABLE
        && horizon <= row[TIME]
        && 1 <= row[READ]
        && row[READ] <= MOST_READ
        && ok_stand(Stand {
            mode: row[MODE],
            tally: row[TALLY],
        })
}

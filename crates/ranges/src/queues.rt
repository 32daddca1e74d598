// The rows of a queue, in one pass: each row's fields, and each row before the next. It leaves at the first that is not right.
ghost use Rattle.std.specs.Prelude.{◌≡◌, ◌&&◌, map};
ghost use Rattle.definition.specs.Lists.{all, in_order, compare, is_less};
ghost use Rattle.definition.specs.Message.{output_key};
ghost use Rattle.definition.specs.BadState.{ok_entry, ok_output, has_run, ok_saved, ok_mail};
ghost use Rattle.queue.specs.Rows.{message_of, entry_of, mail_of};
ghost use Rattle.definition.specs.State.{entry_key};
ghost use Rattle.history.specs.Rows.{saved_of};
ghost use Rattle.ranges.specs.Keys.{saved_key};

use crate::row;
use crate::row::TIME;
use definition::Time;
use definition::lent::Row;
use queue::rows;
use queue::rows::{ORDINAL, SENDER, SENT};

// In the reading order.
fn read_before(a: &Row, b: &Row) -> bool
    ensures { result ≡ is_less (compare entry_key (entry_of a.now) (entry_of b.now)) }
{
    rows::compare(*a, *b).is_lt()
}

// The input entries of a process.
pub fn ok_entries(entries: &[Row], processes: u32, horizon: Time, process: u32) -> bool
    ensures { result ≡ all (ok_entry processes horizon process) (map entry_of entries.now) && in_order entry_key (map entry_of entries.now) }
{
    if entries.is_empty() {
        return true;
    }
    row::ok_entry(entries[0], processes, horizon, process)
        && entries.is_sorted_by(|former, e| {
            read_before(former, e) && row::ok_entry(*e, processes, horizon, process)
        })
}

// An event of this time is in the history.
fn has_run(events: &[Row], time: Time) -> bool
    ensures { result ≡ has_run time (map saved_of events.now) }
{
    events.iter().any(|e| e[TIME] == time)
}

// An output entry of a process with these events.
fn ok_output(row: Row, processes: u32, process: u32, events: &[Row]) -> bool
    ensures { result ≡ ok_output processes process (map saved_of events.now) (message_of row) }
{
    row::ok_message(row, processes) && row[SENDER] == process && has_run(events, row[SENT])
}

// By send time, then ordinal.
fn sent_before(a: &Row, b: &Row) -> bool
    ensures { result ≡ is_less (compare output_key (message_of a.now) (message_of b.now)) }
{
    (a[SENT], a[ORDINAL]) < (b[SENT], b[ORDINAL])
}

// The output entries of a process with these events.
pub fn ok_outputs(outputs: &[Row], processes: u32, process: u32, events: &[Row]) -> bool
    ensures { result ≡ all (ok_output processes process (map saved_of events.now)) (map message_of outputs.now) && in_order output_key (map message_of outputs.now) }
{
    if outputs.is_empty() {
        return true;
    }
    ok_output(outputs[0], processes, process, events)
        && outputs.is_sorted_by(|former, e| {
            sent_before(former, e) && ok_output(*e, processes, process, events)
        })
}

// By time.
#[tactic(auto, using(laws::specs::Walks::less_only))]
fn run_before(a: &Row, b: &Row) -> bool
    ensures { result ≡ is_less (compare saved_key (saved_of a.now) (saved_of b.now)) }
{
    a[TIME] < b[TIME]
}

// The events of a process.
pub fn ok_events(events: &[Row], horizon: Time) -> bool
    ensures { result ≡ all (ok_saved horizon) (map saved_of events.now) && in_order saved_key (map saved_of events.now) }
{
    if events.is_empty() {
        return true;
    }
    row::ok_event(events[0], horizon)
        && events.is_sorted_by(|former, e| run_before(former, e) && row::ok_event(*e, horizon))
}

// The messages in transit.
pub fn ok_mails(mails: &[Row], processes: u32, horizon: Time) -> bool
    ensures { result ≡ all (ok_mail processes horizon) (map mail_of mails.now) }
{
    mails.iter().all(|e| row::ok_mail(*e, processes, horizon))
}

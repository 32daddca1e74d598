// The call Deliver, on a memory that is lawful. It is judged first, over shared references, and then carried out: so a refusal writes nothing. Both
// work on the rows of the one process that receives. The lists come one by one, for the reason that `memory::Lent` tells.
#![tactic(auto)]

ghost use Rattle.std.specs.Prelude.{◌≡◌, ◌≤◌, ◌<◌, length};
ghost use Rattle.definition.specs.Answer.{answer_of};
ghost use Rattle.definition.specs.declared.Answer.TheVariants.{Delivered};
ghost use Rattle.definition.specs.declared.Call.TheVariants.{Deliver};
ghost use Rattle.definition.specs.State.{before};
ghost use Rattle.history.specs.Rows.{InOrder, saved_at};
ghost use Rattle.queue.specs.Rows.{mail_of};
ghost use Rattle.memory.specs.Memory.{held};
ghost use Rattle.memory.specs.Promise.{Ready, Kept};
ghost use Rattle.deliver.specs.Plan.{Ordered, RolledBack, Sound, Planned, Going, Carried};

use definition::lent::{Own, Queue, Row, Rules, WHOLE};
use definition::numbers::{QUEUE, TRANSIT};
use definition::refusal::Refusal;
use definition::{Answer, Stand, Time};
use history::History;
use memory::{ENTRIES, EVENTS, MAILS, OUTPUTS};
use queue::input::Entries;
use queue::rows::{RECEIVED, RECEIVER};

// A rollback of the receiver: how many output entries and how many events it keeps, and how many of each it removes.
#[derive(Clone, Copy)]
pub struct Rollback {
    pub sends: usize,
    pub events: usize,
    pub cancelled: usize,
    pub undone: usize,
}

// How many of so many events a rollback to a time keeps. Where the last one is before that time it keeps all, and no history is loaded.
fn events_kept(own: &[Row], events: usize, time: Time) -> usize
    requires events_bound { (events ≤ 32) × (events < length own.now) }
    requires in_order { InOrder (saved_at own.now events) }
    ensures { result ≡ length (before time (saved_at own.now events)) }
{
    let last = history::last(own, events, Stand { mode: 0, tally: 0 });
    if last.time < time {
        return events;
    }
    let left = History::load(own, events).cut_back(time);
    left.count
}

// The rollback to a time of the process that these rows hold. It removes nothing where that time is after the last executed event.
fn roll_back(outputs: &[Row], own: &[Row], time: Time) -> Rollback
    requires { Ordered outputs.now own.now }
    ensures { RolledBack outputs.now own.now time result }
{
    let counts = own[0];
    let sends = counts[OUTPUTS] as usize;
    let kept = queue::output::sent_before(&outputs[..sends], time);
    let events = counts[EVENTS] as usize;
    let left = events_kept(own, events, time);
    Rollback {
        sends: kept,
        events: left,
        cancelled: sends - kept,
        undone: events - left,
    }
}

// The rollback that message m brings to the process that these rows hold, beside so many messages in transit, or what refuses its delivery.
// Nothing is written.
fn judge(
    inputs: &[Row],
    outputs: &[Row],
    own: &[Row],
    mails: usize,
    m: Row,
) -> Result<Rollback, Refusal>
    requires sound { Sound inputs.now outputs.now own.now }
    requires mails_nonzero { (0 < mails) × (mails ≤ 128) }
    ensures { Planned inputs.now outputs.now own.now mails (mail_of m) result }
{
    let counts = own[0];
    let entries = counts[ENTRIES] as usize;
    let anti = queue::transit::is_anti(m);
    let rows = Entries::new(&inputs[..entries])
        .judge(m, anti)
        .ok_or(Refusal::BadState)?;
    let back = roll_back(outputs, own, m[RECEIVED]);
    if TRANSIT < mails - 1 + back.cancelled || QUEUE < rows {
        return Err(Refusal::NoRoom);
    }
    Ok(back)
}

// Message m leaves its place in transit, the antimessages join the end, and the message is counted at its receiver, whose rows these are. Of its
// output entries and events only their counts change: those that are kept stand first.
fn carry_out(
    inputs: &mut [Row],
    outputs: &[Row],
    transit: &mut [Row],
    own: &mut [Row],
    mails: usize,
    place: usize,
    m: Row,
    back: Rollback,
)
    requires sound { Sound inputs.old outputs.now own.old }
    requires place_lt_mails { (place < mails) × (mails ≤ 128) × (length transit.old ≡ 128) }
    requires going { Going inputs.old outputs.now own.old mails (mail_of m) back }
    ensures { Carried inputs.old outputs.now transit.old own.old mails place (mail_of m) back inputs.new transit.new own.new }
{
    let counts = own[0];
    let sends = counts[OUTPUTS] as usize;
    queue::transit::exchange(transit, mails, place, &outputs[back.sends..sends]);
    let entries = counts[ENTRIES] as usize;
    let anti = queue::transit::is_anti(m);
    let rows = queue::input::count(inputs, entries, m, anti);
    own[0] = memory::with_counts(counts, rows, back.sends, back.events);
}

// "The answer reports the events undone and the antimessages sent."
fn answer(back: Rollback) -> Answer
    requires { (back.undone ≤ 32) × (back.cancelled ≤ 64) }
    ensures { result ≡ Delivered back.undone back.cancelled }
{
    Answer::Delivered {
        undone: back.undone as u32,
        cancelled: back.cancelled as u32,
    }
}

// The message at this place of transit is delivered.
pub fn deliver(
    model: &[Rules],
    inputs: &mut [Queue],
    outputs: &[Queue],
    transit: &mut [Row],
    own: &mut [Own],
    place: u32,
) -> Result<Answer, Refusal>
    requires { Ready (held model.now inputs.old outputs.now transit.old own.old) }
    ensures { Kept (held model.now inputs.old outputs.now transit.old own.old) (Deliver place) (answer_of result) (held model.now inputs.new outputs.now transit.new own.new) }
{
    let at = place as usize;
    let whole = own[WHOLE][0];
    let mails = whole[MAILS] as usize;
    if mails <= at {
        return Err(Refusal::NothingThere);
    }
    let m = transit[at];
    let p = m[RECEIVER] as usize;
    let sent = &outputs[p];
    let back = judge(&inputs[p], sent, &own[p], mails, m)?;
    carry_out(
        &mut inputs[p],
        sent,
        transit,
        &mut own[p],
        mails,
        at,
        m,
        back,
    );
    own[WHOLE][0] = memory::with_mails(whole, mails - 1 + back.cancelled);
    Ok(answer(back))
}

// The call Execute: the unread event of a process. It is judged first, over shared references, and nothing is written; then what was judged is
// carried out. The lists come one by one, for the reason that `memory::Lent` tells.
#![tactic(auto)]

ghost use Rattle.std.specs.Prelude.{◌≡◌, ◌≤◌, length};
ghost use Rattle.definition.specs.Answer.{answer_of};
ghost use Rattle.definition.specs.declared.Answer.TheVariants.{Executed};
ghost use Rattle.definition.specs.declared.Call.TheVariants.{Execute};
ghost use Rattle.memory.specs.Memory.{held};
ghost use Rattle.memory.specs.Promise.{Ready, Kept};
ghost use Rattle.execute.specs.Plan.{Sound, Judged, Going, Carried};

use definition::lent::{Own, Queue, Row, RuleRow, Rules, WHOLE};
use definition::numbers::{HISTORY, NEVER, QUEUE, TRANSIT};
use definition::refusal::Refusal;
use definition::{Answer, Saved, Stand};
use event::Outbox;
use memory::{ENTRIES, EVENTS, MAILS, MODE, OUTPUTS, TALLY};
use queue::input::Entries;

// An event that is due, as the history will keep it; the first row of the input queue that is not received before it; how many messages it sends;
// and where the process stands before it.
#[derive(Clone, Copy)]
pub struct Due {
    pub event: Saved,
    pub from: usize,
    pub sent: usize,
    pub before: Stand,
}

// What is due of a process, or what refuses it, by its rules, its input rows and its own rows, where transit has `mails` rows. Nothing is written.
#[tactic(auto, unfolding(crate::specs::Plan::refusal))]
fn judge(rules: &[RuleRow], q: &[Row], own: &[Row], mails: usize) -> Result<Due, Refusal>
    requires { Sound own.now q.now mails }
    ensures { Judged rules.now own.now q.now mails result }
{
    let numbers = own[0];
    let rows = &q[..numbers[ENTRIES] as usize];
    let entries = Entries::new(rows);
    let outputs = numbers[OUTPUTS] as usize;
    let events = numbers[EVENTS] as usize;
    let base = Stand {
        mode: numbers[MODE],
        tally: numbers[TALLY],
    };
    let last = history::last(own, events, base);
    let time = entries.unread(last.time);
    if NEVER <= time {
        return Err(Refusal::Idle);
    }
    let from = entries.received_before(time);
    let before = last.stand;
    let end = event::outcome(rules, &rows[from..], time, before);
    let sent = end.sent;
    if TRANSIT < mails + sent || QUEUE < outputs + sent || HISTORY <= events {
        return Err(Refusal::NoRoom);
    }
    let read = end.read as u32;
    let stand = end.stand;
    let event = Saved { time, read, stand };
    Ok(Due {
        event,
        from,
        sent,
        before,
    })
}

// What was judged is carried out, but for the count of rows in transit.
fn carry_out(
    rules: &[RuleRow],
    q: &[Row],
    output: &mut [Row],
    transit: &mut [Row],
    own: &mut [Row],
    mails: usize,
    process: u32,
    due: Due,
)
    requires sound { Sound own.old q.now mails }
    requires output_len { (length output.old ≡ 64) × (length transit.old ≡ 128) }
    requires going { Going rules.now own.old q.now mails process due }
    ensures { Carried rules.now own.old q.now output.old transit.old mails process own.new output.new transit.new }
{
    let numbers = own[0];
    let entries = &q[..numbers[ENTRIES] as usize];
    let outputs = numbers[OUTPUTS] as usize;
    let events = numbers[EVENTS] as usize;
    let event = due.event;
    let before = due.before;
    let mut out = Outbox {
        transit,
        mails,
        output,
        sends: outputs,
    };
    event::perform(
        rules,
        &entries[due.from..],
        process,
        event.time,
        before,
        &mut out,
    );
    history::store_last(own, events, event);
    own[0] = memory::with_counts(numbers, entries.len(), out.sends, events + 1);
}

// "The answer gives time, messages read, messages sent."
fn answer(due: Due) -> Answer
    requires { due.sent ≤ 128 }
    ensures { result ≡ Executed due.event.time due.event.read due.sent }
{
    let event = due.event;
    Answer::Executed {
        time: event.time,
        read: event.read,
        sent: due.sent as u32,
    }
}

// The call Execute on a lawful memory.
pub fn execute(
    model: &[Rules],
    inputs: &[Queue],
    outputs: &mut [Queue],
    transit: &mut [Row],
    own: &mut [Own],
    process: u32,
) -> Result<Answer, Refusal>
    requires { Ready (held model.now inputs.now outputs.old transit.old own.old) }
    ensures { Kept (held model.now inputs.now outputs.old transit.old own.old) (Execute process) (answer_of result) (held model.now inputs.now outputs.new transit.new own.new) }
{
    if table::processes(model) <= process {
        return Err(Refusal::BadArgument);
    }
    let p = process as usize;
    let numbers = own[WHOLE][0];
    let mails = numbers[MAILS] as usize;
    let rules = table::rules(&model[p]);
    let due = judge(rules, &inputs[p], &own[p], mails)?;
    carry_out(
        rules,
        &inputs[p],
        &mut outputs[p],
        transit,
        &mut own[p],
        mails,
        process,
        due,
    );
    own[WHOLE][0] = memory::with_mails(numbers, mails + due.sent);
    Ok(answer(due))
}

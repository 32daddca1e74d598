// The engine's calls, as a host makes them. Each looks at the whole state first: one that is bad, model included, is refused by 16 and left as
// it was. What follows is the call on a lawful memory, in a crate of its own. specs/Chain.antt says what they come to: a start and any calls after it
// are a rehearsal, of which demands 2 and 3 hold. Each takes the lists one by one, and as `&mut` only those that it writes: hosts, in C too, lend it
// the others to be read.
#![tactic(auto)]

ghost use Rattle.std.specs.Prelude.{◌≡◌, false, length, MatchResult};
ghost use Rattle.definition.specs.Answer.{answer_of};
ghost use Rattle.definition.specs.declared.Call.TheVariants.{Inject, Deliver, Execute, Advance};
ghost use Rattle.memory.specs.Memory.{held, lawful};
ghost use Rattle.memory.specs.Promise.{Ready, Kept, Committed, Begun};

use definition::lent::{Own, Queue, Row, Rules};
use definition::refusal::Refusal;
use definition::{Answer, Time};

pub fn start(
    model: &[Rules],
    inputs: &[Queue],
    outputs: &[Queue],
    transit: &[Row],
    own: &mut [Own],
) -> Result<Answer, Refusal>
    ensures { Begun (held model.now inputs.now outputs.now transit.now own.old) (answer_of result) (held model.now inputs.now outputs.now transit.now own.new) }
{
    start::start(model, inputs, outputs, transit, own)
}

// A state is looked at before anything is asked of it.
fn check(
    model: &[Rules],
    inputs: &[Queue],
    outputs: &[Queue],
    transit: &[Row],
    own: &[Own],
) -> Result<(), Refusal>
    ensures { MatchResult result (λ _. Ready (held model.now inputs.now outputs.now transit.now own.now)) (λ r. (r ≡ Refusal.BadState) × (lawful (held model.now inputs.now outputs.now transit.now own.now) ≡ false)) }
{
    if badstate::lawful(model, inputs, outputs, transit, own) {
        Ok(())
    } else {
        Err(Refusal::BadState)
    }
}

#[tactic(auto, using(memory::specs::Keeping::kept_unlawful))]
pub fn inject(
    model: &[Rules],
    inputs: &[Queue],
    outputs: &[Queue],
    transit: &mut [Row],
    own: &mut [Own],
    number: u32,
    receiver: u32,
    time: Time,
    kind: u32,
    value: u32,
) -> Result<Answer, Refusal>
    ensures { Kept (held model.now inputs.now outputs.now transit.old own.old) (Inject number receiver time kind value) (answer_of result) (held model.now inputs.now outputs.now transit.new own.new) }
{
    check(model, inputs, outputs, transit, own)?;
    inject::inject(
        model, inputs, outputs, transit, own, number, receiver, time, kind, value,
    )
}

#[tactic(auto, using(memory::specs::Keeping::kept_unlawful))]
pub fn deliver(
    model: &[Rules],
    inputs: &mut [Queue],
    outputs: &[Queue],
    transit: &mut [Row],
    own: &mut [Own],
    place: u32,
) -> Result<Answer, Refusal>
    ensures { Kept (held model.now inputs.old outputs.now transit.old own.old) (Deliver place) (answer_of result) (held model.now inputs.new outputs.now transit.new own.new) }
{
    check(model, inputs, outputs, transit, own)?;
    deliver::deliver(model, inputs, outputs, transit, own, place)
}

#[tactic(auto, using(memory::specs::Keeping::kept_unlawful))]
pub fn execute(
    model: &[Rules],
    inputs: &[Queue],
    outputs: &mut [Queue],
    transit: &mut [Row],
    own: &mut [Own],
    process: u32,
) -> Result<Answer, Refusal>
    ensures { Kept (held model.now inputs.now outputs.old transit.old own.old) (Execute process) (answer_of result) (held model.now inputs.now outputs.new transit.new own.new) }
{
    check(model, inputs, outputs, transit, own)?;
    execute::execute(model, inputs, outputs, transit, own, process)
}

pub fn advance(
    model: &[Rules],
    inputs: &mut [Queue],
    outputs: &mut [Queue],
    transit: &[Row],
    own: &mut [Own],
    ceiling: Time,
    buffer: &mut [u8],
) -> Result<Answer, Refusal>
    ensures { Committed (held model.now inputs.old outputs.old transit.now own.old) (Advance ceiling (length buffer.old)) (answer_of result) (held model.now inputs.new outputs.new transit.now own.new) buffer.old buffer.new }
{
    check(model, inputs, outputs, transit, own)?;
    advance::advance(model, inputs, outputs, transit, own, ceiling, buffer)
}

// Any call, on a lawful memory: the one place where a call that was read becomes a call that is made. It has one promise for all of them, with the
// buffer that an advance is lent; the other calls leave it as it was.
#![tactic(auto)]

ghost use Rattle.std.specs.Prelude.{◌≡◌, length};
ghost use Rattle.definition.specs.Answer.{answer_of};
ghost use Rattle.memory.specs.Lent.{said, SameLists};
ghost use Rattle.memory.specs.Promise.{Ready, Committed};
ghost use Rattle.calls.specs.Lent.{room_of};

use definition::refusal::Refusal;
use definition::{Answer, Call};
use memory::Lent;

#[tactic(auto, using(crate::specs::Lent::none_written, crate::specs::Lent::advance_commits))]
pub fn make(m: &mut Lent, call: Call, buffer: &mut [u8]) -> Result<Answer, Refusal>
    requires ready { Ready (said m.old) }
    requires buffer_value { room_of call (length buffer.old) ≡ length buffer.old }
    ensures commits { Committed (said m.old) call (answer_of result) (said m.new) buffer.old buffer.new }
    ensures same_lists { SameLists m.new m.old }
{
    let model = m.model;
    let inputs = &mut *m.inputs;
    let outputs = &mut *m.outputs;
    let transit = &mut *m.transit;
    let own = &mut *m.own;
    match call {
        Call::Inject {
            number,
            receiver,
            time,
            kind,
            value,
        } => inject::inject(
            model, inputs, outputs, transit, own, number, receiver, time, kind, value,
        ),
        Call::Deliver(place) => deliver::deliver(model, inputs, outputs, transit, own, place),
        Call::Execute(process) => execute::execute(model, inputs, outputs, transit, own, process),
        Call::Advance { ceiling, .. } => {
            advance::advance(model, inputs, outputs, transit, own, ceiling, buffer)
        }
    }
}

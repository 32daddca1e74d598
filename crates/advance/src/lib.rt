// The call Advance, on a lawful memory. It judges first, over shared references: how far the horizon goes (bound.rt), and what the entries before
// it measure (walk.rt). Then it writes: the entries, what is left of each process (trim.rt), and the numbers of the whole. The lists come one by
// one, for the reason that `memory::Lent` tells.
#![tactic(auto)]

mod bound;
mod trim;
mod walk;

ghost use Rattle.std.specs.Prelude.{◌≡◌, length};
ghost use Rattle.definition.specs.Answer.{answer_of};
ghost use Rattle.definition.specs.declared.Call.TheVariants.{Advance};
ghost use Rattle.memory.specs.Memory.{held};
ghost use Rattle.memory.specs.Promise.{Ready, Committed};
ghost use Rattle.advance.specs.Done.{whole_of};

use definition::lent::{Own, Queue, Row, Rules, WHOLE};
use definition::refusal::Refusal;
use definition::{Answer, Time};
use memory::{MAILS, NEXT, RECORDED};
use walk::Entries;

// The numbers of the whole with another horizon and another last recorded time.
fn with_horizon(numbers: Row, horizon: Time, recorded: Time) -> Row
    ensures { result ≡ whole_of numbers horizon recorded }
{
    [numbers[MAILS], horizon, numbers[NEXT], recorded, 0, 0, 0, 0]
}

// The call Advance.
pub fn advance(
    model: &[Rules],
    inputs: &mut [Queue],
    outputs: &mut [Queue],
    transit: &[Row],
    own: &mut [Own],
    ceiling: Time,
    buffer: &mut [u8],
) -> Result<Answer, Refusal>
    requires { Ready (held model.now inputs.old outputs.old transit.now own.old) }
    ensures { Committed (held model.now inputs.old outputs.old transit.now own.old) (Advance ceiling (length buffer.old)) (answer_of result) (held model.now inputs.new outputs.new transit.now own.new) buffer.old buffer.new }
{
    let processes = table::processes(model) as usize;
    let numbers = own[WHOLE][0];
    let recorded = numbers[RECORDED];
    let horizon = bound::reached(inputs, transit, own, processes, ceiling);
    let entries = Entries::new(own, processes, horizon);
    let sum = entries.measure(recorded);
    if buffer.len() < sum.bytes {
        return Err(Refusal::ShortBuffer);
    }
    entries.write(recorded, buffer);
    trim::all(inputs, outputs, own, processes, horizon);
    own[WHOLE][0] = with_horizon(numbers, horizon, sum.last);
    Ok(Answer::Advanced {
        horizon,
        entries: sum.entries as u32,
        bytes: sum.bytes as u32,
    })
}

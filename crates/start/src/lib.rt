// The call Start: a new state in the memory that is lent, whatever that memory said before. Only first rows are written: with counts of 0 no other
// row says anything. The lists come one by one, for the reason that `memory::Lent` tells.
#![tactic(auto)]

ghost use Rattle.std.specs.Prelude.{◌≡◌, ℕ, ◌≤◌, length};
ghost use Rattle.definition.specs.Answer.{answer_of};
ghost use Rattle.memory.specs.Memory.{held};
ghost use Rattle.memory.specs.Promise.{sized_for, Begun};
ghost use Rattle.start.specs.First.{first_row, Placed};

use definition::lent::{OWNERS, Own, Queue, Row, Rules, WHOLE, WIDTH};
use definition::numbers::{PROCESSES, TRANSIT};
use definition::refusal::Refusal;
use definition::{Answer, Stand};

// All lists are as long as they must be, for any number of processes. How many rows each process has is said by the types of their elements.
pub fn is_sized(inputs: &[Queue], outputs: &[Queue], transit: &[Row], own: &[Own]) -> bool
    ensures { (processes : ℕ) → processes ≤ 8 → result ≡ sized_for processes inputs.now outputs.now transit.now own.now }
{
    inputs.len() == PROCESSES
        && outputs.len() == PROCESSES
        && transit.len() == TRANSIT
        && own.len() == OWNERS
}

// The first row of a process that stands where the model says: all its counts are 0.
fn first_row(first: Stand) -> Row
    ensures { result ≡ first_row first }
{
    [0, 0, 0, first.mode, first.tally, 0, 0, 0]
}

// The first rows of the first processes are put down.
fn place(model: &[Rules], own: &mut [Own], processes: usize)
    requires { (processes ≤ length model.now) × (processes ≤ length own.old) }
    ensures { Placed model.now processes own.old own.new }
{
    for (p, rules) in model[..processes].iter().enumerate() {
        own[p][0] = first_row(table::first(rules));
    }
}

// Modes and tallies as the model says, and all else empty.
pub fn start(
    model: &[Rules],
    inputs: &[Queue],
    outputs: &[Queue],
    transit: &[Row],
    own: &mut [Own],
) -> Result<Answer, Refusal>
    ensures { Begun (held model.now inputs.now outputs.now transit.now own.old) (answer_of result) (held model.now inputs.now outputs.now transit.now own.new) }
{
    if !rulecheck::lawful(model) {
        return Err(Refusal::BadState);
    }
    if !is_sized(inputs, outputs, transit, own) {
        return Err(Refusal::BadState);
    }
    place(model, own, table::processes(model) as usize);
    own[WHOLE][0] = [0; WIDTH];
    Ok(Answer::Started)
}

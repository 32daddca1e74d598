// The host keeps the processes as a list of its own, apart from the engine's state: the lowest unread time over that list, and the step of one
// process's mode and tally where they stand. What takes a reference to a struct is thin: the deciding is done by value, in functions that any
// caller can use.
#![tactic(auto)]

ghost use Rattle.std.specs.Prelude.{◌≡◌};
ghost use Rattle.definition.specs.Host.{lowest_unread};
ghost use Rattle.host.specs.Steps.{answered, refusal, standing, outcome, stepped_of, told};

use definition::lent::Rules;
use definition::numbers::NEVER;
use definition::refusal::Refusal;
use definition::{Stand, Summary, Time};

// The lowest unread time over the host's list, "never" for none.
pub fn lowest_unread(processes: &[Summary]) -> Time
    ensures { result ≡ lowest_unread processes.now }
{
    processes
        .iter()
        .fold(NEVER, |lowest, process| lowest.min(process.unread))
}

// Where one message leaves a process of the model, by value.
pub fn outcome_of(
    model: &[Rules],
    process: u32,
    stand: Stand,
    kind: u32,
    value: u32,
) -> Result<Stand, Refusal>
    ensures { told stand result ≡ outcome model.now process stand kind value }
{
    if !rulecheck::lawful(model) {
        return Err(Refusal::BadState);
    }
    if table::processes(model) <= process {
        return Err(Refusal::BadArgument);
    }
    Ok(answer::apply(model, process as usize, stand, kind, value))
}

// The same where the mode and tally stand. A refusal leaves them as they were.
pub fn step(
    model: &[Rules],
    process: u32,
    stand: &mut Stand,
    kind: u32,
    value: u32,
) -> Result<(), Refusal>
    ensures answers { stepped_of result ≡ answered (refusal model.now process) }
    ensures stands { stand.new ≡ standing model.now process stand.old kind value }
{
    *stand = outcome_of(model, process, *stand, kind, value)?;
    Ok(())
}

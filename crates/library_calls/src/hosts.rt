// The host's calls on what it lends: the step of a process's mode and tally where they stand, and the lowest unread time over a list of summaries.
// A function that lends them is thin and takes plain parameters.
ghost use Rattle.std.specs.Prelude.{◌≡◌, ◌≤◌, take};
ghost use Rattle.definition.specs.Host.{lowest_unread};
ghost use Rattle.host.specs.Steps.{answered, refusal, standing, stepped_of};

use crate::change::at_most;
use crate::say;
use definition::lent::Rules;
use definition::numbers::LARGEST;
use definition::refusal::Refusal;
use definition::{Stand, Summary};
use std::io;

// The step of a mode and tally, lent by `&mut`: what it answers, and where they stand then.
fn stepped(
    model: &[Rules],
    process: u32,
    stand: Stand,
    kind: u32,
    value: u32,
) -> (Result<(), Refusal>, Stand)
    ensures answers { stepped_of result.0 ≡ answered (refusal model.now process) }
    ensures stands { result.1 ≡ standing model.now process stand kind value }
{
    let mut now = stand;
    let answer = host::step(model, process, &mut now, kind, value);
    (answer, now)
}

// The lowest unread time over the first so many of three summaries, lent as a slice.
fn lowest_of(summaries: [Summary; 3], count: usize) -> u32
    requires { count ≤ 3 }
    ensures { result ≡ lowest_unread (take count summaries) }
{
    host::lowest_unread(&summaries[..count])
}

// The step of a process in a mode, by a message of a kind and of value 1. Its tally is the largest.
pub fn step(
    rt: &impl Print,
    model: &[Rules],
    process: u32,
    mode: u32,
    kind: u32,
) -> io::Result<()> {
    let stand = Stand {
        mode,
        tally: LARGEST,
    };
    let (answer, now) = stepped(model, process, stand, kind, 1);
    match answer {
        Ok(()) => say::ok(rt)?,
        Err(refusal) => say::refused(rt, refusal)?,
    }
    say::stands(rt, now)
}

fn summary(unread: u32) -> Summary {
    Summary {
        mode: 0,
        tally: 0,
        unread,
    }
}

// The lowest of the first so many of three unread times.
pub fn lowest(rt: &impl Print, count: u32, unread: [u32; 3]) -> io::Result<()> {
    let count = at_most(rt, count as usize, 3)?;
    say::number(rt, lowest_of(unread.map(summary), count))
}

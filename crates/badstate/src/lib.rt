// Whether a state handed in may be worked on. Document 01's BadState, model included: a memory for which `lawful` says no is refused by 16.
// The model is tested first, then the numbers of the whole with what is in transit, then process after process.
// The lengths of the lists are tested too: most are what the types say, and there the compiler leaves the test out.
#![tactic(auto)]

ghost use Rattle.std.specs.Prelude.{◌≡◌, true, ◌≤◌, length};
ghost use Rattle.definition.specs.BadState.{ok_process};
ghost use Rattle.memory.specs.Memory.{process_of, shaped_at, all_of, held, lawful as Lawful};
ghost use Rattle.badstate.specs.Parts.{alone, lawful_process, lawful_at, ok_numbers, lawful_whole};

use definition::lent::{OWN, OWNERS, Own, Queue, Row, Rules, WHOLE};
use definition::numbers::{HISTORY, LAST_NEXT, NEVER, PROCESSES, QUEUE, TRANSIT};
use definition::{Stand, Time};
use memory::{ENTRIES, EVENTS, HORIZON, MAILS, MODE, NEXT, OUTPUTS, RECORDED, TALLY};
use ranges::{queues, row};

// The rows of one process: as many as there must be, and counts within them.
#[tactic(auto, unfolding(memory::specs::Memory::shaped_at))]
fn shaped(own: &[Row], inputs: &[Row], outputs: &[Row]) -> bool
    ensures { result ≡ shaped_at (alone own.now inputs.now outputs.now) 0 }
{
    inputs.len() == QUEUE
        && outputs.len() == QUEUE
        && own.len() == OWN
        && own[0][ENTRIES] as usize <= QUEUE
        && own[0][OUTPUTS] as usize <= QUEUE
        && own[0][EVENTS] as usize <= HISTORY
}

// The base, the queues and the history of one process.
#[tactic(auto, unfolding(memory::specs::Memory::shaped_at, definition::specs::BadState::ok_process))]
fn ok_process(
    own: &[Row],
    inputs: &[Row],
    outputs: &[Row],
    processes: u32,
    horizon: Time,
    process: u32,
) -> bool
    requires { shaped_at (alone own.now inputs.now outputs.now) 0 ≡ true }
    ensures { result ≡ ok_process processes horizon process (process_of own.now inputs.now outputs.now) }
{
    let numbers = own[0];
    let base = Stand {
        mode: numbers[MODE],
        tally: numbers[TALLY],
    };
    let entries = &inputs[..numbers[ENTRIES] as usize];
    let sends = &outputs[..numbers[OUTPUTS] as usize];
    let events = &own[1..=numbers[EVENTS] as usize];
    row::ok_stand(base)
        && queues::ok_entries(entries, processes, horizon, process)
        && queues::ok_outputs(sends, processes, process, events)
        && queues::ok_events(events, horizon)
}

// One process.
#[tactic(auto, unfolding(crate::specs::Parts::lawful_process))]
fn lawful_process(
    own: &[Row],
    inputs: &[Row],
    outputs: &[Row],
    processes: u32,
    horizon: Time,
    process: u32,
) -> bool
    ensures { result ≡ lawful_process processes horizon process own.now inputs.now outputs.now }
{
    shaped(own, inputs, outputs) && ok_process(own, inputs, outputs, processes, horizon, process)
}

// Every process.
fn lawful_processes(
    own: &[Own],
    inputs: &[Queue],
    outputs: &[Queue],
    processes: u32,
    horizon: Time,
) -> bool
    requires { (processes ≤ length own.now) × (processes ≤ length inputs.now) × (processes ≤ length outputs.now) }
    ensures { result ≡ all_of 0 processes (lawful_at processes horizon own.now inputs.now outputs.now) }
{
    (0..processes).all(|p| {
        let i = p as usize;
        lawful_process(&own[i], &inputs[i], &outputs[i], processes, horizon, p)
    })
}

// Horizon, next request number and last recorded time.
#[tactic(auto, unfolding(crate::specs::Parts::ok_numbers))]
fn ok_numbers(horizon: Time, next: u32, recorded: Time) -> bool
    ensures { result ≡ ok_numbers horizon next recorded }
{
    horizon <= NEVER
        && next <= LAST_NEXT
        && if horizon == 0 {
            recorded == 0
        } else {
            recorded < horizon
        }
}

// What is in transit, and the numbers of the whole.
#[tactic(auto, unfolding(crate::specs::Parts::lawful_whole))]
fn lawful_whole(whole: &[Row], transit: &[Row], processes: u32) -> bool
    ensures { result ≡ lawful_whole processes whole.now transit.now }
{
    if transit.len() != TRANSIT || whole.len() != OWN {
        return false;
    }
    let numbers = whole[0];
    let mails = numbers[MAILS] as usize;
    mails <= TRANSIT
        && queues::ok_mails(&transit[..mails], processes, numbers[HORIZON])
        && ok_numbers(numbers[HORIZON], numbers[NEXT], numbers[RECORDED])
}

// Whether a call may work on this memory.
#[tactic(auto, using(crate::proofs::Laws::lawful_is, crate::proofs::Laws::model_few))]
pub fn lawful(
    model: &[Rules],
    inputs: &[Queue],
    outputs: &[Queue],
    transit: &[Row],
    own: &[Own],
) -> bool
    ensures { result ≡ Lawful (held model.now inputs.now outputs.now transit.now own.now) }
{
    if !rulecheck::lawful(model) {
        return false;
    }
    if inputs.len() != PROCESSES || outputs.len() != PROCESSES || own.len() != OWNERS {
        return false;
    }
    let processes = table::processes(model);
    let whole = &own[WHOLE];
    lawful_whole(whole, transit, processes)
        && lawful_processes(own, inputs, outputs, processes, whole[0][HORIZON])
}

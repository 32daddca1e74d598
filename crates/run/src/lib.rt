// A run of many calls, from a start: the calls that stand in the input are made one after the other, each on the state that the one before left.
// The state is looked at once, by the start; what every call promises says that the state after it is lawful again. Nothing is asked of a caller:
// a model or lists that a start refuses are refused here by the same number, and the run stops where a row or the room for an advance is wanting.
#![tactic(auto)]

ghost use Rattle.std.specs.Prelude.{◌≡◌, ◌+◌, ◌≤◌, ◌<◌, length};
ghost use Rattle.definition.specs.Program.{buffer_length};
ghost use Rattle.calls.specs.Lent.{room_of};
ghost use Rattle.lawful.specs.Written.{written_of};
ghost use Rattle.memory.specs.Memory.{state_of};
ghost use Rattle.memory.specs.Lent.{said, SameLists};
ghost use Rattle.memory.specs.Promise.{Ready};
ghost use Rattle.definition.specs.Answer.{answer_of};
ghost use Rattle.run.specs.Made.{turn_of};
ghost use Rattle.run.specs.Rows.{row_of};
ghost use Rattle.run.specs.Promise.{ran, Turned, Works, Runs};

use definition::numbers::BUFFER_LENGTH;
use definition::refusal::Refusal;
use definition::{Answer, Call};
use memory::Lent;

// How many calls were made, the place of the next one, and how many bytes of the record were written.
#[derive(Clone, Copy)]
pub struct Ran {
    pub calls: usize,
    pub next: usize,
    pub recorded: usize,
}

// The call at a place with the place after it, where one can be read, and a row and the room for an advance are left.
fn turn_at(bytes: &[u8], at: usize, rows: usize, room: usize) -> Option<(Call, usize)>
    ensures { result ≡ turn_of bytes.now at rows room }
{
    if rows == 0 || room < BUFFER_LENGTH || bytes.len() <= at {
        return None;
    }
    runfile::call_at(bytes, at).ok()
}

// An answer as a row, for C too: the number that refuses the call, 0 for none, and up to three values.
fn row(answer: Result<Answer, Refusal>) -> [u32; 4]
    ensures { result ≡ row_of (answer_of answer) }
{
    match answer {
        Err(refusal) => [u32::from(refusal), 0, 0, 0],
        Ok(Answer::Started | Answer::Injected) => [0, 0, 0, 0],
        Ok(Answer::Delivered { undone, cancelled }) => [0, undone, cancelled, 0],
        Ok(Answer::Executed { time, read, sent }) => [0, time, read, sent],
        Ok(
            Answer::Advanced {
                horizon,
                entries,
                bytes,
            },
        ) => [0, horizon, entries, bytes],
    }
}

// How many bytes a call wrote: a field of one answer, as `lines` reads another.
fn written(answer: Result<Answer, Refusal>) -> usize
    ensures { result ≡ written_of (answer_of answer) }
{
    let Ok(Answer::Advanced { bytes, .. }) = answer else {
        return 0;
    };
    bytes as usize
}

// A call is made: its answer becomes a row, and what it commits goes on the record where it ended.
fn make(
    m: &mut Lent,
    call: Call,
    answers: &mut [[u32; 4]],
    place: usize,
    committed: &mut [u8],
    recorded: usize,
) -> usize
    requires ready { Ready (said m.old) }
    requires buffer_length_value { room_of call buffer_length ≡ buffer_length }
    requires place_in_bounds { (place < length answers.old) × (recorded + buffer_length ≤ length committed.old) }
    ensures turned { Turned (said m.old) call result (said m.new) answers.old answers.new place committed.old committed.new recorded }
    ensures same_lists { SameLists m.new m.old }
{
    let end = recorded + BUFFER_LENGTH;
    let answer = calls::make(m, call, &mut committed[recorded..end]);
    answers[place] = row(answer);
    recorded + written(answer)
}

// The calls of the input are made, from its first byte on, on a lawful memory.
fn work(bytes: &[u8], m: &mut Lent, answers: &mut [[u32; 4]], committed: &mut [u8]) -> Ran
    requires { Ready (said m.old) }
    ensures works { Works bytes.now (state_of (said m.old)) (ran (Ok result)) (said m.new) answers.old answers.new committed.old committed.new }
    ensures same_lists { SameLists m.new m.old }
{
    let mut calls = 0;
    let mut next = 0;
    let mut recorded = 0;
    while let Some((call, after)) = turn_at(
        bytes,
        next,
        answers.len() - calls,
        committed.len() - recorded,
    ) {
        recorded = make(m, call, answers, calls, committed, recorded);
        calls += 1;
        next = after;
    }
    Ran {
        calls,
        next,
        recorded,
    }
}

// A start, and the calls of the input after it.
pub fn run(
    bytes: &[u8],
    m: &mut Lent,
    answers: &mut [[u32; 4]],
    committed: &mut [u8],
) -> Result<Ran, Refusal>
    ensures runs { Runs bytes.now (said m.old) (ran result) (said m.new) answers.old answers.new committed.old committed.new }
    ensures same_lists { SameLists m.new m.old }
{
    let inputs = &mut *m.inputs;
    let outputs = &mut *m.outputs;
    let transit = &mut *m.transit;
    let own = &mut *m.own;
    start::start(m.model, inputs, outputs, transit, own)?;
    Ok(work(bytes, m, answers, committed))
}

// One rehearsal from a run file, turn by turn: `begin` reads the model and prints its line, `step` works the call at a place and prints its lines.
// What is printed stands at the start of a lent text; whoever lends it has only to move the bytes. Nothing is asked of a caller: a memory that is
// not lawful, a text that is too short and an input that is too long are refused by their numbers.
#![tactic(auto)]

ghost use Rattle.std.specs.Prelude.{◌≡◌, true, ◌&&◌, ◌≤◌, length};
ghost use Rattle.definition.specs.ModelBytes.{Got};
ghost use Rattle.definition.specs.Program.{fault_line};
ghost use Rattle.runfile.specs.Reading.{head_of};
ghost use Rattle.text.specs.Part.{part_text};
ghost use Rattle.model.specs.Stored.{has_room};
ghost use Rattle.memory.specs.Memory.{held, lawful};
ghost use Rattle.memory.specs.Lent.{said, SameLists};
ghost use Rattle.memory.specs.Promise.{sized_for};
ghost use Rattle.lines.specs.Promise.{longest};
ghost use Rattle.definition.specs.Answer.{refusal_number};
ghost use Rattle.rehearsal.specs.Promise.{progress, Says, Begins, Prints, turn_due};

use definition::lent::{Own, Queue, Row, Rules};
use definition::numbers::INPUT_LENGTH;
use definition::refusal::{Fault, Refusal};
use memory::Lent;
use text::Part;

// How many bytes of text a turn printed, and the place of the next call, which is the end of the input when nothing is left.
#[derive(Clone, Copy)]
pub struct Printed {
    pub end: usize,
    pub next: usize,
}

// A text of so many bytes has room for the lines of any call.
pub const LONGEST: usize = 15671;

// The lists are as long as they must be for any model.
fn has_room(
    model: &[Rules],
    inputs: &[Queue],
    outputs: &[Queue],
    transit: &[Row],
    own: &[Own],
) -> bool
    ensures { result ≡ (has_room model.now && sized_for 8 inputs.now outputs.now transit.now own.now) }
{
    model::has_room(model) && start::is_sized(inputs, outputs, transit, own)
}

// A fault's line, which is the last: nothing is left of an input of this length.
fn ended(part: Part, fault: Fault, input: usize, text: &mut [u8]) -> Printed
    requires { (fault.at ≤ 65536) × (longest ≤ length text.old) }
    ensures { Says (fault_line (part_text part) (refusal_number fault.refusal) fault.at) input (progress (Ok result)) text.old text.new }
{
    let number = u32::from(fault.refusal);
    let end = text::fault_line(part, number, fault.at as u32, text, 0).unwrap();
    Printed { end, next: input }
}

// The model that stands at a place is read and started.
fn start(
    bytes: &[u8],
    at: usize,
    size: usize,
    model: &mut [Rules],
    inputs: &[Queue],
    outputs: &[Queue],
    transit: &[Row],
    own: &mut [Own],
    text: &mut [u8],
) -> Result<Printed, Refusal>
    requires bytes_value { head_of bytes.now ≡ Got at size }
    requires own_value { (has_room model.old && sized_for 8 inputs.now outputs.now transit.now own.old) ≡ true }
    requires longest_in_bounds { longest ≤ length text.old }
    ensures { Begins (held model.old inputs.now outputs.now transit.now own.old) bytes.now (progress result) (held model.new inputs.now outputs.now transit.now own.new) text.old text.new }
{
    let next = at + size;
    match model::read(&bytes[at..next], model) {
        Err(fault) => {
            let at = at + fault.at;
            Ok(ended(Part::Model, Fault { at, ..fault }, bytes.len(), text))
        }
        Ok(processes) => {
            start::start(model, inputs, outputs, transit, own).unwrap();
            let end = text::model_line(processes, text, 0).unwrap();
            Ok(Printed { end, next })
        }
    }
}

// The first turn: the model is read, and a new state begins with it. The lists come one by one: the model is written, and most others are only read.
#[tactic(auto, using(crate::proofs::Beginning::no_room, crate::proofs::Beginning::too_short, crate::proofs::Beginning::file_fault_place))]
pub fn begin(
    bytes: &[u8],
    model: &mut [Rules],
    inputs: &[Queue],
    outputs: &[Queue],
    transit: &[Row],
    own: &mut [Own],
    text: &mut [u8],
) -> Result<Printed, Refusal>
    ensures { Begins (held model.old inputs.now outputs.now transit.now own.old) bytes.now (progress result) (held model.new inputs.now outputs.now transit.now own.new) text.old text.new }
{
    if !has_room(model, inputs, outputs, transit, own) {
        return Err(Refusal::BadState);
    }
    if text.len() < LONGEST {
        return Err(Refusal::ShortBuffer);
    }
    match runfile::head(bytes) {
        Err(fault) => Ok(ended(Part::File, fault, bytes.len(), text)),
        Ok((at, size)) => start(bytes, at, size, model, inputs, outputs, transit, own, text),
    }
}

// Whether a call may work on this memory.
fn lawful(m: &Lent) -> bool
    ensures { result ≡ lawful (said m.now) }
{
    badstate::lawful(m.model, m.inputs, m.outputs, m.transit, m.own)
}

// The turn of the call at a place; at the end of the input it does nothing.
#[tactic(auto, using(crate::proofs::Stepping::unlawful, crate::proofs::Stepping::too_short, crate::proofs::Stepping::too_long, crate::proofs::Stepping::nothing_left, calls::specs::Lent::lent_whole, runfile::specs::Places::call_fault_placed))]
pub fn step(bytes: &[u8], at: usize, m: &mut Lent, text: &mut [u8]) -> Result<Printed, Refusal>
    ensures prints { Prints (said m.old) (turn_due (said m.old) (length text.old) bytes.now at) (progress result) (said m.new) text.old text.new }
    ensures same_lists { SameLists m.new m.old }
{
    if !lawful(m) {
        return Err(Refusal::BadState);
    }
    if text.len() < LONGEST {
        return Err(Refusal::ShortBuffer);
    }
    if INPUT_LENGTH < bytes.len() {
        return Err(Refusal::TooLong);
    }
    if bytes.len() <= at {
        return Ok(Printed { end: 0, next: at });
    }
    match runfile::call_at(bytes, at) {
        Err(fault) => Ok(ended(Part::Call, fault, bytes.len(), text)),
        Ok((call, next)) => {
            let end = lines::work(m, call, text);
            Ok(Printed { end, next })
        }
    }
}

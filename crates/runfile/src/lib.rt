// The run file: where its model stands, and the call at a place. Every number is read by `field`, and a fault leaves at once by `?`, with its place
// counted from the start of the input.
#![tactic(auto)]

ghost use Rattle.std.specs.Prelude.{◌≡◌};
ghost use Rattle.definition.specs.Answer.{parsed};
ghost use Rattle.definition.specs.Program.{call_by, call_at};
ghost use Rattle.runfile.specs.Reading.{head_of};

use definition::Call;
use definition::numbers::{BUFFER_LENGTH, INPUT_LENGTH, LARGEST};
use definition::refusal::{Fault, Refusal};
use field::field;

// An inject's arguments.
#[tactic(auto, using(field::specs::Reading::got, field::specs::Reading::lost))]
fn inject_at(bytes: &[u8], at: usize) -> Result<(Call, usize), Fault>
    ensures { parsed result ≡ call_by bytes.now 0 at }
{
    let (number, next) = field(bytes, 0, LARGEST, at)?;
    let (receiver, next) = field(bytes, 0, LARGEST, next)?;
    let (time, next) = field(bytes, 0, LARGEST, next)?;
    let (kind, next) = field(bytes, 0, LARGEST, next)?;
    let (value, next) = field(bytes, 0, LARGEST, next)?;
    let call = Call::Inject {
        number,
        receiver,
        time,
        kind,
        value,
    };
    Ok((call, next))
}

// The call at a place: its tag, 0 inject, 1 deliver, 2 execute, 3 advance, and its arguments.
#[tactic(auto, using(field::specs::Reading::got, field::specs::Reading::lost), unfolding(definition::specs::Program::call_at))]
pub fn call_at(bytes: &[u8], at: usize) -> Result<(Call, usize), Fault>
    ensures { parsed result ≡ call_at bytes.now at }
{
    let (tag, next) = field(bytes, 0, 3, at)?;
    if tag == 0 {
        return inject_at(bytes, next);
    }
    let (argument, next) = field(bytes, 0, LARGEST, next)?;
    let call = match tag {
        1 => Call::Deliver(argument),
        2 => Call::Execute(argument),
        _ => Call::Advance {
            ceiling: argument,
            room: BUFFER_LENGTH,
        },
    };
    Ok((call, next))
}

// Where the model stands: its first byte, after its length, and how many it has. It ends within the input.
#[tactic(auto, using(crate::proofs::Steps::head_read, crate::proofs::Steps::ends, field::specs::Reading::got, field::specs::Reading::lost))]
pub fn head(bytes: &[u8]) -> Result<(usize, usize), Fault>
    ensures { parsed result ≡ head_of bytes.now }
{
    if INPUT_LENGTH < bytes.len() {
        return Err(Fault {
            refusal: Refusal::TooLong,
            at: INPUT_LENGTH,
        });
    }
    let (size, at) = field(bytes, 0, LARGEST, 0)?;
    let size = size as usize;
    if bytes.len() < at + size {
        return Err(Fault {
            refusal: Refusal::Cut,
            at: 0,
        });
    }
    Ok((at, size))
}

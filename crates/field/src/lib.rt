// A number in its range, at a place of bytes: models, run files and records are read by it alone. Each house number's answer is taken apart here, and
// a refusal leaves at once with its offset; the readers above hand it on by `?`.
// A place goes in beside the bytes and comes back beside what was read: so each reader is one equation to the definition's reading at a place, which a
// cursor that moves would have to say before and after.
#![tactic(auto)]

ghost use Rattle.std.specs.Prelude.{◌≡◌};
ghost use Rattle.definition.specs.Answer.{parsed};
ghost use Rattle.definition.specs.ModelBytes.{field as field_at};

use definition::refusal::{Fault, Refusal};

// The number at a place, from low to high, with the place of the next one; or its fault. As a call, with what it answers in memory, it takes a
// twelfth of the reading of a record's entry.
#[inline(always)]
pub fn field(bytes: &[u8], low: u32, high: u32, at: usize) -> Result<(u32, usize), Fault>
    ensures { parsed result ≡ field_at bytes.now low high at }
{
    let answer = house::read(bytes, at);
    let Ok((value, next)) = answer else {
        let refusal = answer.unwrap_err();
        return Err(Fault { refusal, at });
    };
    if value < low || high < value {
        let refusal = Refusal::OutOfRange;
        return Err(Fault { refusal, at });
    }
    Ok((value, next))
}

// A rule of a model in bytes. Each reader below answers what it read with the place of the next number, or the first fault from the left, which
// leaves at once.
#![tactic(auto)]

ghost use Rattle.std.specs.Prelude.{◌≡◌, ◌||◌, ◌≤◌, leb, ltb};
ghost use Rattle.definition.specs.Answer.{parsed};
ghost use Rattle.definition.specs.ModelBytes.{mapped, effect_at, value_at, send_at, sends_at, rule_at};
ghost use Rattle.rulebytes.specs.Reading.{rowed, sending, rule_after};

use definition::numbers::{HIGHEST_KIND, HIGHEST_MODE, LARGEST};
use definition::refusal::{Fault, Refusal};
use definition::{Effect, Send, Value};
use field::field;
use rule::Decoded;

// A send that is not there.
const NO_SEND: Send = Send {
    receiver: 0,
    delay: 0,
    kind: 0,
    value: Value::Fixed(0),
};

// The effect on the tally: 0 keep; 1 set and 2 add, with a number; 3 add the value read.
#[tactic(auto, unfolding(definition::specs::ModelBytes::effect_at))]
fn effect_at(bytes: &[u8], at: usize) -> Result<(Effect, usize), Fault>
    ensures { parsed result ≡ effect_at bytes.now at }
{
    let (tag, next) = field(bytes, 0, 3, at)?;
    match tag {
        0 => Ok((Effect::Keep, next)),
        1 => {
            let (number, next) = field(bytes, 0, LARGEST, next)?;
            Ok((Effect::Set(number), next))
        }
        2 => {
            let (number, next) = field(bytes, 0, LARGEST, next)?;
            Ok((Effect::Add(number), next))
        }
        _ => Ok((Effect::AddRead, next)),
    }
}

// The value of a send: 0 fixed, with a number; 1 the tally after the effect; 2 the value read.
#[tactic(auto, unfolding(definition::specs::ModelBytes::value_at))]
fn value_at(bytes: &[u8], at: usize) -> Result<(Value, usize), Fault>
    ensures { parsed result ≡ value_at bytes.now at }
{
    let (tag, next) = field(bytes, 0, 2, at)?;
    match tag {
        0 => {
            let (number, next) = field(bytes, 0, LARGEST, next)?;
            Ok((Value::Fixed(number), next))
        }
        1 => Ok((Value::Tally, next)),
        _ => Ok((Value::Read, next)),
    }
}

// A send: its receiver is at most the highest process.
#[tactic(auto, unfolding(definition::specs::ModelBytes::send_at))]
fn send_at(bytes: &[u8], highest: u32, at: usize) -> Result<(Send, usize), Fault>
    ensures { parsed result ≡ send_at bytes.now highest at }
{
    let (receiver, next) = field(bytes, 0, highest, at)?;
    let (delay, next) = field(bytes, 1, 65535, next)?;
    let (kind, next) = field(bytes, 0, HIGHEST_KIND, next)?;
    let (value, next) = value_at(bytes, next)?;
    let send = Send {
        receiver,
        delay,
        kind,
        value,
    };
    Ok((send, next))
}

// The rule with its sends read, as many as it says.
#[tactic(auto, unfolding(definition::specs::ModelBytes::sends_at))]
fn sends_at(bytes: &[u8], highest: u32, rule: Decoded, at: usize) -> Result<(Decoded, usize), Fault>
    requires { rule.count ≤ 2 }
    ensures { parsed result ≡ mapped rowed (mapped (sending rule) (sends_at bytes.now highest rule.count at)) }
{
    let rule = Decoded {
        first: NO_SEND,
        second: NO_SEND,
        ..rule
    };
    if rule.count == 0 {
        return Ok((rule, at));
    }
    let (first, next) = send_at(bytes, highest, at)?;
    let rule = Decoded { first, ..rule };
    if rule.count == 1 {
        return Ok((rule, next));
    }
    let (second, next) = send_at(bytes, highest, next)?;
    Ok((Decoded { second, ..rule }, next))
}

// What stands after a rule's mode and kind.
#[tactic(auto, unfolding(crate::specs::Reading::rule_after))]
fn rule_after(
    bytes: &[u8],
    highest: u32,
    mode: u32,
    kind: u32,
    at: usize,
) -> Result<(Decoded, usize), Fault>
    ensures { parsed result ≡ mapped rowed (rule_after bytes.now highest mode kind at) }
{
    let (after, next) = field(bytes, 0, HIGHEST_MODE, at)?;
    let (effect, next) = effect_at(bytes, next)?;
    let (count, next) = field(bytes, 0, 2, next)?;
    let rule = Decoded {
        mode,
        kind,
        next: after,
        effect,
        count,
        first: NO_SEND,
        second: NO_SEND,
    };
    sends_at(bytes, highest, rule, next)
}

// Whether a rule of this mode and kind may stand where these are the least that may.
fn follows(mode: u32, kind: u32, least_mode: u32, least_kind: u32) -> bool
    ensures { result ≡ (ltb least_mode mode || leb least_kind kind) }
{
    least_mode < mode || least_kind <= kind
}

// The rule at a place. The least mode and kind that may follow the former rule are given.
#[tactic(auto, unfolding(definition::specs::ModelBytes::rule_at, crate::specs::Reading::rule_after))]
pub fn rule_at(
    bytes: &[u8],
    highest: u32,
    least_mode: u32,
    least_kind: u32,
    at: usize,
) -> Result<(Decoded, usize), Fault>
    ensures { parsed result ≡ mapped rowed (rule_at bytes.now highest least_mode least_kind at) }
{
    let (mode, next) = field(bytes, 0, HIGHEST_MODE, at)?;
    if mode < least_mode {
        return Err(Fault {
            refusal: Refusal::OutOfOrder,
            at,
        });
    }
    let (kind, next) = field(bytes, 0, HIGHEST_KIND, next)?;
    if !follows(mode, kind, least_mode, least_kind) {
        return Err(Fault {
            refusal: Refusal::OutOfOrder,
            at,
        });
    }
    rule_after(bytes, highest, mode, kind, next)
}

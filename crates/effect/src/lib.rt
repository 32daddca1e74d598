// What a rule does: where a process stands after a message that the rule answers, and the value of each send. The value of a send is told once the
// tally is that after the effect.
#![tactic(auto)]

ghost use Rattle.std.specs.Prelude.{◌≡◌};
ghost use Rattle.definition.specs.Model.{effect_on, value_of};

use definition::{Effect, Send, Stand, Value};
use rule::Decoded;

fn tally_after(effect: Effect, tally: u32, value: u32) -> u32
    ensures { result ≡ effect_on effect tally value }
{
    match effect {
        Effect::Keep => tally,
        Effect::Set(number) => number,
        Effect::Add(number) => tally.wrapping_add(number),
        Effect::AddRead => tally.wrapping_add(value),
    }
}

// Where a process stands after a message that a rule answers.
pub fn after(rule: Decoded, stand: Stand, value: u32) -> Stand
    ensures { result ≡ record { mode = rule.next; tally = effect_on rule.effect stand.tally value } }
{
    Stand {
        mode: rule.next,
        tally: tally_after(rule.effect, stand.tally, value),
    }
}

// The value of a send, once the tally is that after the effect.
pub fn sent_value(send: Send, tally: u32, value: u32) -> u32
    ensures { result ≡ value_of send.value tally value }
{
    match send.value {
        Value::Fixed(number) => number,
        Value::Tally => tally,
        Value::Read => value,
    }
}

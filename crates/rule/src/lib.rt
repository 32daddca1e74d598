// A rule decoded from its row, and the row of a rule (specs/Rows.antt says what the words are): the enums of document 01 inside the send, inside the
// rule, all by value. Any row says a rule.
#![tactic(auto)]

ghost use Rattle.std.specs.Prelude.{◌≡◌, ◌≤◌};
ghost use Rattle.rule.specs.Rows.{effect_of, value_of, send_at, decoded, effect_tag, effect_number, value_tag, value_number, encoded};

use definition::lent::RuleRow;
use definition::{Effect, Send, Value};

// `first` and `second` are no array: to `specs/` an array is a list of any length, and the law `decoded_encoded` is one of every value of this type.
#[derive(Clone, Copy)]
pub struct Decoded {
    pub mode: u32,
    pub kind: u32,
    pub next: u32,
    pub effect: Effect,
    pub count: u32,
    pub first: Send,
    pub second: Send,
}

// The words of a rule's row.
pub const MODE: usize = 0;

pub const KIND: usize = 1;

const NEXT: usize = 2;

pub const EFFECT: usize = 3;

const NUMBER: usize = 4;

pub const SENDS: usize = 5;

pub const FIRST: usize = 6;

pub const SECOND: usize = 11;

fn effect_of(tag: u32, number: u32) -> Effect
    ensures { result ≡ effect_of tag number }
{
    match tag {
        0 => Effect::Keep,
        1 => Effect::Set(number),
        2 => Effect::Add(number),
        _ => Effect::AddRead,
    }
}

fn value_of(tag: u32, number: u32) -> Value
    ensures { result ≡ value_of tag number }
{
    match tag {
        0 => Value::Fixed(number),
        1 => Value::Tally,
        _ => Value::Read,
    }
}

// The send in the five words from `at`.
fn send_at(row: RuleRow, at: usize) -> Send
    requires { at ≤ 11 }
    ensures { result ≡ send_at row at }
{
    Send {
        receiver: row[at],
        delay: row[at + 1],
        kind: row[at + 2],
        value: value_of(row[at + 3], row[at + 4]),
    }
}

// The rule that a row says.
pub fn decode(row: RuleRow) -> Decoded
    ensures { result ≡ decoded row }
{
    Decoded {
        mode: row[MODE],
        kind: row[KIND],
        next: row[NEXT],
        effect: effect_of(row[EFFECT], row[NUMBER]),
        count: row[SENDS],
        first: send_at(row, FIRST),
        second: send_at(row, SECOND),
    }
}

// The tag of an effect and its number.
fn effect_words(effect: Effect) -> (u32, u32)
    ensures { result ≡ (effect_tag effect, effect_number effect) }
{
    match effect {
        Effect::Keep => (0, 0),
        Effect::Set(number) => (1, number),
        Effect::Add(number) => (2, number),
        Effect::AddRead => (3, 0),
    }
}

// The tag of a value and its number.
fn value_words(value: Value) -> (u32, u32)
    ensures { result ≡ (value_tag value, value_number value) }
{
    match value {
        Value::Fixed(number) => (0, number),
        Value::Tally => (1, 0),
        Value::Read => (2, 0),
    }
}

// The row of a rule, 0 where an effect or a value has no number.
pub fn encode(rule: Decoded) -> RuleRow
    ensures { result ≡ encoded rule }
{
    let Decoded { first, second, .. } = rule;
    let (tag, number) = effect_words(rule.effect);
    let (first_tag, first_number) = value_words(first.value);
    let (second_tag, second_number) = value_words(second.value);
    [
        rule.mode,
        rule.kind,
        rule.next,
        tag,
        number,
        rule.count,
        first.receiver,
        first.delay,
        first.kind,
        first_tag,
        first_number,
        second.receiver,
        second.delay,
        second.kind,
        second_tag,
        second_number,
    ]
}

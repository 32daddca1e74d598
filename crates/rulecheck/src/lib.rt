// Whether rows in lent memory hold an accepted model: their shape (specs/Rows.antt of the crate `rule`), then every range and order that document
// 01 asks of a model. A call that is handed rows of any other kind refuses them by 16. Each test that fails leaves at once.
#![tactic(auto)]

ghost use Rattle.std.specs.Prelude.{◌≡◌, ◌&&◌, ◌≤◌, length, take};
ghost use Rattle.definition.specs.Lists.{all, compare, is_less};
ghost use Rattle.definition.specs.Model.{ok_effect, ok_value, ok_send, ok_rule};
ghost use Rattle.rule.specs.Rows.{rule_of, shaped_tag, shaped_rule, lawful_model};
ghost use Rattle.rulecheck.specs.Check.{ok_row, row_key, ok_rows, ok_process};

use definition::lent::{RuleRow, Rules};
use definition::numbers::{HIGHEST_KIND, HIGHEST_MODE, LARGEST, PROCESSES};
use definition::{Effect, Send, Value};
use rule::{Decoded, EFFECT, FIRST, KIND, MODE, SECOND, SENDS};

fn ok_effect(effect: Effect) -> bool
    ensures { result ≡ ok_effect effect }
{
    match effect {
        Effect::Set(number) | Effect::Add(number) => number <= LARGEST,
        Effect::Keep | Effect::AddRead => true,
    }
}

fn ok_value(value: Value) -> bool
    ensures { result ≡ ok_value value }
{
    match value {
        Value::Fixed(number) => number <= LARGEST,
        Value::Tally | Value::Read => true,
    }
}

fn ok_send(send: Send, processes: u32) -> bool
    ensures { result ≡ ok_send processes send }
{
    send.receiver < processes
        && 1 <= send.delay
        && send.delay <= 65535
        && send.kind <= HIGHEST_KIND
        && ok_value(send.value)
}

// None, one or two sends.
fn ok_sends(rule: Decoded, processes: u32) -> bool
    ensures { result ≡ all (ok_send processes) (rule_of rule).sends }
{
    [rule.first, rule.second]
        .iter()
        .take(rule.count as usize)
        .all(|send| ok_send(*send, processes))
}

#[tactic(auto, unfolding(definition::specs::Model::ok_rule))]
fn ok_rule(rule: Decoded, processes: u32) -> bool
    ensures { result ≡ ok_rule processes (rule_of rule) }
{
    rule.mode <= HIGHEST_MODE
        && rule.kind <= HIGHEST_KIND
        && rule.next <= HIGHEST_MODE
        && ok_effect(rule.effect)
        && ok_sends(rule, processes)
}

// The tag of a value is one of three, or the rule has no send of this number and the word says nothing.
fn is_tag(tag: u32, sends: u32, number: u32) -> bool
    ensures { result ≡ shaped_tag tag sends number }
{
    tag <= 2 || sends < number
}

// Counts and tags: a rule's effect, its send count and the values of its sends are among those that there are.
fn shaped(row: RuleRow) -> bool
    ensures { result ≡ shaped_rule row }
{
    row[EFFECT] <= 3
        && row[SENDS] <= 2
        && is_tag(row[FIRST + 3], row[SENDS], 1)
        && is_tag(row[SECOND + 3], row[SENDS], 2)
}

fn ok_row(row: RuleRow, processes: u32) -> bool
    ensures { result ≡ ok_row processes row }
{
    shaped(row) && ok_rule(rule::decode(row), processes)
}

// "Rules of a process strictly ascend by mode, then kind."
fn before(a: &RuleRow, b: &RuleRow) -> bool
    ensures { result ≡ is_less (compare row_key a.now b.now) }
{
    (a[MODE], a[KIND]) < (b[MODE], b[KIND])
}

// A rule stands after the one before it, and is right.
fn follows(former: &RuleRow, row: &RuleRow, processes: u32) -> bool
    ensures { result ≡ (is_less (compare row_key former.now row.now) && ok_row processes row.now) }
{
    before(former, row) && ok_row(*row, processes)
}

// Each rule is right, and stands before the next. One pass leaves at the first that is not.
fn ok_rules(rules: &[RuleRow], processes: u32) -> bool
    ensures { result ≡ ok_rows processes rules.now }
{
    if rules.is_empty() {
        return true;
    }
    ok_row(rules[0], processes) && rules.is_sorted_by(|former, row| follows(former, row, processes))
}

// One process: as many rows as there must be, its first stand, its rules.
#[tactic(auto, using(crate::proofs::Steps::process_cases))]
fn ok_process(rows: &[RuleRow], processes: u32) -> bool
    ensures { result ≡ ok_process processes rows.now }
{
    let first = table::first(rows);
    rows.len() == 65
        && table::count(rows) <= 64
        && first.mode <= HIGHEST_MODE
        && first.tally <= LARGEST
        && ok_rules(table::rules(rows), processes)
}

// Each of so many processes.
fn ok_processes(model: &[Rules], processes: u32) -> bool
    requires { processes ≤ length model.now }
    ensures { result ≡ all (ok_process processes) (take processes model.now) }
{
    model[..processes as usize]
        .iter()
        .all(|rows| ok_process(rows, processes))
}

// Whether the rows hold an accepted model.
#[tactic(auto, using(crate::proofs::Steps::lawful_cases))]
pub fn lawful(model: &[Rules]) -> bool
    ensures { result ≡ lawful_model model.now }
{
    let count = table::processes(model);
    model.len() == PROCESSES
        && 1 <= count
        && count as usize <= PROCESSES
        && ok_processes(model, count)
}

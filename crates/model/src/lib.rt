// The reader of models. Each reader below answers how many things it read with the place of the next number, or the first fault from the left, which
// leaves at once. A model is read twice by the same functions: over no rows, which judges it and writes nothing, and, once it is accepted, over the
// rows that are lent.
#![tactic(auto)]

ghost use Rattle.std.specs.Prelude.{◌≡◌, ◌-◌, length, set};
ghost use Rattle.definition.specs.ModelBytes.{rules_at, setup_at, setups_at, model_in};
ghost use Rattle.definition.specs.Model.{Setup};
ghost use Rattle.model.specs.Stored.{puts, put_rule, put_setup, put_process, put_model, Reads, headed, has_room, told, Promise};

use definition::lent::{RuleRow, Rules};
use definition::numbers::{HIGHEST_MODE, LARGEST, PROCESSES};
use definition::refusal::{Fault, Refusal};
use field::field;

// A row put into its place, where there is one. Tried with `get_mut`: of the elements behind it a proof knows nothing.
fn put(rows: &mut [RuleRow], place: usize, row: RuleRow)
    ensures { rows.new ≡ set rows.old place row }
{
    if place < rows.len() {
        rows[place] = row;
    }
}

// The rules of a process, each put into its row: the first into row 1.
fn rules_at(
    bytes: &[u8],
    highest: u32,
    count: u32,
    at: usize,
    rows: &mut [RuleRow],
) -> Result<(u32, usize), Fault>
    ensures { Reads length (puts put_rule 0) (rules_at bytes.now highest 0 0 count at) rows.old rows.new result }
{
    let mut mode = 0;
    let mut kind = 0;
    let mut next = at;
    for place in 0..count as usize {
        let (rule, after) = rulebytes::rule_at(bytes, highest, mode, kind, next)?;
        put(rows, place + 1, rule::encode(rule));
        mode = rule.mode;
        kind = rule.kind + 1;
        next = after;
    }
    Ok((count, next))
}

// The first row of a process.
fn heading(rules: u32, mode: u32, tally: u32, processes: u32) -> RuleRow
    ensures { result ≡ headed rules mode tally processes }
{
    [
        rules, mode, tally, processes, 0, 0, 0, 0, 0, 0, 0, 0, 0, 0, 0, 0,
    ]
}

// One process of so many: its first mode and tally, and its rules.
#[tactic(auto, unfolding(definition::specs::ModelBytes::setup_at))]
fn setup_at(
    bytes: &[u8],
    processes: u32,
    at: usize,
    rows: &mut [RuleRow],
) -> Result<(u32, usize), Fault>
    ensures { Reads (λ (u : Setup). length u.rules) (put_setup processes) (setup_at bytes.now (processes - 1) at) rows.old rows.new result }
{
    let (mode, next) = field(bytes, 0, HIGHEST_MODE, at)?;
    let (tally, next) = field(bytes, 0, LARGEST, next)?;
    let (count, next) = field(bytes, 0, 64, next)?;
    let (rules, next) = rules_at(bytes, processes.saturating_sub(1), count, next, rows)?;
    put(rows, 0, heading(rules, mode, tally, processes));
    Ok((rules, next))
}

// The same, put into its place of the model, where there is one.
fn process_at(
    bytes: &[u8],
    processes: u32,
    at: usize,
    model: &mut [Rules],
    place: usize,
) -> Result<(u32, usize), Fault>
    ensures { Reads (λ (u : Setup). length u.rules) (put_process processes place) (setup_at bytes.now (processes - 1) at) model.old model.new result }
{
    if place < model.len() {
        setup_at(bytes, processes, at, &mut model[place])
    } else {
        setup_at(bytes, processes, at, &mut [])
    }
}

// So many processes, one after another.
fn processes_at(
    bytes: &[u8],
    processes: u32,
    at: usize,
    model: &mut [Rules],
) -> Result<(u32, usize), Fault>
    ensures { Reads length (puts (put_process processes) 0) (setups_at bytes.now (processes - 1) processes at) model.old model.new result }
{
    let mut next = at;
    for place in 0..processes as usize {
        (_, next) = process_at(bytes, processes, next, model, place)?;
    }
    Ok((processes, next))
}

// A whole model, and nothing after it.
#[tactic(auto, unfolding(definition::specs::ModelBytes::model_in))]
fn model_at(bytes: &[u8], model: &mut [Rules]) -> Result<(u32, usize), Fault>
    ensures { Reads length put_model (model_in bytes.now) model.old model.new result }
{
    let (processes, next) = field(bytes, 1, 8, 0)?;
    let (processes, next) = processes_at(bytes, processes, next, model)?;
    if next < bytes.len() {
        return Err(Fault {
            refusal: Refusal::Trailing,
            at: next,
        });
    }
    Ok((processes, next))
}

// There are eight processes; that each has 65 rows is said by its type.
#[tactic(auto, using(crate::proofs::Promise::all_full), unfolding(crate::specs::Stored::has_room))]
pub fn has_room(model: &[Rules]) -> bool
    ensures { result ≡ has_room model.now }
{
    model.len() == PROCESSES
}

// The model in bytes, put into the rows, and how many processes it has; or its first fault from the left, and the rows are as they were. Rows that
// are not those of eight processes are refused by BadState at 0.
#[tactic(auto, unfolding(crate::specs::Stored::model_for))]
pub fn read(bytes: &[u8], model: &mut [Rules]) -> Result<u32, Fault>
    ensures { Promise bytes.now model.old model.new (told result) }
{
    if !has_room(model) {
        return Err(Fault {
            refusal: Refusal::BadState,
            at: 0,
        });
    }
    model_at(bytes, &mut [])?;
    let (processes, _) = model_at(bytes, model).unwrap();
    Ok(processes)
}

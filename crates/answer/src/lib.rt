// Reading one message is finding its rule and applying it. A process that is not in the model has no rule, and with no rule nothing changes.
#![tactic(auto)]

ghost use Rattle.std.specs.Prelude.{◌≡◌};
ghost use Rattle.definition.specs.Model.{find as first_rule, setup};
ghost use Rattle.rule.specs.Rows.{model_of, stand_after};
ghost use Rattle.answer.specs.Search.{found_for};

use definition::Stand;
use definition::lent::Rules;
use rule::Decoded;

// The rule of a process for a mode and a kind: none for a process not in the model.
pub fn find(model: &[Rules], process: usize, mode: u32, kind: u32) -> Option<Decoded>
    ensures { result ≡ found_for model.now process mode kind }
{
    if table::processes(model) as usize <= process {
        return None;
    }
    let rows = model.get(process)?;
    found::find_among(table::rules(rows), mode, kind)
}

// Where a process stands after one message. With no rule for it nothing changes.
pub fn apply(model: &[Rules], process: usize, stand: Stand, kind: u32, value: u32) -> Stand
    ensures { result ≡ stand_after (first_rule (setup (model_of model.now) process).rules stand.mode kind) stand value }
{
    find(model, process, stand.mode, kind).map_or(stand, |rule| effect::after(rule, stand, value))
}

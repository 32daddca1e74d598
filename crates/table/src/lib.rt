// A model in lent memory: how many processes it has, where each stands at first, and which rows are its rules (specs/Rows.antt of the crate `rule`
// says what the words are). Every function takes any memory: rows that are not there say 0, and counts past the rows end with them.
#![tactic(auto)]

ghost use Rattle.std.specs.Prelude.{◌≡◌, ◌<◌};
ghost use Rattle.rule.specs.Rows.{heading, rule_rows, setup_of, processes_of};

use definition::Stand;
use definition::lent::{RuleRow, Rules};

// The words of a process's first row.
const RULES: usize = 0;

const FIRST_MODE: usize = 1;

const FIRST_TALLY: usize = 2;

const PROCESSES: usize = 3;

// A word of a process's first row.
fn heading_word(rows: &[RuleRow], word: usize) -> u32
    requires { word < 16 }
    ensures { result ≡ heading rows.now word }
{
    rows.first().map_or(0, |row| row[word])
}

// The process count.
pub fn processes(model: &[Rules]) -> u32
    ensures { result ≡ processes_of model.now }
{
    model
        .first()
        .map_or(0, |rows| heading_word(rows, PROCESSES))
}

// How many rules a process says it has.
pub fn count(rows: &[RuleRow]) -> u32
    ensures { result ≡ heading rows.now 0 }
{
    heading_word(rows, RULES)
}

// Where a process stands at first.
pub fn first(rows: &[RuleRow]) -> Stand
    ensures { result ≡ (setup_of rows.now).first }
{
    Stand {
        mode: heading_word(rows, FIRST_MODE),
        tally: heading_word(rows, FIRST_TALLY),
    }
}

// The rows of a process that are its rules.
pub fn rules(rows: &[RuleRow]) -> &[RuleRow]
    ensures { result.now ≡ rule_rows rows.now }
{
    match rows.split_first() {
        Some((_, rest)) => &rest[..rest.len().min(count(rows) as usize)],
        None => rows,
    }
}

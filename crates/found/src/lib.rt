// The rule that a message finds among the rules of a process: rows of lent memory, searched from the first, of which only the one that answers is
// decoded.
#![tactic(auto)]

ghost use Rattle.std.specs.Prelude.{◌≡◌};
ghost use Rattle.found.specs.Search.{found_among};

use definition::lent::RuleRow;
use rule::{Decoded, KIND, MODE};

// The rule for a mode and a kind among the rules of a process, where there is one.
pub fn find_among(rules: &[RuleRow], mode: u32, kind: u32) -> Option<Decoded>
    ensures { result ≡ found_among rules.now mode kind }
{
    rules
        .iter()
        .find(|row| row[MODE] == mode && row[KIND] == kind)
        .map(|row| rule::decode(*row))
}

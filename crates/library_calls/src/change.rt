// The changes that a statement makes of a lawful memory. A place outside the lists is a fault of the table, and is said.
ghost use Rattle.std.specs.Prelude.{◌≤◌, ◌<◌, length, IfOk, OnErr};

use crate::say;
use definition::lent::{Row, RuleRow, Rules};
use std::io;

// A number up to a limit. Another is a fault of the table, and 0 stands for it.
pub fn at_most(rt: &impl Print, number: usize, limit: usize) -> io::Result<usize>
    ensures within { IfOk result (λ place. place ≤ limit) }
    ensures failed { OnErr result (limit < number) }
{
    if number <= limit {
        return Ok(number);
    }
    say::bad(rt)?;
    Ok(0)
}

// A list by its place.
pub fn list<'a, T>(rt: &impl Print, lists: &'a mut [T], at: u32) -> io::Result<&'a mut T>
    requires { 0 < length lists.old }
{
    let at = at_most(rt, at as usize, lists.len() - 1)?;
    Ok(&mut lists[at])
}

// A word of a list of rows; printed where it has no other value.
pub fn word(
    rt: &impl Print,
    rows: &mut [Row],
    row: u32,
    word: u32,
    value: Option<u32>,
) -> io::Result<()> {
    let word = at_most(rt, word as usize, 7)?;
    match (rows.get_mut(row as usize), value) {
        (None, _) => say::bad(rt),
        (Some(row), None) => say::then(rt, row[word]),
        (Some(row), Some(value)) => {
            row[word] = value;
            Ok(())
        }
    }
}

// All rows from one on: each is the one before it with a word one more.
pub fn rows(rt: &impl Print, rows: &mut [Row], from: u32, word: u32) -> io::Result<()> {
    let word = at_most(rt, word as usize, 7)?;
    let from = from as usize;
    if rows.len() <= from {
        return say::bad(rt);
    }
    let (before, rest) = rows.split_at_mut(from);
    if let Some(last) = before.last() {
        let mut row = *last;
        for next in rest {
            row[word] = row[word].wrapping_add(1);
            *next = row;
        }
    }
    Ok(())
}

// The rules for all modes and kinds, by number: each leaves the tally as it is, sends nothing and leads to mode 0.
fn rule_of(number: u32) -> RuleRow {
    let mut rule = [0; 16];
    rule[0] = number / 8;
    rule[1] = number % 8;
    rule
}

// These rules, from the second row on.
pub fn rules(rows: &mut Rules) {
    for (number, row) in (0..64).zip(&mut rows[1..]) {
        *row = rule_of(number);
    }
}

// A word of a list of rules.
pub fn rule(rt: &impl Print, rows: &mut Rules, row: u32, word: u32, value: u32) -> io::Result<()> {
    let row = at_most(rt, row as usize, 64)?;
    let word = at_most(rt, word as usize, 15)?;
    rows[row][word] = value;
    Ok(())
}

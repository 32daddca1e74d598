// The statements of the table: a verb and up to five numbers. The table begins with the verbs, each on a line with how many numbers it has and the
// names of its fields; a verb is the number of its line, and a name stands for its place.
use crate::words::{decimal, find, find_line, word};
use definition::numbers::NEVER;

// What the lines of the table's head stand for, in their order. The first two are a title, which does nothing.
#[derive(Clone, Copy, PartialEq, Eq, PartialOrd, Ord)]
pub enum Verb {
    Title,
    Mail,
    Mails,
    Input,
    Inputs,
    Output,
    Outputs,
    Event,
    Events,
    Process,
    Whole,
    Rule,
    Model,
    Rules,
    Step,
    Lowest,
    Bytes,
    Call(Call),
}

// A fresh start is one that is not printed.
#[derive(Clone, Copy, PartialEq, Eq, PartialOrd, Ord)]
pub enum Call {
    Fresh,
    Start,
    Inject,
    Deliver,
    Execute,
    Advance,
}

// A statement that cannot be read.
#[derive(Clone, Copy)]
pub struct Unreadable;

impl TryFrom<usize> for Verb {
    type Error = Unreadable;

    fn try_from(line: usize) -> Result<Verb, Unreadable> {
        match line {
            0 | 1 => Ok(Verb::Title),
            2 => Ok(Verb::Mail),
            3 => Ok(Verb::Mails),
            4 => Ok(Verb::Input),
            5 => Ok(Verb::Inputs),
            6 => Ok(Verb::Output),
            7 => Ok(Verb::Outputs),
            8 => Ok(Verb::Event),
            9 => Ok(Verb::Events),
            10 => Ok(Verb::Process),
            11 => Ok(Verb::Whole),
            12 => Ok(Verb::Rule),
            13 => Ok(Verb::Model),
            14 => Ok(Verb::Rules),
            15 => Ok(Verb::Step),
            16 => Ok(Verb::Lowest),
            17 => Ok(Verb::Bytes),
            18 => Ok(Verb::Call(Call::Fresh)),
            19 => Ok(Verb::Call(Call::Start)),
            20 => Ok(Verb::Call(Call::Inject)),
            21 => Ok(Verb::Call(Call::Deliver)),
            22 => Ok(Verb::Call(Call::Execute)),
            23 => Ok(Verb::Call(Call::Advance)),
            _ => Err(Unreadable),
        }
    }
}

#[derive(Clone, Copy)]
pub struct Statement {
    pub verb: Verb,
    // A number that is not there is 0.
    pub numbers: [u32; 5],
    is_whole: bool,
}

impl Statement {
    // A value, which is the last number of its verb, where the statement does not lack it.
    pub fn value(self, number: u32) -> Option<u32> {
        self.is_whole.then_some(number)
    }
}

// A number, "never", or the name of a field.
fn number(fields: &[u8], word: &[u8]) -> Option<u32> {
    if word == b"never".as_slice() {
        return Some(NEVER);
    }
    decimal(word).or_else(|| u32::try_from(find(fields, word)?).ok())
}

// Whether a verb has all its numbers here, or all but the last, which the verbs up to `Whole` may lack.
fn is_whole(verb: Verb, arity: Option<u32>, numbers: &[Option<u32>]) -> Result<bool, Unreadable> {
    let Some(arity) = arity else {
        // Where the head does not say how many there are, the last one is to be a word that is no number.
        return match numbers.last() {
            Some(None) => Ok(true),
            _ => Err(Unreadable),
        };
    };
    if numbers.contains(&None) {
        return Err(Unreadable);
    }
    match (arity as usize).checked_sub(numbers.len()) {
        Some(0) => Ok(true),
        Some(1) if verb <= Verb::Whole => Ok(false),
        _ => Err(Unreadable),
    }
}

// The statement of a verb's name and the words after it. Empty words are none.
fn statement_of(table: &[u8], name: &[u8], words: [&[u8]; 5]) -> Result<Statement, Unreadable> {
    let (line, after) = find_line(table, name).ok_or(Unreadable)?;
    let verb = Verb::try_from(line)?;
    let (arity, fields) = word(after, b" ");
    let count = words.iter().take_while(|word| !word.is_empty()).count();
    let numbers = words.map(|word| number(fields, word));
    Ok(Statement {
        verb,
        numbers: numbers.map(|number| number.unwrap_or(0)),
        is_whole: is_whole(verb, decimal(arity), &numbers[..count])?,
    })
}

// The statement that follows a place, if the line does not end there, and what follows it.
pub fn read<'a>(table: &[u8], text: &'a [u8]) -> (Option<Result<Statement, Unreadable>>, &'a [u8]) {
    let (name, rest) = word(text, b" |");
    if name.is_empty() {
        return (None, rest);
    }
    let (a, rest) = word(rest, b" ");
    let (b, rest) = word(rest, b" ");
    let (c, rest) = word(rest, b" ");
    let (d, rest) = word(rest, b" ");
    let (e, rest) = word(rest, b" ");
    (Some(statement_of(table, name, [a, b, c, d, e])), rest)
}

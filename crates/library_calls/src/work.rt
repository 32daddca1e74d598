// The statements of a line worked on a memory, and what is printed of them: the answer to a call, whether lent memory and buffer were left as
// they were, a word, the buffer.
use crate::change::{at_most, list};
use crate::say::Manner;
use crate::statement::{Call, Statement, Verb};
use crate::{change, hosts, say, statement};
use definition::Answer;
use definition::lent::{Own, Queue, Row, Rules, WHOLE};
use definition::refusal::Refusal;
use std::io;

// What stands in the buffer before a call.
const BLANK: u8 = 170;

// An advance into the bytes of the buffer from one place to another.
fn advance(
    rt: &impl Print,
    model: &[Rules],
    inputs: &mut [Queue],
    outputs: &mut [Queue],
    transit: &[Row],
    own: &mut [Own],
    buffer: &mut [u8],
    [ceiling, from, end, _, _]: [u32; 5],
) -> io::Result<Result<Answer, Refusal>> {
    let end = at_most(rt, end as usize, buffer.len())?;
    let from = at_most(rt, from as usize, end)?;
    let bytes = &mut buffer[from..end];
    Ok(engine::advance(model, inputs, outputs, transit, own, ceiling, bytes))
}

// A call, and what is printed of it, which is nothing of a fresh start. The lists go one by one: the check covers no literal of a struct or a tuple
// that holds arrays of arrays.
fn call(
    rt: &impl Print,
    model: &[Rules; 8],
    inputs: &mut [Queue; 8],
    outputs: &mut [Queue; 8],
    transit: &mut [Row; 128],
    own: &mut [Own; 9],
    buffer: &mut [u8; 20],
    name: Call,
    numbers: [u32; 5],
    manner: Manner,
) -> io::Result<()> {
    let [a, b, c, d, e] = numbers;
    let inputs_before = *inputs;
    let outputs_before = *outputs;
    let transit_before = *transit;
    let own_before = *own;
    let buffer_before = *buffer;
    let answer = match name {
        Call::Fresh | Call::Start => engine::start(model, inputs, outputs, transit, own),
        Call::Inject => engine::inject(model, inputs, outputs, transit, own, a, b, c, d, e),
        Call::Deliver => engine::deliver(model, inputs, outputs, transit, own, a),
        Call::Execute => engine::execute(model, inputs, outputs, transit, own, a),
        Call::Advance => advance(rt, model, inputs, outputs, transit, own, buffer, numbers)?,
    };
    if name == Call::Fresh {
        return Ok(());
    }
    let kept = inputs_before == *inputs
        && outputs_before == *outputs
        && transit_before == *transit
        && own_before == *own
        && buffer_before == *buffer;
    say::answer(rt, answer, kept, manner)
}

// A statement, and what is printed of it.
fn one(
    rt: &impl Print,
    model: &mut [Rules; 8],
    inputs: &mut [Queue; 8],
    outputs: &mut [Queue; 8],
    transit: &mut [Row; 128],
    own: &mut [Own; 9],
    buffer: &mut [u8; 20],
    statement: Statement,
    manner: Manner,
) -> io::Result<()> {
    let [a, b, c, d, _] = statement.numbers;
    match statement.verb {
        Verb::Title => Ok(()),
        Verb::Mail => change::word(rt, transit, a, b, statement.value(c)),
        Verb::Mails => change::rows(rt, transit, a, b),
        Verb::Input => change::word(rt, list(rt, inputs, a)?, b, c, statement.value(d)),
        Verb::Inputs => change::rows(rt, list(rt, inputs, a)?, b, c),
        Verb::Output => change::word(rt, list(rt, outputs, a)?, b, c, statement.value(d)),
        Verb::Outputs => change::rows(rt, list(rt, outputs, a)?, b, c),
        Verb::Event => change::word(rt, list(rt, own, a)?, b, c, statement.value(d)),
        Verb::Events => change::rows(rt, list(rt, own, a)?, b, c),
        Verb::Process => change::word(rt, list(rt, own, a)?, 0, b, statement.value(c)),
        Verb::Whole => change::word(rt, &mut own[WHOLE], 0, a, statement.value(b)),
        Verb::Rule => change::rule(rt, list(rt, model, a)?, b, c, d),
        Verb::Model => change::rule(rt, list(rt, model, a)?, 0, b, c),
        Verb::Rules => {
            change::rules(list(rt, model, a)?);
            Ok(())
        }
        Verb::Step => hosts::step(rt, model, a, b, c),
        Verb::Lowest => hosts::lowest(rt, a, [b, c, d]),
        Verb::Bytes => say::bytes(rt, buffer),
        Verb::Call(name) => call(
            rt,
            model,
            inputs,
            outputs,
            transit,
            own,
            buffer,
            name,
            statement.numbers,
            manner,
        ),
    }
}

// The model, in house numbers.
const MODEL: &[u8] =
    b"\x02\x00\x00\x02\x00\x01\x00\x02\x01\x01\x01\x03\x02\x01\x01\x01\x01\x00\x02\x01\xFF\xFF\x03\x07\x00\x05\x00\x01\x00\x02\x00\x00\x01\x00\x02\x00\x03\x00";

// A state has fewer statements.
const MOST_STATEMENTS: u32 = 101;

// The statements of two lines, the first worked silently and the second not, and then one call at a third place, all on a memory of their own.
// Answers the place after that call.
pub fn work<'a>(
    rt: &impl Print,
    table: &[u8],
    first: &'a [u8],
    line: &'a [u8],
    call: &'a [u8],
) -> io::Result<&'a [u8]> {
    let mut model = [[[0u32; 16]; 65]; 8];
    let mut inputs = [[[0u32; 8]; 64]; 8];
    let mut outputs = [[[0u32; 8]; 64]; 8];
    let mut transit = [[0u32; 8]; 128];
    let mut own = [[[0u32; 8]; 33]; 9];
    let mut buffer = [BLANK; 20];
    let _ = model::read(MODEL, &mut model);
    let mut text = first;
    let mut manner = Manner::Silent;
    for _ in 0..MOST_STATEMENTS {
        let (statement, rest) = statement::read(table, text);
        match statement {
            None => (),
            Some(Err(_)) => say::bad(rt)?,
            Some(Ok(statement)) => one(
                rt,
                &mut model,
                &mut inputs,
                &mut outputs,
                &mut transit,
                &mut own,
                &mut buffer,
                statement,
                manner,
            )?,
        }
        if manner == Manner::Short {
            return Ok(rest);
        }
        (text, manner) = match (statement, manner) {
            (Some(_), _) => (rest, manner),
            (None, Manner::Silent) => (line, Manner::Whole),
            (None, _) => (call, Manner::Short),
        };
    }
    Ok(text)
}

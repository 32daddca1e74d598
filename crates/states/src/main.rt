// Many rehearsals in one process, with the whole state as lists after every turn, for comparison from outside (second/compare). Standard input is
// a stream of run files, each preceded by its length in four bytes, low byte first. The turns are those of `rehearsal`. What is printed here has no
// contract: it is what is compared.
#![tactic(auto)]

ghost use Rattle.std.specs.Prelude.{◌≡◌, ◌≤◌, length, IfOk};
ghost use Rattle.rehearsal.specs.Moving.{Moves, next_of};
ghost use Rattle.rehearsal.specs.Promise.{progress};

mod page;

use definition::lent::{Own, Queue, Row, Rules, WHOLE};
use definition::refusal::Refusal;
use memory::{ENTRIES, EVENTS, HORIZON, Lent, MAILS, MODE, NEXT, OUTPUTS, RECORDED, TALLY};
use page::Page;
use rehearsal::Printed;
use std::io;
use std::io::Read;

// A stream has no more files than this.
const FILES: u32 = 1000000;

// The first rows of a list, a line each, and so many of their words.
fn lines(
    out: &mut Page<'_, impl Print>,
    name: &[u8],
    rows: &[Row],
    count: u32,
    words: usize,
) -> io::Result<()>
    requires { words ≤ 8 }
{
    for row in rows.iter().take(count as usize) {
        out.line(name, &row[..words])?;
    }
    Ok(())
}

// A process: its base, its queues and its history, by the numbers of its first row.
fn process(
    out: &mut Page<'_, impl Print>,
    place: u32,
    inputs: &[Row],
    outputs: &[Row],
    own: &Own,
) -> io::Result<()> {
    let numbers = own[0];
    out.line(b"process", &[place, numbers[MODE], numbers[TALLY]])?;
    lines(out, b"input", inputs, numbers[ENTRIES], 8)?;
    lines(out, b"output", outputs, numbers[OUTPUTS], 7)?;
    lines(out, b"history", &own[1..], numbers[EVENTS], 4)
}

// The whole state.
fn state(
    out: &mut Page<'_, impl Print>,
    model: &[Rules],
    inputs: &[Queue],
    outputs: &[Queue],
    transit: &[Row],
    own: &[Own; 9],
) -> io::Result<()> {
    let numbers = own[WHOLE][0];
    out.line(
        b"state",
        &[numbers[HORIZON], numbers[NEXT], numbers[RECORDED]],
    )?;
    lines(out, b"transit", transit, numbers[MAILS], 8)?;
    let places = 0..table::processes(model);
    for (((place, inputs), outputs), own) in places.zip(inputs).zip(outputs).zip(own) {
        process(out, place, inputs, outputs, own)?;
    }
    Ok(())
}

// Prints what a turn printed, and gives the place of the next call; or the end of the input, where the turn was refused.
fn tell(
    out: &mut Page<'_, impl Print>,
    turn: Result<Printed, Refusal>,
    text: &[u8],
    input: usize,
) -> io::Result<usize>
    requires { Moves (progress turn) (length text.now) input }
    ensures { IfOk result (λ next. next ≡ next_of (progress turn) input) }
{
    let Ok(Printed { end, next }) = turn else {
        out.text(b"refused\n")?;
        return Ok(input);
    };
    out.text(&text[..end])?;
    Ok(next)
}

// A whole rehearsal: what each turn prints, and the state after it.
fn rehearse(
    out: &mut Page<'_, impl Print>,
    bytes: &[u8],
    model: &mut [Rules; 8],
    inputs: &mut [Queue; 8],
    outputs: &mut [Queue; 8],
    transit: &mut [Row; 128],
    own: &mut [Own; 9],
    text: &mut [u8],
) -> io::Result<()> {
    let first = rehearsal::begin(bytes, model, inputs, outputs, transit, own, text);
    let mut at = tell(out, first, text, bytes.len())?;
    // Without this line no state has begun.
    if text.starts_with(b"model ok") {
        state(out, model, inputs, outputs, transit, own)?;
    }
    while at < bytes.len() {
        let mut m = Lent {
            model,
            inputs,
            outputs,
            transit,
            own,
        };
        let turn = rehearsal::step(bytes, at, &mut m, text);
        at = tell(out, turn, text, bytes.len())?;
        state(out, model, inputs, outputs, transit, own)?;
    }
    Ok(())
}

// Reads until these bytes are full or the stream has ended, and gives how many it read. Each program has this loop: std's `read_exact` fails where the
// stream is shorter, and its `read_to_end` allocates.
fn fill(stream: &mut impl Read, bytes: &mut [u8]) -> io::Result<usize>
    ensures { IfOk result (λ count. count ≤ length bytes.new) }
{
    let mut done = 0;
    while done < bytes.len() {
        let count = stream.read(&mut bytes[done..])?;
        if count == 0 {
            return Ok(done);
        }
        done += count;
    }
    Ok(done)
}

// Reads the next run file, if the stream has one that is not too long.
fn read<'a>(stream: &mut impl Read, input: &'a mut [u8]) -> io::Result<Option<&'a [u8]>> {
    let mut head = [0; 4];
    if fill(stream, &mut head)? < 4 {
        return Ok(None);
    }
    match input.get_mut(..u32::from_le_bytes(head) as usize) {
        None => Ok(None),
        Some(room) => {
            let count = fill(stream, room)?;
            Ok(Some(&room[..count]))
        }
    }
}

fn main(rt: HostRuntime) -> io::Result<()> {
    let mut input = [0u8; 65537];
    let mut model = [[[0u32; 16]; 65]; 8];
    let mut inputs = [[[0u32; 8]; 64]; 8];
    let mut outputs = [[[0u32; 8]; 64]; 8];
    let mut transit = [[0u32; 8]; 128];
    let mut own = [[[0u32; 8]; 33]; 9];
    let mut text = [0u8; rehearsal::LONGEST];
    let mut stream = rt.stdin();
    let mut out = Page::new(&rt);
    for number in 0..FILES {
        let Some(bytes) = read(&mut stream, &mut input)? else {
            break;
        };
        out.line(b"rehearsal", &[number])?;
        rehearse(
            &mut out,
            bytes,
            &mut model,
            &mut inputs,
            &mut outputs,
            &mut transit,
            &mut own,
            &mut text,
        )?;
        out.flush()?;
    }
    Ok(())
}

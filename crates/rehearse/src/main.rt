// The program: one rehearsal, from standard input to standard output. It only moves bytes: what is printed is settled by `rehearsal`, one turn after
// another, so that output of any length goes out in parts. Of this loop `all_printed` (crate `rehearsal`, specs/Whole.antt) says what it prints.
#![tactic(auto)]

ghost use Rattle.std.specs.Prelude.{◌≡◌, ◌≤◌, false, length, take, IfOk, OnOk, OnErr};
ghost use Rattle.std.specs.Io.KnownBytes.{Appends};
ghost use Rattle.std.specs.Counts.{IsPrefixLen};
ghost use Rattle.rehearsal.specs.Moving.{end_of, next_of, GoesOn};
ghost use Rattle.rehearsal.specs.Promise.{is_refusal, progress};

use definition::refusal::Refusal;
use memory::Lent;
use rehearsal::Printed;
use std::io;
use std::io::{Read, Write};

// Reads until no room is left or the input ends, and gives how many bytes stand at the start. Each program has this loop: std's `read_exact` fails where
// the input is shorter, and its `read_to_end` allocates.
fn read(input: &mut impl Read, bytes: &mut [u8]) -> io::Result<usize>
    ensures { IfOk result (λ count. IsPrefixLen count bytes.new) }
{
    let mut count = 0;
    while count < bytes.len() {
        let more = input.read(&mut bytes[count..])?;
        if more == 0 {
            break;
        }
        count += more;
    }
    Ok(count)
}

// Writes what a turn printed, and gives the place of the next call; or the end of the input, where the turn was refused. It is an error where nothing
// can be written.
fn put<W: Write>(
    out: &mut W,
    turn: Result<Printed, Refusal>,
    text: &[u8],
    input: usize,
) -> io::Result<usize>
    requires { end_of (progress turn) ≤ length text.now }
    ensures goes_on { IfOk result (λ next. GoesOn (progress turn) input next) }
    ensures onward { IfOk result (λ next. next ≡ next_of (progress turn) input) }
    ensures written { OnOk result (Appends (W.contents out.old) (W.contents out.new) (take (end_of (progress turn)) text.now)) }
    ensures failed { OnErr result (is_refusal (progress turn) ≡ false) }
{
    let Ok(Printed { end, next }) = turn else {
        return Ok(input);
    };
    out.write_all(&text[..end])?;
    Ok(next)
}

// All turns, in a memory of their own.
fn rehearse<W: Write>(out: &mut W, bytes: &[u8]) -> io::Result<()> {
    let mut model = [[[0u32; 16]; 65]; 8];
    let mut inputs = [[[0u32; 8]; 64]; 8];
    let mut outputs = [[[0u32; 8]; 64]; 8];
    let mut transit = [[0u32; 8]; 128];
    let mut own = [[[0u32; 8]; 33]; 9];
    let mut text = [0u8; rehearsal::LONGEST];
    let first = rehearsal::begin(
        bytes, &mut model, &inputs, &outputs, &transit, &mut own, &mut text,
    );
    let mut at = put(out, first, &text, bytes.len())?;
    let mut m = Lent {
        model: &model,
        inputs: &mut inputs,
        outputs: &mut outputs,
        transit: &mut transit,
        own: &mut own,
    };
    while at < bytes.len() {
        let turn = rehearsal::step(bytes, at, &mut m, &mut text);
        at = put(out, turn, &text, bytes.len())?;
    }
    Ok(())
}

fn main(rt: HostRuntime) -> io::Result<()> {
    let mut input = [0u8; 65537];
    let length = read(&mut rt.stdin(), &mut input)?;
    rehearse(&mut rt.stdout(), &input[..length])
}

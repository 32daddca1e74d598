// A test: works every run file of data/ through the turns of `rehearsal` and compares what is printed, byte for byte, with what must be. `names`
// lists the run files, a name to a line; NAME.run is the run file, NAME.out what it must print, and NAME.txt says why. The first that differs is
// named, and ends the test.
#![tactic(auto)]

ghost use Rattle.std.specs.Prelude.{◌≡◌, ◌≤◌, length, IfOk, IfSome};
ghost use Rattle.std.specs.Counts.{IsPrefixLen};
ghost use Rattle.rehearsal.specs.Moving.{Moves, next_of};
ghost use Rattle.rehearsal.specs.Promise.{progress};

use definition::refusal::Refusal;
use memory::Lent;
use rehearsal::Printed;
use std::fs::File;
use std::io::Read;
use std::rt::Files;
use std::{io, str};

// A wanted text has fewer bytes: one that fills so many may go on, and counts as different.
const WANTED_LENGTH: usize = 16384;

// The file of this name and ending, as far as a path has room, opened for reading; none where it cannot be.
fn open<R: Files>(rt: &R, name: &[u8], ending: &[u8]) -> Option<R::File> {
    let mut path = [0u8; 256];
    for (place, byte) in path.iter_mut().zip(name.iter().chain(ending)) {
        *place = *byte;
    }
    let length = path.len().min(name.len() + ending.len());
    let path = str::from_utf8(&path[..length]).ok()?;
    File::open(rt, path).ok()
}

// Reads an open file until no room is left or it ends, and closes it: how many bytes it has. Each program has this loop: std's `read_exact` fails where
// the file is shorter, and its `read_to_end` allocates.
fn read(mut file: impl Read + Drop, bytes: &mut [u8]) -> io::Result<usize>
    ensures { IfOk result (λ size. IsPrefixLen size bytes.new) }
{
    let mut size = 0;
    while size < bytes.len() {
        let more = file.read(&mut bytes[size..])?;
        if more == 0 {
            break;
        }
        size += more;
    }
    Ok(size)
}

// The place of the next call, and what is left of the wanted text; none where the turn did not print what comes next of it.
fn compare<'a>(
    turn: Result<Printed, Refusal>,
    text: &[u8],
    wanted: &'a [u8],
    input: usize,
) -> Option<(usize, &'a [u8])>
    requires { Moves (progress turn) (length text.now) input }
    ensures { IfSome result (λ left. left.0 ≡ next_of (progress turn) input) }
{
    let Printed { end, next } = turn.ok()?;
    Some((next, wanted.strip_prefix(&text[..end])?))
}

// Works a run file in a memory of its own, and gives what is left of the wanted text; none where a turn differs from it.
fn rehearse<'a>(bytes: &[u8], wanted: &'a [u8]) -> Option<&'a [u8]> {
    let mut model = [[[0u32; 16]; 65]; 8];
    let mut inputs = [[[0u32; 8]; 64]; 8];
    let mut outputs = [[[0u32; 8]; 64]; 8];
    let mut transit = [[0u32; 8]; 128];
    let mut own = [[[0u32; 8]; 33]; 9];
    let mut text = [0u8; rehearsal::LONGEST];
    let first = rehearsal::begin(
        bytes, &mut model, &inputs, &outputs, &transit, &mut own, &mut text,
    );
    let (mut at, mut left) = compare(first, &text, wanted, bytes.len())?;
    let mut m = Lent {
        model: &model,
        inputs: &mut inputs,
        outputs: &mut outputs,
        transit: &mut transit,
        own: &mut own,
    };
    while at < bytes.len() {
        let turn = rehearsal::step(bytes, at, &mut m, &mut text);
        (at, left) = compare(turn, &text, left, bytes.len())?;
    }
    Some(left)
}

// Says what is wrong with a run file.
fn fail(rt: &impl Print, name: &[u8], fault: &[u8]) -> io::Result<()> {
    rt.write_all(name)?;
    rt.write_all(fault)
}

// The run file of this name prints what it must; one that does not, or that cannot be read, is named.
fn passes(rt: &(impl Files + Print), name: &[u8]) -> io::Result<bool> {
    let (Some(run), Some(out)) = (open(rt, name, b".run"), open(rt, name, b".out")) else {
        fail(rt, name, b" cannot be read\n")?;
        return Ok(false);
    };
    let mut input = [0u8; 65537];
    let length = read(run, &mut input)?;
    let mut wanted = [0u8; WANTED_LENGTH];
    let size = read(out, &mut wanted)?;
    let left = rehearse(&input[..length], &wanted[..size]);
    if size == WANTED_LENGTH || left.is_none_or(|left| !left.is_empty()) {
        fail(rt, name, b" differs\n")?;
        return Ok(false);
    }
    Ok(true)
}

// All run files, counted; the first that does not pass ends the test.
fn work(rt: &(impl Files + Print), names: &[u8]) -> io::Result<()> {
    let is_end = |byte: &u8| *byte == b'\n';
    for line in names.split_inclusive(is_end) {
        if !passes(rt, line.strip_suffix(b"\n").unwrap_or(line))? {
            return Ok(());
        }
    }
    let count = names.split_inclusive(is_end).count();
    println!(rt; "{count} run files as they must be")
}

fn main(rt: HostRuntime) -> io::Result<()> {
    let Ok(file) = File::open(&rt, "names") else {
        return fail(&rt, b"names", b" cannot be read\n");
    };
    let mut names = [0u8; 4096];
    let length = read(file, &mut names)?;
    work(&rt, &names[..length])
}

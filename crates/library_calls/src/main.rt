// Library calls on states that no run file can lead to. Standard input is a table of them: each line has the name of a state, the words that are
// changed of a lawful memory, and the calls; what they answer is printed after the name. The file `stdout` holds what document 01 says of each.
#![tactic(auto)]

ghost use Rattle.std.specs.Prelude.{◌≤◌, length, IfOk};

use std::io;
use std::io::Read;

mod change;
mod hosts;
mod listing;
mod say;
mod statement;
mod words;
mod work;

// Reads until these bytes are full or the input has ended, and gives how many it read. Each program has this loop: std's `read_exact` fails where the
// input is shorter, and its `read_to_end` allocates.
fn fill(input: &mut impl Read, bytes: &mut [u8]) -> io::Result<usize>
    ensures { IfOk result (λ count. count ≤ length bytes.new) }
{
    let mut done = 0;
    while done < bytes.len() {
        let count = input.read(&mut bytes[done..])?;
        if count == 0 {
            return Ok(done);
        }
        done += count;
    }
    Ok(done)
}

fn main(rt: HostRuntime) -> io::Result<()> {
    let mut text = [0u8; 65536];
    let mut input = rt.stdin();
    let length = fill(&mut input, &mut text)?;
    listing::all(&rt, &text[..length])
}

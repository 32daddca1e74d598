// Numbers of the house: read at a place of the input, written at a place of a buffer, and how many bytes they take. What they are is said in
// `definition`; nothing is asked of a caller.
#![tactic(auto)]

ghost use Rattle.std.specs.Prelude.{◌≡◌, length};
ghost use Rattle.definition.specs.House.{number_at, house};
ghost use Rattle.definition.specs.Answer.{number_in};
ghost use Rattle.house.specs.Promise.{Writes};

use definition::refusal::Refusal;

// A group is a number below this; a byte from this on says that another group follows.
const GROUP: u32 = 128;

// So many groups may follow the first.
const MORE_GROUPS: usize = 4;

// The last of them is below this.
const LAST_GROUPS: u32 = 16;

// The number at a place with the place of the next one, or its fault: Cut, Overlong or TooBig. `value` is the sum of the groups so far, `weight` that
// of the next one, and `more` may follow it.
pub fn read(bytes: &[u8], at: usize) -> Result<(u32, usize), Refusal>
    ensures { number_in result ≡ number_at bytes.now at }
{
    let mut more = MORE_GROUPS;
    let mut weight: u32 = 1;
    let mut value: u32 = 0;
    for next in at..bytes.len() {
        let byte = u32::from(bytes[next]);
        if more == 0 && LAST_GROUPS <= byte {
            return Err(Refusal::TooBig);
        }
        if byte < GROUP {
            if 1 < weight && byte == 0 {
                return Err(Refusal::Overlong);
            }
            return Ok((value + weight * byte, next + 1));
        }
        value += weight * (byte % GROUP);
        weight *= GROUP;
        more -= 1;
    }
    Err(Refusal::Cut)
}

// How many bytes a number takes. Here and in `write` a loop goes on while the number has groups left: there is no list to go over.
pub fn length(number: u32) -> usize
    ensures { result ≡ length (house number) }
{
    let mut rest = number;
    let mut size: usize = 1;
    while GROUP <= rest {
        rest /= GROUP;
        size += 1;
    }
    size
}

// Writes a number at a place, if it fits, and gives the place of the next one.
pub fn write(number: u32, buffer: &mut [u8], at: usize) -> Result<usize, Refusal>
    ensures { Writes (house number) buffer.old at result buffer.new }
{
    if buffer.len() < at {
        return Err(Refusal::ShortBuffer);
    }
    if buffer.len() - at < length(number) {
        return Err(Refusal::ShortBuffer);
    }
    let mut rest = number;
    let mut next = at;
    while GROUP <= rest {
        buffer[next] = (rest % GROUP + GROUP) as u8;
        rest /= GROUP;
        next += 1;
    }
    buffer[next] = rest as u8;
    Ok(next + 1)
}

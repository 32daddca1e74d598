// The call Inject, on a memory that is lawful: the request is judged before anything is written. The lists come one by one, for the reason that
// `memory::Lent` tells.
#![tactic(auto)]

ghost use Rattle.std.specs.Prelude.{◌≡◌, ◌≤◌, get_or};
ghost use Rattle.definition.specs.Answer.{answer_of};
ghost use Rattle.definition.specs.declared.Call.TheVariants.{Inject};
ghost use Rattle.memory.specs.Memory.{held};
ghost use Rattle.memory.specs.Promise.{Ready, Kept};
ghost use Rattle.inject.specs.Request.{told, refusal, with_request};

use definition::lent::{Own, Queue, Row, Rules, WHOLE};
use definition::numbers::{HIGHEST_KIND, LAST_REQUEST, NEVER, OUTSIDE, TRANSIT};
use definition::refusal::Refusal;
use definition::{Answer, Time};
use memory::{HORIZON, MAILS, NEXT, RECORDED};

// What refuses the request, if anything does.
fn judge(
    whole: Row,
    processes: u32,
    number: u32,
    receiver: u32,
    time: Time,
    kind: u32,
) -> Result<(), Refusal>
    ensures { told result ≡ refusal whole processes number receiver time kind }
{
    if processes <= receiver
        || HIGHEST_KIND < kind
        || time == 0
        || NEVER <= time
        || LAST_REQUEST < number
    {
        return Err(Refusal::BadArgument);
    }
    if number < whole[NEXT] {
        return Err(Refusal::AlreadyHave);
    }
    if whole[NEXT] < number {
        return Err(Refusal::Gap);
    }
    if time < whole[HORIZON] {
        return Err(Refusal::TooLate);
    }
    if TRANSIT <= whole[MAILS] as usize {
        return Err(Refusal::NoRoom);
    }
    Ok(())
}

// The numbers of the whole with one more in transit and this request's number spent.
fn with_request(whole: Row, number: u32) -> Row
    requires { (get_or whole 0 0 ≤ 127) × (number ≤ 999999999) }
    ensures { result ≡ with_request whole number }
{
    [
        whole[MAILS] + 1,
        whole[HORIZON],
        number + 1,
        whole[RECORDED],
        0,
        0,
        0,
        0,
    ]
}

// A request joins the end of transit, and the next number rises by one.
pub fn inject(
    model: &[Rules],
    inputs: &[Queue],
    outputs: &[Queue],
    transit: &mut [Row],
    own: &mut [Own],
    number: u32,
    receiver: u32,
    time: Time,
    kind: u32,
    value: u32,
) -> Result<Answer, Refusal>
    requires { Ready (held model.now inputs.now outputs.now transit.old own.old) }
    ensures { Kept (held model.now inputs.now outputs.now transit.old own.old) (Inject number receiver time kind value) (answer_of result) (held model.now inputs.now outputs.now transit.new own.new) }
{
    let whole = own[WHOLE][0];
    judge(whole, table::processes(model), number, receiver, time, kind)?;
    let request = queue::rows::message(OUTSIDE, 0, number, receiver, time, kind, value);
    queue::transit::append(transit, whole[MAILS] as usize, request);
    own[WHOLE][0] = with_request(whole, number);
    Ok(Answer::Injected)
}

// Messages in transit: rows in the order in which they joined it, the last word 0 for an antimessage and 1 for a message.
ghost use Rattle.std.specs.Prelude.{◌≡◌, [], ◌∷◌, ◌++◌, map, ◌+◌, ◌-◌, ◌≤◌, ◌<◌, length};
ghost use Rattle.definition.specs.State.{plus, minus, without};
ghost use Rattle.definition.specs.Calls.{least_mail};
ghost use Rattle.queue.specs.Rows.{message_of, mail_of, mails};

use crate::rows;
use crate::rows::{LAST, RECEIVED};
use definition::Time;
use definition::lent::Row;
use definition::numbers::NEVER;

// The last word of a row: its sign.
const SIGN: usize = LAST;

// Two words of a lent row, which a host in C reads too, and so numbers.
const ANTIMESSAGE: u32 = 0;

const MESSAGE: u32 = 1;

// The row is an antimessage.
pub fn is_anti(e: Row) -> bool
    ensures { result ≡ (mail_of e).anti }
{
    e[SIGN] == ANTIMESSAGE
}

// The message of m joins the end.
pub fn append(tr: &mut [Row], n: usize, m: Row)
    requires { n < length tr.old }
    ensures { mails tr.new (n + 1) ≡ mails tr.old n ++ (plus (message_of m) ∷ []) }
{
    rows::put(tr, n, m, MESSAGE);
}

// The antimessages of these rows of an output queue join the end, in their order.
pub fn cancel(tr: &mut [Row], n: usize, cancelled: &[Row])
    requires { n + length cancelled.now ≤ length tr.old }
    ensures { mails tr.new (n + length cancelled.now) ≡ mails tr.old n ++ map minus (map message_of cancelled.now) }
{
    for (j, m) in cancelled.iter().enumerate() {
        rows::put(tr, n + j, *m, ANTIMESSAGE);
    }
}

// The one at place i leaves; those after it move down.
pub fn remove(tr: &mut [Row], n: usize, i: usize)
    requires { (i < n) × (n ≤ length tr.old) }
    ensures { mails tr.new (n - 1) ≡ without i (mails tr.old n) }
{
    rows::remove(tr, n, i);
}

// A delivery: the one at place i leaves, and then the antimessages of these rows of an output queue join the end.
pub fn exchange(tr: &mut [Row], n: usize, i: usize, cancelled: &[Row])
    requires place { (i < n) × (n ≤ length tr.old) }
    requires room { n - 1 + length cancelled.now ≤ length tr.old }
    ensures { mails tr.new (n - 1 + length cancelled.now) ≡ without i (mails tr.old n) ++ map minus (map message_of cancelled.now) }
{
    remove(tr, n, i);
    cancel(tr, n - 1, cancelled);
}

// The least receive time, of messages and antimessages, or "never".
pub fn least(tr: &[Row]) -> Time
    ensures { result ≡ least_mail (map mail_of tr.now) }
{
    tr.iter().map(|e| e[RECEIVED]).min().unwrap_or(NEVER)
}

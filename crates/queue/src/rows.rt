// One row and its words, rows that move within their memory, and where a time cuts them in two.
ghost use Rattle.std.specs.Prelude.{◌≡◌, [], ◌∷◌, ◌++◌, ◌+◌, ◌-◌, ◌≤◌, ◌<◌, length, take, drop};
ghost use Rattle.definition.specs.State.{by_order};
ghost use Rattle.queue.specs.Rows.{message_of, message_from, with_last};
ghost use Rattle.queue.specs.Queues.{reading_order, Cut};

use definition::Time;
use definition::lent::Row;
use std::cmp::Ordering;

// The words of a row: a message in the reading order, and one word more.
pub const RECEIVED: usize = 0;

pub const SENT: usize = 1;

pub const SENDER: usize = 2;

pub const ORDINAL: usize = 3;

pub const KIND: usize = 4;

pub const VALUE: usize = 5;

pub const RECEIVER: usize = 6;

pub const LAST: usize = 7;

// A message as a row, the last word 0.
pub fn message(
    sender: u32,
    sent: Time,
    ordinal: u32,
    receiver: u32,
    received: Time,
    kind: u32,
    value: u32,
) -> Row
    ensures { message_of result ≡ message_from sender sent ordinal receiver received kind value }
{
    [received, sent, sender, ordinal, kind, value, receiver, 0]
}

// The row e with another last word.
pub fn with_last(e: Row, w: u32) -> Row
    ensures { result ≡ with_last e w }
{
    let [received, sent, sender, ordinal, kind, value, receiver, _] = e;
    [received, sent, sender, ordinal, kind, value, receiver, w]
}

// How the message of a stands to that of b in the reading order: by the first of the seven words that differs. The slices' own `cmp` passes over long
// equal runs first, and takes twice as long where the first word decides.
pub fn compare(a: Row, b: Row) -> Ordering
    ensures { result ≡ by_order (reading_order a b) Ordering.Less Ordering.Equal Ordering.Greater }
{
    for k in 0..LAST {
        let order = a[k].cmp(&b[k]);
        if order.is_ne() {
            return order;
        }
    }
    Ordering::Equal
}

// The last place in the rows where a word passes t: in the row before it the word is below t, in the row at it not. Where the word does not
// fall from row to row, so many rows are below t.
pub fn below(q: &[Row], word: usize, t: Time) -> usize
    requires { word < 8 }
    ensures { Cut word q.now t result }
{
    q.iter().rposition(|e| e[word] < t).map_or(0, |i| i + 1)
}

// The row e with the last word w, after the first n rows.
pub fn put(q: &mut [Row], n: usize, e: Row, w: u32)
    requires { n < length q.old }
    ensures { take (n + 1) q.new ≡ take n q.old ++ (with_last e w ∷ []) }
{
    q[n] = with_last(e, w);
}

// The row e at place i of n rows; those from i on move up.
#[tactic(auto, using(laws::specs::Moves::inserted))]
pub(crate) fn insert(q: &mut [Row], n: usize, i: usize, e: Row)
    requires { (i ≤ n) × (n < length q.old) }
    ensures { take (n + 1) q.new ≡ take i (take n q.old) ++ e ∷ drop i (take n q.old) }
{
    q.copy_within(i..n, i + 1);
    q[i] = e;
}

// Row i of n leaves; those after it move down.
pub(crate) fn remove(q: &mut [Row], n: usize, i: usize)
    requires { (i < n) × (n ≤ length q.old) }
    ensures { take (n - 1) q.new ≡ take i (take n q.old) ++ drop (i + 1) (take n q.old) }
{
    q.copy_within(i + 1..n, i);
}

// The first k of n rows leave; the others move to the front. So each queue drops what its own search has found to be before a time.
#[tactic(auto, using(laws::specs::Moves::shifted))]
pub(crate) fn drop_front(q: &mut [Row], n: usize, k: usize)
    requires { (k ≤ n) × (n ≤ length q.old) }
    ensures { take (n - k) q.new ≡ drop k (take n q.old) }
{
    q.copy_within(k..n, 0);
}

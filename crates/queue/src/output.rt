// The output queue of one process: rows by send time, then ordinal. What a rollback cancels, and what an advance drops, is a part of it that
// `sent_before` finds, so that cutting back is a new count and writes nothing.
ghost use Rattle.std.specs.Prelude.{◌≡◌, true, [], ◌∷◌, ◌++◌, ◌+◌, ◌≤◌, ◌<◌, map, length};
ghost use Rattle.definition.specs.Lists.{in_order};
ghost use Rattle.definition.specs.Message.{output_key};
ghost use Rattle.definition.specs.State.{sent_from};
ghost use Rattle.queue.specs.Rows.{message_of, messages};
ghost use Rattle.queue.specs.Queues.{sent_at, Holds, Parted};

use crate::rows;
use crate::rows::SENT;
use definition::Time;
use definition::lent::Row;

// How many of the rows were sent before t. A rollback to t keeps these and cancels the others.
pub fn sent_before(o: &[Row], t: Time) -> usize
    requires { in_order output_key (map message_of o.now) ≡ true }
    ensures { Parted message_of sent_at o.now t result }
{
    rows::below(o, SENT, t)
}

// The message of m joins the end.
pub fn append(o: &mut [Row], n: usize, m: Row)
    requires { n < length o.old }
    ensures { messages o.new (n + 1) ≡ messages o.old n ++ (message_of m ∷ []) }
{
    rows::put(o, n, m, 0);
}

// Entries sent before t are dropped: the others move down. The answer is how many rows the queue has now. What it shares with the input queue's is
// `rows::drop_front`; which rows go is another search there.
pub fn drop_before(o: &mut [Row], n: usize, t: Time) -> usize
    requires fits { n ≤ length o.old }
    requires order { in_order output_key (messages o.old n) ≡ true }
    ensures { Holds (messages o.new) result (sent_from t (messages o.old n)) }
{
    let k = sent_before(&o[..n], t);
    rows::drop_front(o, n, k);
    n - k
}

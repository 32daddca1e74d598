// The input queue of one process: rows in the reading order, each a message and its net count + 256.
// An arrival writes the row at its place and moves only the rows after it, by one: up where it is new, down where its count becomes 0. Its place is
// looked for from the end, where what is yet to come stands; what an event reads from the front, since an advance drops what was read.
ghost use Rattle.std.specs.Prelude.{◌≡◌, true, cond, ◌-◌, ◌≤◌, ◌<◌, leb, eqb, map, length};
ghost use Rattle.std.specs.Bool.{then_some};
ghost use Rattle.definition.specs.Lists.{keep, in_order};
ghost use Rattle.definition.specs.State.{Entry, entry_key, counted, unread_after};
ghost use Rattle.definition.specs.BadState.{ok_net, ok_nets};
ghost use Rattle.queue.specs.Rows.{message_of, net_of, entry_of, entries};
ghost use Rattle.queue.specs.Queues.{received_at, Holds, Placed, Found, Parted, Judged, is_read, is_unread, count_at, moved, recounted, added};

use crate::rows;
use crate::rows::{LAST, RECEIVED};
use definition::Time;
use definition::lent::Row;
use definition::numbers::NEVER;

// The last word of a row: its net count + 256.
pub const COUNT: usize = LAST;

// The words of a net count of 0, which no row has, of -129 and of 129.
pub const ZERO: u32 = 256;

pub const LOWEST: u32 = 127;

pub const HIGHEST: u32 = 385;

// A net count + 256 after one more arrival.
fn step(c: u32, anti: bool) -> u32
    requires { (1 ≤ c) × (c < 512) }
    ensures { result ≡ moved anti c }
{
    if anti { c - 1 } else { c + 1 }
}

// How many of n entries there are where one of them has the count c, or None where that passes 129 or -129.
fn rows_with(n: usize, c: u32) -> Option<usize>
    requires { 0 < n }
    ensures { result ≡ cond (eqb c 256) (Some (n - 1)) (then_some (ok_net (net_of c)) n) }
{
    if c == ZERO {
        return Some(n - 1);
    }
    (LOWEST..=HIGHEST).contains(&c).then_some(n)
}

// An event at time t reads this row.
#[tactic(auto, using(crate::proofs::Nets::net_positive))]
pub fn is_read(e: Row, t: Time) -> bool
    ensures { result ≡ is_read t (entry_of e) }
{
    e[RECEIVED] == t && ZERO < e[COUNT]
}

// The entry of this row is unread after a time.
#[tactic(auto, using(crate::proofs::Nets::net_positive))]
fn is_unread(e: &Row, after: Time) -> bool
    ensures { result ≡ is_unread after (entry_of e.now) }
{
    after < e[RECEIVED] && ZERO < e[COUNT]
}

// The rows of an input queue, in the reading order.
#[derive(Clone, Copy)]
pub struct Entries<'a> {
    rows: &'a [Row],
    ghost order: { in_order entry_key (map entry_of rows.now) ≡ true },
}

impl<'a> Entries<'a> {
    // These rows.
    pub fn new(rows: &'a [Row]) -> Self
        requires { in_order entry_key (map entry_of rows.now) ≡ true }
        ensures { result.rows.now ≡ rows.now }
    {
        Entries { rows }
    }

    // How many of the rows are read before m.
    fn place(&self, m: Row) -> usize
        ensures { Placed self.now.rows.now m result }
    {
        self.rows
            .iter()
            .rposition(|e| rows::compare(m, *e).is_gt())
            .map_or(0, |i| i + 1)
    }

    // The entry that the message of m has, or else the place where it is new: as the library's `binary_search` answers.
    #[tactic(auto, using(crate::proofs::Arrivals::found_again, crate::proofs::Arrivals::found_between, crate::proofs::Arrivals::found_last))]
    fn find(&self, m: Row) -> Result<usize, usize>
        ensures { Found self.now.rows.now m result }
    {
        let q = self.rows;
        let i = self.place(m);
        if i < q.len() && rows::compare(m, q[i]).is_eq() {
            Ok(i)
        } else {
            Err(i)
        }
    }

    // An arrival judged before it is made: how many rows there would be, or None where a net count would pass 129 or -129. Nothing is written.
    pub fn judge(&self, m: Row, anti: bool) -> Option<usize>
        requires { ok_nets (map entry_of self.now.rows.now) ≡ true }
        ensures { Judged (length self.now.rows.now) (counted anti (message_of m) (map entry_of self.now.rows.now)) result }
    {
        let q = self.rows;
        match self.find(m) {
            Ok(i) => rows_with(q.len(), step(q[i][COUNT], anti)),
            Err(_) => Some(q.len() + 1),
        }
    }

    // How many rows were received before t: the place of the first row that an event at t may read.
    pub fn received_before(&self, t: Time) -> usize
        ensures { Parted entry_of received_at self.now.rows.now t result }
    {
        self.rows.iter().take_while(|e| e[RECEIVED] < t).count()
    }

    // The unread time after a time.
    pub fn unread(&self, after: Time) -> Time
        ensures { result ≡ unread_after after (map entry_of self.now.rows.now) }
    {
        self.rows
            .iter()
            .find(|e| is_unread(e, after))
            .map_or(NEVER, |e| e[RECEIVED])
    }
}

// Entry i is counted once more. The answer is how many rows the queue has now.
fn recount(q: &mut [Row], n: usize, i: usize, anti: bool) -> usize
    requires fits { n ≤ length q.old }
    requires place { i < n }
    requires bound { (1 ≤ count_at q.old i) × (count_at q.old i < 512) }
    ensures { Holds (entries q.new) result (recounted anti i (entries q.old n)) }
{
    let e = q[i];
    let count = step(e[COUNT], anti);
    if count == ZERO {
        rows::remove(q, n, i);
        return n - 1;
    }
    q[i] = rows::with_last(e, count);
    n
}

// A new entry at place i.
fn add(q: &mut [Row], n: usize, i: usize, m: Row, anti: bool) -> usize
    requires room { n < length q.old }
    requires place { i ≤ n }
    ensures { Holds (entries q.new) result (added anti i (message_of m) (entries q.old n)) }
{
    let e = rows::with_last(m, step(ZERO, anti));
    rows::insert(q, n, i, e);
    n + 1
}

// One arrival of the message of m, or of its antimessage, is counted. The answer is how many rows the queue has now.
pub fn count(q: &mut [Row], n: usize, m: Row, anti: bool) -> usize
    requires fits { n ≤ length q.old }
    requires order { in_order entry_key (entries q.old n) ≡ true }
    requires nets { ok_nets (entries q.old n) ≡ true }
    requires room { length (counted anti (message_of m) (entries q.old n)) ≤ length q.old }
    ensures { Holds (entries q.new) result (counted anti (message_of m) (entries q.old n)) }
{
    match Entries::new(&q[..n]).find(m) {
        Ok(i) => recount(q, n, i, anti),
        Err(i) => add(q, n, i, m, anti),
    }
}

// Entries received before t are dropped: the others move down. The answer is how many rows the queue has now.
pub fn drop_before(q: &mut [Row], n: usize, t: Time) -> usize
    requires fits { n ≤ length q.old }
    requires order { in_order entry_key (entries q.old n) ≡ true }
    ensures { Holds (entries q.new) result (keep (λ (e : Entry). leb t e.message.received) (entries q.old n)) }
{
    let k = Entries::new(&q[..n]).received_before(t);
    rows::drop_front(q, n, k);
    n - k
}

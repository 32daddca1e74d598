// The rows of one event, walked twice: to say what it comes to, and to carry it out. The first walk counts what it reads and sends and writes nothing;
// the second puts each message into an outbox, that is in transit and in the output queue. Both go from row to row by `read`, so that what is counted
// is what is sent. One loop for both would need a sink that counts or writes, and would build rows only to count them.
#![tactic(auto)]

ghost use Rattle.std.specs.Prelude.{◌≡◌, [], ◌∷◌, ◌+◌, ◌≤◌, leb, length};
ghost use Rattle.definition.specs.Message.{last_usable};
ghost use Rattle.definition.specs.Model.{send_all};
ghost use Rattle.queue.specs.Rows.{message_of};
ghost use Rattle.rule.specs.Rows.{rule_of};
ghost use Rattle.event.specs.Event.{Counted, RoomFor, Joined, SameRows, Within, start_at, read_of, done_from, RowRead, RowSends, Readable, event_of, ComesTo};

use definition::lent::{Row, RuleRow};
use definition::numbers::LAST_USABLE;
use definition::{Send, Stand, Time};
use queue::rows::{KIND, RECEIVED, VALUE};
use rule::Decoded;

// How far an event has come: where the process stands, the next ordinal, how many messages were read and how many sent.
#[derive(Clone, Copy)]
pub struct Walk {
    pub stand: Stand,
    pub ordinal: u32,
    pub read: usize,
    pub sent: usize,
}

// A send is sent at a time, unless it would be received after the last usable time.
fn is_sent(send: Send, time: Time) -> bool
    ensures { result ≡ leb (time + send.delay) last_usable }
{
    time.saturating_add(send.delay) <= LAST_USABLE
}

// How many messages a send sends.
fn sent_by(send: Send, time: Time) -> usize
    ensures { Counted time (send ∷ []) result }
{
    if is_sent(send, time) { 1 } else { 0 }
}

// How many messages a rule sends. Here and in `send_all` its count is looked at before its sends are: as an array alone, both would be read with each
// message, and an event of many messages that send nothing would take three fifths more instructions.
fn sends(rule: Decoded, time: Time) -> usize
    ensures { Counted time (rule_of rule).sends result }
{
    if rule.count == 0 {
        return 0;
    }
    let first = sent_by(rule.first, time);
    if rule.count == 1 {
        return first;
    }
    first + sent_by(rule.second, time)
}

// How many ordinals a rule uses: one for each send, sent or not.
fn ordinals(rule: Decoded) -> u32
    ensures { result ≡ length (rule_of rule).sends }
{
    rule.count.min(2)
}

// A row of the input queue, and the rule that answers it, where one does. A row of another time, or with a count below 1, is passed over; a message
// that no rule answers is read, and nothing else changes. As a call, with what it answers in memory, it makes a fifth of the time of an event.
#[inline(always)]
fn read(rules: &[RuleRow], time: Time, row: Row, w: Walk) -> (Walk, Option<Decoded>)
    requires { Within 64 w }
    ensures row_read { RowRead rules.now time row w result.0 }
    ensures row_sends { RowSends rules.now time row w result.0 result.1 }
{
    if !queue::input::is_read(row, time) {
        return (w, None);
    }
    let read = w.read + 1;
    match found::find_among(rules, w.stand.mode, row[KIND]) {
        Some(rule) => {
            let next = Walk {
                stand: effect::after(rule, w.stand, row[VALUE]),
                ordinal: w.ordinal + ordinals(rule),
                read,
                sent: w.sent + sends(rule, time),
            };
            (next, Some(rule))
        }
        None => (Walk { read, ..w }, None),
    }
}

// Where an event begins.
fn start(stand: Stand) -> Walk
    ensures { result ≡ start_at stand }
{
    Walk {
        stand,
        ordinal: 0,
        read: 0,
        sent: 0,
    }
}

// What the event at a time comes to, by the rows that it may read, whichever the process: nothing is written.
pub fn outcome(rules: &[RuleRow], rows: &[Row], time: Time, stand: Stand) -> Walk
    requires { Readable rows.now time }
    ensures { ComesTo rules.now rows.now time stand result }
{
    let mut w = start(stand);
    for row in rows {
        if time < row[RECEIVED] {
            return w;
        }
        w = read(rules, time, *row, w).0;
    }
    w
}

// Where the messages of an event go: the rows of transit, of which so many hold mails, and of an output queue, of which so many hold sends.
#[derive(Drop)]
pub struct Outbox<'a> {
    pub transit: &'a mut [Row],
    pub mails: usize,
    pub output: &'a mut [Row],
    pub sends: usize,
}

impl Outbox<'_> {
    // A message joins the end of both.
    fn send(&mut self, message: Row)
        requires { RoomFor (message_of message ∷ []) self.old }
        ensures joined { Joined (message_of message ∷ []) self.old self.new }
        ensures same_rows { SameRows self.new self.old }
    {
        queue::transit::append(self.transit, self.mails, message);
        queue::output::append(self.output, self.sends, message);
        self.mails += 1;
        self.sends += 1;
    }
}

// The message of a send joins both, if it is sent.
fn send(
    send: Send,
    process: u32,
    time: Time,
    ordinal: u32,
    tally: u32,
    value: u32,
    out: &mut Outbox,
)
    requires { RoomFor (send_all process time ordinal tally value (send ∷ [])) out.old }
    ensures joined { Joined (send_all process time ordinal tally value (send ∷ [])) out.old out.new }
    ensures same_rows { SameRows out.new out.old }
{
    if is_sent(send, time) {
        let told = effect::sent_value(send, tally, value);
        out.send(queue::rows::message(
            process,
            time,
            ordinal,
            send.receiver,
            time + send.delay,
            send.kind,
            told,
        ));
    }
}

// The messages of a rule join both, numbered from an ordinal on.
fn send_all(
    rule: Decoded,
    process: u32,
    time: Time,
    ordinal: u32,
    tally: u32,
    value: u32,
    out: &mut Outbox,
)
    requires ordinal_bound { ordinal ≤ 128 }
    requires room { RoomFor (send_all process time ordinal tally value (rule_of rule).sends) out.old }
    ensures joined { Joined (send_all process time ordinal tally value (rule_of rule).sends) out.old out.new }
    ensures same_rows { SameRows out.new out.old }
{
    if rule.count == 0 {
        return;
    }
    let both = [rule.first, rule.second];
    let sends = &both[..ordinals(rule) as usize];
    for (i, one) in sends.iter().enumerate() {
        send(*one, process, time, ordinal + i as u32, tally, value, out);
    }
}

// A row of the input queue is read, and what the rule that answers it sends joins both.
fn perform_row(
    rules: &[RuleRow],
    process: u32,
    time: Time,
    row: Row,
    w: Walk,
    out: &mut Outbox,
) -> Walk
    requires within { Within 64 w }
    requires room { RoomFor (done_from rules.now process time w (read_of time row)).sends out.old }
    ensures row_read { RowRead rules.now time row w result }
    ensures joined { Joined (done_from rules.now process time w (read_of time row)).sends out.old out.new }
    ensures same_rows { SameRows out.new out.old }
{
    let (next, rule) = read(rules, time, row, w);
    if let Some(rule) = rule {
        send_all(
            rule,
            process,
            time,
            w.ordinal,
            next.stand.tally,
            row[VALUE],
            out,
        );
    }
    next
}

// The event at a time, by the rows that it may read: all that it sends joins both.
pub fn perform(
    rules: &[RuleRow],
    rows: &[Row],
    process: u32,
    time: Time,
    stand: Stand,
    out: &mut Outbox,
)
    requires readable { Readable rows.now time }
    requires room { RoomFor (event_of rules.now rows.now process time stand).sends out.old }
    ensures joined { Joined (event_of rules.now rows.now process time stand).sends out.old out.new }
    ensures same_rows { SameRows out.new out.old }
{
    let mut w = start(stand);
    for row in rows {
        if time < row[RECEIVED] {
            return;
        }
        w = perform_row(rules, process, time, *row, w, out);
    }
}

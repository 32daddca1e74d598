// The memory that a caller lends: the types of its rows and of its lists' elements. What the words of a row say stands with the one function that takes it
// apart: a message in `queue::rows`, an event in `history`, the numbers of a process and of the whole in `memory`, a rule in `rule`.
use crate::numbers::{HISTORY, PROCESSES, QUEUE};

// A row of words.
pub type Word = u32;

pub const WIDTH: usize = 8;

pub type Row = [Word; WIDTH];

// The input queue of a process, or its output queue.
pub type Queue = [Row; QUEUE];

// A process's own rows: its numbers, and then its history. After the processes' stand those of the whole: its numbers are the first.
pub const OWN: usize = HISTORY + 1;

pub type Own = [Row; OWN];

pub const WHOLE: usize = PROCESSES;

pub const OWNERS: usize = WHOLE + 1;

// The rules of a process: its heading, and then a row a rule.
pub type RuleRow = [Word; 16];

pub type Rules = [RuleRow; 65];

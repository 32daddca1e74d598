// Queues of messages as rows of eight words in lent memory. Only the engine calls these functions: what they require it is proved to meet.
// Each does to the rows what `definition` says of the list that they say (specs/Rows.antt). Rows after a queue's count are free, and what
// stands there says nothing. A function that only reads takes the rows that count; one that writes takes the whole lent memory and the count, which
// stands in the process's own row.
#![tactic(auto)]

pub mod input;
pub mod output;
pub mod rows;
pub mod transit;

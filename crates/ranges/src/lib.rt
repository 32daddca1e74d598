// Whether rows are as document 01's BadState asks: every field in its range, every queue in strict order. One function tests one row, one walks
// the rows of a queue; each answers what `definition`'s test says of the things that the rows say.
// The process count and the horizon go through as two numbers, in the order in which `definition`'s tests take them.
#![tactic(auto)]

pub mod queues;
pub mod row;

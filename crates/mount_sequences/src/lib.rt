// A row of 32-bit numbers in a buffer: sorted, and searched by halves. A call names the table and how many numbers the row has, and no struct holds
// the two: the spare row of a sort and the marks of the filter lie in the same table, so each caller would take such a struct apart again.
#![tactic(auto)]

pub mod find;
pub mod sort;

// What the programs `cases`, `damaged` and `buffers` share: printing what was asked, what a call answered and what became of the words that it
// was lent; playing steps on a table; and the table that the ten rows leave. Its functions return, for any words; what they print is compared with
// the stored lines. A print that fails ends the function with that error: what was lent holds then what the steps up to there left.
#![tactic(auto)]

pub mod play;
pub mod rows;
pub mod show;

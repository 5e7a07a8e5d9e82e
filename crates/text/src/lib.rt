// Inside: what `replay` writes to standard output, gathered in the run of bytes that it works on.
//
// A `Page` is that run with the runtime that writes it. Text stands in the run from an index on: each
// call puts text behind what waits. Where a text would pass the run's end, what waits is written and
// the text starts anew; `flush` writes what waits, and the text goes on behind it, so that the last
// answer still stands there. Behind a write that failed nothing is written. Packets that are shown
// stand in the same run, somewhere before.
#![tactic(auto)]

mod answers;
mod classes;
mod hex;
mod page;
mod span;

pub use answers::{Answer, Word, also, both, classed, count, refusal, say, shown, whether};
pub use classes::class_of;
pub use page::{Page, START, complain};
pub use span::{Span, cut};

// The calls of document 01, and nothing else: what a program that loads cards needs to know of this library. None of
// them has a `requires`, so each takes every input there can be; their contracts stand where they are defined.
#![tactic(auto)]

// "The fresh card of a chip record."
pub use card_fresh::fresh;

// "One event", "a session", "a file's record, shown", "how many rows have been taken".
pub use call_play::play;
pub use call_run::run;
pub use call_shown::{part_shown, shown};
pub use row_sets::count;

// "The writer" and "the reader" of an order; and one pull at a place, for whoever keeps no reader.
pub use order_reader::{Reader, pull, pulled_at, value_pulled};
pub use order_writer::write;

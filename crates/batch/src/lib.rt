// Inside: calls that make many steps behind one test, for a state that was found sound. Each is a
// loop over a step of `sending`, `intake` or `polling`, and stops at the first that cannot be made.
//
// What such a call comes to is a row of single calls (`model`, specs/Batch.antt): the law there
// says once for all that a row of exact steps is the model's row and leaves a sound state.
#![tactic(auto)]

mod events;
mod feed;
mod first;
mod send;

pub use events::poll_for_events;
pub use feed::enqueue_packets;
pub use send::send_requests;

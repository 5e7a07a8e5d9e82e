// Inside: the packets that are held, as records in one lent store.
//
// Records lie side by side in the window [start, end) of the store in order of arrival, replies
// and events together, told apart by a kind byte. The list of replies and the list of events are
// the records of a kind, in order: where a record lies is nothing that a caller may count on. Room
// given back counts at once, so a packet finds room exactly where used and its cost fit the store.
// Nothing here knows a connection: the window goes in by value and comes back, and the last number
// read is handed in where it matters. (01, Rooms, and Numbering and filing.)
#![tactic(auto)]

mod counting;
mod find;
mod head;
mod moves;
mod soundness;

pub use counting::count;
pub use find::{find_event, find_reply};
pub use head::{HEADER, IN_EVENTS, IN_REPLIES, count_at, kind_at, length_at, number_at, record_at};
pub use moves::{Taken, append, behind, class_at, demote, remove, stays, take};
pub use soundness::{MOST_STORE, walk};

// Where the records are in the store; used is end - start. The store stays a parameter of its own: C
// lends it at each call, and the window is kept by value between calls.
#[derive(Clone, Copy)]
pub struct Window {
    pub start: usize,
    pub end: usize,
}

// What a record says of its packet: the number of its request, its count of descriptors and its
// kind. The kind stays a byte: `append` promises to hold a packet under each, and an enum would ask
// more of its callers.
#[derive(Clone, Copy)]
pub struct Label {
    pub number: u64,
    pub fds: u8,
    pub kind: u8,
}

// A record that was found: where it starts, the length of its packet, its number and its count of
// descriptors, and how many descriptors the replies before it have in all.
#[derive(Clone, Copy)]
pub struct Spot {
    pub at: usize,
    pub len: usize,
    pub number: u64,
    pub fds: u8,
    pub before: usize,
}

// How many replies have a number, and how many a higher one.
#[derive(Clone, Copy)]
pub struct Tally {
    pub own: usize,
    pub above: usize,
}

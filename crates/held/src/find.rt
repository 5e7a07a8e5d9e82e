// Where a record is: one pass from the oldest on.
ghost use Rattle.std.specs.Prelude.{◌≡◌, ◌+◌, ◌≤◌, length, drop, unwrap_or};
ghost use Rattle.std.specs.Option.{is_none};
ghost use Rattle.held.specs.Head.{header_size, kind_of, num_of};
ghost use Rattle.held.specs.Reading.{Readable};
ghost use Rattle.held.specs.Find.{suits, found, found_reply, found_event};

use crate::{Spot, Window, head};

// The oldest reply of a number.
pub fn find_reply(store: &[u8], window: Window, number: u64) -> Option<Spot>
    requires { Readable window store.now }
    ensures { result ≡ found_reply number window store.now }
{
    find(store, window, head::IN_REPLIES, Some(number))
}

// The oldest event.
pub fn find_event(store: &[u8], window: Window) -> Option<Spot>
    requires { Readable window store.now }
    ensures { result ≡ found_event window store.now }
{
    find(store, window, head::IN_EVENTS, None)
}

// Whether the record at an index is of the kind and, where one is asked for, of the number.
fn hits(store: &[u8], at: usize, kind: u8, number: Option<u64>) -> bool
    requires { at + header_size ≤ length store.now }
    ensures { result ≡ suits kind (is_none number) (unwrap_or number 0) (kind_of (drop at store.now)) (num_of (drop at store.now)) }
{
    if head::kind_at(store, at) != kind {
        return false;
    }
    match number {
        Some(wanted) => head::number_at(store, at) == wanted,
        None => true,
    }
}

fn find(store: &[u8], window: Window, kind: u8, number: Option<u64>) -> Option<Spot>
    requires { Readable window store.now }
    ensures { result ≡ found kind (is_none number) (unwrap_or number 0) window store.now }
{
    // A record says where the next one starts, which no range does, so the index is stepped by hand. An
    // iterator would step it in the same way, and the invariant be about what it has left: no plainer.
    let end = window.end;
    let mut at = window.start;
    let mut before: usize = 0;
    while at < end {
        let len = head::length_at(store, at);
        let fds = head::count_at(store, at);
        if hits(store, at, kind, number) {
            return Some(Spot {
                at,
                len,
                number: head::number_at(store, at),
                fds,
                before,
            });
        }
        before += fds as usize;
        at += head::HEADER + len;
    }
    None
}

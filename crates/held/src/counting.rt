// How many replies are held of a number, and of higher ones.
ghost use Rattle.std.specs.Prelude.{◌≡◌, ◌+◌, ◌≤◌, length, drop};
ghost use Rattle.held.specs.Head.{header_size, kind_of, num_of};
ghost use Rattle.held.specs.Reading.{Readable};
ghost use Rattle.held.specs.Tally.{tallied, tally_one};

use crate::{Tally, Window, head};
use std::cmp::Ordering;

// The replies of the window that are of a number, and those above it.
pub fn count(store: &[u8], window: Window, number: u64) -> Tally
    requires { Readable window store.now }
    ensures { result ≡ tallied number window store.now }
{
    // A record says where the next one starts, which no range does, so the index is stepped by hand.
    let end = window.end;
    let mut at = window.start;
    let mut own: usize = 0;
    let mut above: usize = 0;
    while at < end {
        let one = count_one(store, at, number);
        own += one.own;
        above += one.above;
        at += head::HEADER + head::length_at(store, at);
    }
    Tally { own, above }
}

// The record at an index alone.
fn count_one(store: &[u8], at: usize, number: u64) -> Tally
    requires { at + header_size ≤ length store.now }
    ensures { result ≡ tally_one number (kind_of (drop at store.now)) (num_of (drop at store.now)) }
{
    if head::kind_at(store, at) != head::IN_REPLIES {
        return Tally { own: 0, above: 0 };
    }
    match head::number_at(store, at).cmp(&number) {
        Ordering::Less => Tally { own: 0, above: 0 },
        Ordering::Equal => Tally { own: 1, above: 0 },
        Ordering::Greater => Tally { own: 0, above: 1 },
    }
}

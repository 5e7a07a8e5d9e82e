// Whether a state is sound with its rooms (01, Rooms): whatever a caller has spoilt is seen here.
//
// The numbers are tested first. Then one function, which is given numbers and not the whole state,
// goes over the rooms: what is before it is small enough to become part of each call, so that the
// state need not be put into memory for the test.
ghost use Rattle.std.specs.Prelude.{◌≡◌, ◌≤◌, ◌<◌};
ghost use Rattle.octets.specs.Logic.{both};
ghost use Rattle.sequence.specs.Numbering.{last_number};
ghost use Rattle.requests.specs.Room.{capacity, legals};
ghost use Rattle.model.specs.Reading.{rooms};
ghost use Rattle.model.specs.Sound.{soundb, holdsb, limitsb, runb, window_of};

use crate::Connection;
use held::Window;

// The fewest bytes of a packet store: those of one record with the least packet. The most are the
// walk's own.
pub const LEAST_STORE: usize = held::HEADER + packet::LEAST_PACKET;

pub fn is_sound(c: Connection, requests: &[u8], store: &[u8], slots: &[u32]) -> bool
    ensures { result ≡ soundb c (rooms requests.now store.now slots.now) }
{
    if !octets::is_legal(c.order) {
        return false;
    }
    if !requests::sized(requests, c.capacity) {
        return false;
    }
    if store.len() != c.room {
        return false;
    }
    if !limits(c) {
        return false;
    }
    if !run(c.first, c.written, c.capacity) {
        return false;
    }
    let counts = c.counts;
    if !descriptors::sound(slots, counts) {
        return false;
    }
    let window = c.window;
    let count = (c.written + 1 - c.first) as usize;
    rooms_sound(
        requests,
        store,
        c.first,
        count,
        window.start,
        window.end,
        c.read,
        counts.held,
    )
}

// The store's length and the full numbers are in range.
fn limits(c: Connection) -> bool
    ensures { result ≡ limitsb c }
{
    if c.room < LEAST_STORE {
        return false;
    }
    if held::MOST_STORE < c.room {
        return false;
    }
    if sequence::LAST_NUMBER < c.written {
        return false;
    }
    if sequence::LAST_NUMBER < c.expected {
        return false;
    }
    c.read <= sequence::LAST_NUMBER
}

// The outstanding requests are a run from 1 or more up to the last written, and at most so many.
fn run(first: u64, written: u64, most: usize) -> bool
    requires { written ≤ last_number }
    ensures { result ≡ runb first written most }
{
    if first < 1 {
        return false;
    }
    if written + 1 < first {
        return false;
    }
    written + 1 - first <= most as u64
}

// Each byte of the count requests from first on is legal, and the store reads as held packets.
fn rooms_sound(
    requests: &[u8],
    store: &[u8],
    first: u64,
    count: usize,
    start: usize,
    end: usize,
    read: u64,
    held: usize,
) -> bool
    requires { (0 < capacity requests.now) × (count ≤ capacity requests.now) }
    ensures { result ≡ both (legals requests.now first count) (holdsb read (window_of start end) held store.now) }
{
    if !requests::legal(requests, first, count) {
        return false;
    }
    held_sound(store, start, end, read, held)
}

// The store reads as held packets, whose descriptors are as many as are held.
fn held_sound(store: &[u8], start: usize, end: usize, read: u64, held: usize) -> bool
    ensures { result ≡ holdsb read (window_of start end) held store.now }
{
    let window = Window { start, end };
    match held::walk(store, window, read) {
        Some(sum) => sum == held,
        None => false,
    }
}

// Moves of records within the store.
ghost use Rattle.std.specs.Prelude.{◌≡◌, ◌+◌, ◌≤◌, ◌<◌, length, get_or};
ghost use Rattle.packet.specs.Packet.{most_packet, class_of};
ghost use Rattle.packet.specs.Class.{says_class};
ghost use Rattle.held.specs.Head.{header_size, labelled};
ghost use Rattle.held.specs.Moves.{Room, Within, Leaves, Takes, left, stays, behind, appended, removed, demoted};

use crate::{Label, Spot, Window, head};
use packet::Class;

// Whether the window stays where it is for n bytes more: it holds something, and there is room
// behind it. An empty one begins at 0 again, so that few held packets keep to few bytes.
pub fn stays(store: &[u8], window: Window, n: usize) -> bool
    requires { window.end ≤ length store.now }
    ensures { result ≡ stays window store.now n }
{
    if window.end <= window.start {
        return false;
    }
    if store.len() - window.end < n {
        return false;
    }
    true
}

// A packet is held behind all others under its label. Nothing is written outside the window and the
// new record, unless the window had to slide to the start of the store.
pub fn append(store: &mut [u8], window: Window, label: Label, packet: &[u8]) -> Window
    requires { Room window store.old (length packet.now) }
    ensures { Leaves (appended window store.old (labelled label packet.now)) result store.new }
{
    let start = window.start;
    let end = window.end;
    if !stays(store, window, head::HEADER + packet.len()) {
        let used = end - start;
        octets::slide(store, start, 0, used);
        let front = Window {
            start: 0,
            end: used,
        };
        return behind(store, front, label, packet);
    }
    behind(store, window, label, packet)
}

// A record is written behind the window, which stays where it is.
pub fn behind(store: &mut [u8], window: Window, label: Label, packet: &[u8]) -> Window
    requires { (window.end + (header_size + length packet.now) ≤ length store.old) × (length packet.now ≤ most_packet) }
    ensures { Leaves (behind (left window store.old) (labelled label packet.now)) result store.new }
{
    head::put_record(store, window.end, label, packet);
    Window {
        end: window.end + (head::HEADER + packet.len()),
        ..window
    }
}

// The record at a place goes; the shorter side of the window slides over it.
pub fn remove(store: &mut [u8], window: Window, place: Spot) -> Window
    requires { Within window store.old place }
    ensures { Leaves (removed window store.old place) result store.new }
{
    let start = window.start;
    let end = window.end;
    let at = place.at;
    let size = head::HEADER + place.len;
    let next = at + size;
    if end - next < at - start {
        octets::slide(store, next, at, end - next);
        return Window {
            end: end - size,
            ..window
        };
    }
    octets::slide(store, start, start + size, at - start);
    Window {
        start: start + size,
        ..window
    }
}

// The window that is left, and the class of the packet that was taken.
#[derive(Clone, Copy)]
pub struct Taken {
    pub window: Window,
    pub class: Class,
}

// The packet at a place goes to the start of out, and its record goes.
pub fn take(store: &mut [u8], window: Window, place: Spot, out: &mut [u8]) -> Taken
    requires within { Within window store.old place × (place.at + header_size < length store.old) }
    requires len_in_bounds { place.len ≤ length out.old }
    ensures takes { Takes window store.old place out.old result.window store.new out.new }
    ensures class_value { says_class result.class ≡ class_of (get_or store.old (place.at + header_size) 0) }
{
    let at = place.at;
    let len = place.len;
    let class = class_at(store, at);
    octets::copy_out(out, store, at + head::HEADER, len);
    let rest = remove(store, window, place);
    Taken {
        window: rest,
        class,
    }
}

// The record at a place becomes an event without descriptors and goes to the end of the window,
// which stays: it needs no room.
pub fn demote(store: &mut [u8], window: Window, place: Spot)
    requires { Within window store.old place }
    ensures { store.new ≡ demoted window store.old place }
{
    let at = place.at;
    let next = at + (head::HEADER + place.len);
    head::put_kind(store, at, 0, head::IN_EVENTS);
    octets::rotate(store, at, next, window.end);
}

// The class of the packet that the record at an index has.
pub fn class_at(store: &[u8], at: usize) -> Class
    requires { at + header_size < length store.now }
    ensures { says_class result ≡ class_of (get_or store.now (at + header_size) 0) }
{
    packet::class_of(store[at + head::HEADER])
}

// Inside: the moves of the rooms, exported for a benchmark in C (docs/BENCH.md). A harness, and no
// part of the engine.
//
// Each export tests whatever the move below it asks for, answers that it refused where a test
// fails, and otherwise makes the one call. A window is two numbers in a lent array.
#![tactic(auto)]

ghost use Rattle.std.specs.Prelude.{◌≡◌, true};
ghost use Rattle.octets.specs.Put.{put, cut};
ghost use Rattle.requests.specs.Room.{legals};
ghost use Rattle.held.specs.Walk.{walked};
ghost use Rattle.held.specs.Head.{held, event};
ghost use Rattle.held.specs.Moves.{window, appended};
ghost use Rattle.bench.specs.Answers.{Does, answer, window_of};

use held::{Label, Window};

// The answer of a walk that finds the store unsound: a number, since C reads it.
const UNSOUND: usize = 18446744073709551615;

// All of src over dst from index at on.
#[unsafe(no_mangle)]
pub extern "C" fn bench_copy(dst: &mut [u8], at: usize, src: &[u8]) -> bool
    ensures { Does result (put dst.old at src.now) dst.old dst.new }
{
    if dst.len() < at {
        return false;
    }
    if dst.len() - at < src.len() {
        return false;
    }
    octets::copy_in(dst, at, src);
    true
}

// The n bytes from index from on, moved to index to on.
#[unsafe(no_mangle)]
pub extern "C" fn bench_slide(s: &mut [u8], from: usize, to: usize, n: usize) -> bool
    ensures { Does result (put s.old to (cut from n s.old)) s.old s.new }
{
    if s.len() < n {
        return false;
    }
    if s.len() - n < from {
        return false;
    }
    if s.len() - n < to {
        return false;
    }
    octets::slide(s, from, to, n);
    true
}

// Whether each byte of the count requests from number first on is legal.
#[unsafe(no_mangle)]
pub extern "C" fn bench_legal(room: &[u8], first: u64, count: usize) -> bool
    ensures { result ≡ true → legals room.now first count ≡ true }
{
    if room.len() < 1 {
        return false;
    }
    if room.len() < count {
        return false;
    }
    requests::legal(room, first, count)
}

// The soundness test of a store: the descriptors of the held replies, or UNSOUND.
#[unsafe(no_mangle)]
pub extern "C" fn bench_walk(store: &[u8], start: usize, end: usize, last: u64) -> usize
    ensures { result ≡ answer (walked last (window start end) store.now) }
{
    held::walk(store, Window { start, end }, last).unwrap_or(UNSOUND)
}

// A packet held behind all others as an event of number last.
#[unsafe(no_mangle)]
pub extern "C" fn bench_append(
    window: &mut [usize; 2],
    store: &mut [u8],
    last: u64,
    packet: &[u8],
) -> bool
    ensures { Does result (appended (window_of window.old) store.old (held last 0 event packet.now)).store store.old store.new }
{
    let w = Window {
        start: window[0],
        end: window[1],
    };
    let Some(_) = held::walk(store, w, last) else {
        return false;
    };
    if packet.len() < packet::LEAST_PACKET {
        return false;
    }
    if packet::MOST_PACKET < packet.len() {
        return false;
    }
    if store.len() - (w.end - w.start) < held::HEADER + packet.len() {
        return false;
    }
    let label = Label {
        number: last,
        fds: 0,
        kind: held::IN_EVENTS,
    };
    let next = held::append(store, w, label, packet);
    window[0] = next.start;
    window[1] = next.end;
    true
}

// The oldest event to the start of out: its length, or 0 where none is held or out is too small.
#[unsafe(no_mangle)]
pub extern "C" fn bench_take(
    window: &mut [usize; 2],
    store: &mut [u8],
    last: u64,
    out: &mut [u8],
) -> usize
    ensures { result ≡ 0 → store.new ≡ store.old }
{
    let w = Window {
        start: window[0],
        end: window[1],
    };
    let Some(_) = held::walk(store, w, last) else {
        return 0;
    };
    let Some(place) = held::find_event(store, w) else {
        return 0;
    };
    if out.len() < place.len {
        return 0;
    }
    let next = held::take(store, w, place, out).window;
    window[0] = next.start;
    window[1] = next.end;
    place.len
}

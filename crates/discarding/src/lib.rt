// Inside: the step of a connection that discards the answers to a request, for a state that was
// found sound (01, Numbering and filing): the mode is set, held packets of the number go, and their
// descriptors are closed, in the order in which the Rust would close them.
//
// The step is never refused. It is exact: the state and the rooms at exit are one definition of
// what it was given. Laws say what it is in the model's terms, and that the state it leaves is
// sound.
#![tactic(auto)]

ghost use Rattle.std.specs.Prelude.{◌≡◌, ◌+◌, ◌<◌, ◌≤◌, length};
ghost use Rattle.requests.specs.Room.{capacity};
ghost use Rattle.held.specs.Head.{header_size};
ghost use Rattle.held.specs.Moves.{left, Within, Leaves};
ghost use Rattle.model.specs.Sound.{Ready};
ghost use Rattle.discarding.specs.Exact.{mode_set, turn_of, cleared_at, Counted, Sweepable, Sweeps, SweepsOne, DiscardStep};

use held::{Spot, Tally, Window};
use model::{Connection, DiscardMode, moved};
use requests::Mode;

// The answers to a request are discarded: those to come, and those held, which were counted. Never
// refused.
pub fn discard_reply(
    c: Connection,
    requests: &mut [u8],
    store: &mut [u8],
    slots: &mut [u32],
    number: u64,
    mode: DiscardMode,
    found: Tally,
) -> Connection
    requires { Ready c store.old slots.old × (0 < capacity requests.old) × Counted c store.old number found.own found.above }
    ensures { DiscardStep c number mode requests.old store.old slots.old result requests.new store.new slots.new }
{
    set_mode(c, requests, number, mode);
    let window = c.window;
    let counts = c.counts;
    let Some(place) = held::find_reply(store, window, number) else {
        return c;
    };
    let turn = turn(mode, found.own, found.above);
    let before = sweep(store, window, number, mode, turn);
    let behind = sweep(store, before.window, number, mode, found.own - turn);
    let at = place.before;
    let some = descriptors::close_held(slots, counts, at + before.fds, behind.fds);
    let all = descriptors::close_held(slots, some, at, before.fds);
    moved(c, behind.window, all)
}

// The mode of an outstanding request is set.
fn set_mode(c: Connection, requests: &mut [u8], number: u64, mode: DiscardMode)
    requires { 0 < capacity requests.old }
    ensures { requests.new ≡ mode_set c requests.old number mode }
{
    if number < c.first {
        return;
    }
    if c.written < number {
        return;
    }
    requests::put_mode(requests, number, Mode::from(mode));
}

// Whose descriptors are closed first.
fn turn(mode: DiscardMode, own: usize, above: usize) -> usize
    requires { 0 < own }
    ensures { (result ≡ turn_of mode own above) × (result ≤ own) }
{
    match mode {
        DiscardMode::DiscardReply => 0,
        DiscardMode::DiscardReplyAndError => above % own,
    }
}

// Where the packets lie once some are gone, and how many descriptors those had.
#[derive(Clone, Copy)]
pub struct Swept {
    pub window: Window,
    pub fds: usize,
}

// The count oldest packets of a number go.
fn sweep(store: &mut [u8], window: Window, number: u64, mode: DiscardMode, count: usize) -> Swept
    requires { Sweepable number window store.old }
    ensures { Sweeps number mode count window store.old result.window result.fds store.new }
{
    let mut rest = window;
    let mut fds: usize = 0;
    for _i in 0..count {
        let one = sweep_one(store, rest, number, mode);
        rest = one.window;
        fds += one.fds;
    }
    Swept { window: rest, fds }
}

// The oldest packet of a number goes, if there is one.
fn sweep_one(store: &mut [u8], window: Window, number: u64, mode: DiscardMode) -> Swept
    requires { Sweepable number window store.old }
    ensures { SweepsOne number mode window store.old result.window result.fds store.new }
{
    let Some(place) = held::find_reply(store, window, number) else {
        return Swept { window, fds: 0 };
    };
    let next = clear(store, window, place, mode);
    Swept {
        window: next,
        fds: place.fds as usize,
    }
}

// The packet at a place goes; under DiscardReply an error becomes an event.
fn clear(store: &mut [u8], window: Window, place: Spot, mode: DiscardMode) -> Window
    requires { Within window store.old place × (place.at + header_size < length store.old) }
    ensures { Leaves (cleared_at mode (left window store.old) place) result store.new }
{
    match mode {
        DiscardMode::DiscardReply => {
            if packet::is_error(held::class_at(store, place.at)) {
                held::demote(store, window, place);
                return window;
            }
            held::remove(store, window, place)
        }
        DiscardMode::DiscardReplyAndError => held::remove(store, window, place),
    }
}

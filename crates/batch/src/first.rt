// The short way out: the oldest record is an event and goes, so that no record moves.
ghost use Rattle.std.specs.Prelude.{◌≡◌, ◌+◌, ◌-◌, ◌≤◌, length};
ghost use Rattle.held.specs.Head.{header_size};
ghost use Rattle.batch.specs.Events.{Stored};
ghost use Rattle.batch.specs.First.{EventFirst, IsFirst, FirstTurn, passed_state};

use super::events::{MARKS, mark};
use held::Window;
use model::{Connection, Handed};
use sequence::SequenceNumber;

// Whether the oldest record is an event that finds room in so many bytes and marks.
pub(crate) fn is_first(c: Connection, store: &[u8], room: usize, marks: usize) -> bool
    requires { Stored c store.now }
    ensures { IsFirst c store.now room marks result }
{
    let window = c.window;
    let start = window.start;
    if marks < MARKS {
        return false;
    }
    if window.end <= start {
        return false;
    }
    if held::kind_at(store, start) != held::IN_EVENTS {
        return false;
    }
    held::length_at(store, start) <= room
}

// Its packet goes behind the bytes that are used, and its marks behind those that are there. The
// answer is the length of the packet.
pub(crate) fn hand_first(
    c: Connection,
    store: &[u8],
    out: &mut [u8],
    marks: &mut [u64],
    used: usize,
    at: usize,
) -> usize
    requires { Stored c store.now × (used ≤ length out.old) × (at ≤ length marks.old) × EventFirst c store.now (length out.old - used) (length marks.old - at) }
    ensures { FirstTurn c store.now out.old marks.old used at result out.new marks.new }
{
    let window = c.window;
    let start = window.start;
    let len = held::length_at(store, start);
    let number = held::number_at(store, start);
    let class = held::class_at(store, start);
    let from = start + held::HEADER;
    let end = from + len;
    octets::copy_in(out, used, &store[from..end]);
    let event = Handed {
        number: SequenceNumber(number),
        length: len,
        descriptors: 0,
        class,
    };
    mark(marks, at, event);
    len
}

// The state without the oldest record, whose packet has so many bytes.
pub(crate) fn passed(c: Connection, len: usize) -> Connection
    requires { c.window.start + (header_size + len) ≤ c.window.end }
    ensures { result ≡ passed_state c len }
{
    let window = c.window;
    let rest = Window {
        start: window.start + (held::HEADER + len),
        ..window
    };
    Connection { window: rest, ..c }
}

// State as a row of numbers: a connection in 16, of which the last four are 0; a reader, a handshake
// and an allocator in 3. A row that is no state is read as one that is not sound.
ghost use Rattle.std.specs.Prelude.{◌≡◌, ◌+◌, ◌≤◌, ◌<◌, length, get_or};
ghost use Rattle.rows.specs.State.{connection_slots, three_slots, fits, connection_at, connection_of, unfit as state_unfit, four, connection_row, kept_row, filed_row, polled_row, sent_row, byte_row, counted_of, row, reader_of, reader_row, advanced_row, handshake_of, handshake_row, ids_of, ids_row};

use connect::Connect;
use descriptors::Counts;
use held::Window;
use id_allocator::IdAllocator;
use model::Connection;
use packet_reader::PacketReader;

// How many numbers a state has.
pub const CONNECTION: usize = 16;

pub const THREE: usize = 3;

// Numbers at and above this fit no byte.
const BYTES: u64 = 256;

// What each of the last four numbers of a connection's state is.
const SPARE: u64 = 0;

// What a row is read as that is no state: it stays a state and no option, since `connection_of` says
// that such a row is read so, and `specs/Theorems` that it is refused.
fn unfit() -> Connection
    ensures { result ≡ state_unfit }
{
    Connection {
        order: 0,
        capacity: 0,
        room: 0,
        written: 0,
        expected: 0,
        read: 0,
        first: 0,
        window: Window { start: 0, end: 0 },
        counts: Counts {
            closed: 0,
            held: 0,
            waiting: 0,
        },
    }
}

// The last number is tested apart from the three before it, so that an edit that must fail can turn it
// alone.
#[tactic(auto, unfolding(crate::specs::State::connection_of, crate::specs::State::fits, octets::specs::Logic::both, octets::specs::Logic::choose))]
pub fn connection(s: &[u64]) -> Connection
    ensures { result ≡ connection_of s.now }
{
    match *s {
        [
            order,
            capacity,
            room,
            written,
            expected,
            read,
            first,
            start,
            end,
            closed,
            held,
            waiting,
            SPARE,
            SPARE,
            SPARE,
            last,
        ] if order < BYTES && last == SPARE => Connection {
            order: order as u8,
            capacity: capacity as usize,
            room: room as usize,
            written,
            expected,
            read,
            first,
            window: Window {
                start: start as usize,
                end: end as usize,
            },
            counts: Counts {
                closed: closed as usize,
                held: held as usize,
                waiting: waiting as usize,
            },
        },
        _ => unfit(),
    }
}

// Four numbers in a row, so that each store is near its test.
pub fn put_four<T: Copy>(s: &mut [T], at: usize, a: T, b: T, c: T, d: T)
    requires { at + 4 ≤ length s.old }
    ensures { s.new ≡ four s.old at a b c d }
{
    s[at] = a;
    s[at + 1] = b;
    s[at + 2] = c;
    s[at + 3] = d;
}

pub fn put_connection(s: &mut [u64], c: Connection)
    ensures { s.new ≡ connection_row s.old c }
{
    if s.len() != CONNECTION {
        return;
    }
    put_kept(s, c);
    put_four(s, 12, 0, 0, 0, 0);
}

// The same for a state that a call left, in the row that it was read from: its last four numbers are
// 0 there.
// This and the three below stay apart: each has its definition and its law, `kept_row` to `sent_row`.
#[tactic(auto, unfolding(crate::specs::State::kept_row, octets::specs::Logic::choose))]
pub fn put_kept(s: &mut [u64], c: Connection)
    ensures { s.new ≡ kept_row s.old c }
{
    if s.len() != CONNECTION {
        return;
    }
    put_four(
        s,
        0,
        c.order as u64,
        c.capacity as u64,
        c.room as u64,
        c.written,
    );
    put_numbers(s, c);
    put_counts(s, c);
}

// The same for a state that intake left, in the row that it was read from: the first four numbers are
// as they were there, and the last four 0.
#[tactic(auto, unfolding(crate::specs::State::filed_row, octets::specs::Logic::choose))]
pub fn put_filed(s: &mut [u64], c: Connection)
    ensures { s.new ≡ filed_row s.old c }
{
    if s.len() != CONNECTION {
        return;
    }
    put_numbers(s, c);
    put_counts(s, c);
}

// The same for a state that a poll left: the window and the counts are written.
#[tactic(auto, unfolding(crate::specs::State::polled_row, octets::specs::Logic::choose))]
pub fn put_polled(s: &mut [u64], c: Connection)
    ensures { s.new ≡ polled_row s.old c }
{
    if s.len() != CONNECTION {
        return;
    }
    put_counts(s, c);
    s[7] = c.window.start as u64;
}

// The numbers of requests and packets, and where the window begins.
fn put_numbers(s: &mut [u64], c: Connection)
    requires { length s.old ≡ connection_slots }
    ensures { s.new ≡ four s.old 4 c.expected c.read c.first c.window.start }
{
    put_four(s, 4, c.expected, c.read, c.first, c.window.start as u64);
}

// Where the window ends, and how many descriptors are where.
fn put_counts(s: &mut [u64], c: Connection)
    requires { length s.old ≡ connection_slots }
    ensures { s.new ≡ four s.old 8 c.window.end c.counts.closed c.counts.held c.counts.waiting }
{
    let counts = c.counts;
    put_four(
        s,
        8,
        c.window.end as u64,
        counts.closed as u64,
        counts.held as u64,
        counts.waiting as u64,
    );
}

// The same for a state that a send left, in the row that it was read from: only what a send changes
// is written.
#[tactic(auto, unfolding(crate::specs::State::sent_row, octets::specs::Logic::choose))]
pub fn put_sent(s: &mut [u64], c: Connection)
    ensures { s.new ≡ sent_row s.old c }
{
    if s.len() != CONNECTION {
        return;
    }
    s[3] = c.written;
    s[4] = c.expected;
}

// A byte and two counts, which a reader and a handshake are: those of a row, or zeros where it has
// none.
#[tactic(auto, unfolding(crate::specs::State::counted_of, crate::specs::State::byte_row, octets::specs::Logic::both, octets::specs::Logic::choose))]
fn counted(s: &[u64]) -> (u8, usize, usize)
    ensures { result ≡ counted_of s.now }
{
    match *s {
        [order, filled, target] if order < BYTES => {
            (order as u8, filled as usize, target as usize)
        }
        _ => (0, 0, 0),
    }
}

// Three numbers into a row of three; any other row stays. Stores stay by index: of a slice that a
// mutable pattern took apart nothing is known afterwards, so that proof does not close.
#[tactic(auto, unfolding(crate::specs::State::row, octets::specs::Logic::choose))]
fn put_three(s: &mut [u64], a: u64, b: u64, c: u64)
    ensures { s.new ≡ row s.old a b c }
{
    if s.len() != THREE {
        return;
    }
    s[0] = a;
    s[1] = b;
    s[2] = c;
}

pub fn reader(s: &[u64]) -> PacketReader
    ensures { result ≡ reader_of s.now }
{
    let (order, filled, target) = counted(s);
    PacketReader {
        order,
        filled,
        target,
    }
}

pub fn put_reader(s: &mut [u64], r: PacketReader)
    ensures { s.new ≡ reader_row s.old r }
{
    put_three(s, r.order as u64, r.filled as u64, r.target as u64);
}

// The same for a reader that advanced, in the row that it was read from: its order stays.
pub fn put_advanced(s: &mut [u64], r: PacketReader)
    requires { length s.old ≡ three_slots }
    ensures { s.new ≡ advanced_row s.old r }
{
    s[1] = r.filled as u64;
    s[2] = r.target as u64;
}

pub fn handshake(s: &[u64]) -> Connect
    ensures { result ≡ handshake_of s.now }
{
    let (order, filled, target) = counted(s);
    Connect {
        order,
        filled,
        target,
    }
}

pub fn put_handshake(s: &mut [u64], r: Connect)
    ensures { s.new ≡ handshake_row s.old r }
{
    put_three(s, r.order as u64, r.filled as u64, r.target as u64);
}

#[tactic(auto, unfolding(crate::specs::State::ids_of, octets::specs::Logic::choose))]
pub fn ids(s: &[u64]) -> IdAllocator
    ensures { result ≡ ids_of s.now }
{
    match *s {
        [next, last, step] => IdAllocator { next, last, step },
        _ => IdAllocator {
            next: 0,
            last: 0,
            step: 0,
        },
    }
}

pub fn put_ids(s: &mut [u64], a: IdAllocator)
    ensures { s.new ≡ ids_row s.old a }
{
    put_three(s, a.next, a.last, a.step);
}

// A client's connection to an X server, without the socket.
//
// State goes in by value and comes back inside the answer; the three rooms (requests, held packets,
// descriptors) are lent with every call, and may hold anything: each call first decides whether
// state and rooms are sound, and refuses by 9 what is not. Then it does as the model says
// (`model`), or refuses by the number that the rules give, and a refusal leaves the state and every
// lent byte as found. Nothing is allocated and nothing blocks: the caller reads and writes the
// socket.
//
// The rooms stay three parameters: a call is lent each to read or to write, as it needs, and one
// struct of rooms that may be written would ask more of callers.
#![tactic(auto)]

ghost use Rattle.std.specs.Prelude.{◌≡◌};
ghost use Rattle.model.specs.Model.{roomy};
ghost use Rattle.model.specs.Reading.{rooms};
ghost use Rattle.model.specs.Says.{says_next, says_sent, says_enqueued, says_polled, says_poll_reply, says_closed, says_prepared};
ghost use Rattle.model.specs.SaysBatch.{says_sent_many, says_events};
ghost use Rattle.model.specs.Feed.{says_fed};
ghost use Rattle.connection.specs.Check.{Checked};
ghost use Rattle.connection.specs.Calls.{Opens, Sends, EnqueuesFds, Enqueues, Discards, Polls, Checks, PollsReply, PollsEvent, Closes, Prepares, SendsMany, EnqueuesMany, PollsEvents, fresh_state as calls_fresh_state};

use descriptors::Counts;
use held::Window;
use model::{
    Closed, Connection, DiscardMode, Enqueued, Events, Fed, PollReply, Polled, ReplyFdKind, Sent,
    SentMany,
};
use refusal::Refusal;
use sequence::SequenceNumber;

// Every call but `new` begins with this: refused by 9 where the state is not sound with its rooms.
fn check(c: Connection, requests: &[u8], store: &[u8], slots: &[u32]) -> Result<(), Refusal>
    ensures { Checked c (rooms requests.now store.now slots.now) result }
{
    if !model::is_sound(c, requests, store, slots) {
        return Err(Refusal::BadRoom);
    }
    Ok(())
}

// A fresh connection in these rooms: its request room and its packet store have the lengths that
// they are lent with from then on. Refused by 9 for a room out of range or other than 256 slots for
// descriptors, then by 13.
pub fn new(order: u8, requests: &[u8], store: &[u8], slots: &[u32]) -> Result<Connection, Refusal>
    ensures { Opens order (rooms requests.now store.now slots.now) (says_next result) }
{
    let k = requests::capacity(requests);
    let c = fresh(order, k, store.len());
    if slots.len() != descriptors::MOST_DESCRIPTORS {
        return Err(Refusal::BadRoom);
    }
    if !in_range(k, store.len()) {
        return Err(Refusal::BadRoom);
    }
    if !octets::is_legal(order) {
        return Err(Refusal::BadOrder);
    }
    Ok(c)
}

// A request is about to be written. Answers its number; refused by 9, 3 at the end of the numbers, 6
// where a request with a reply must be sent first, 5 where the request room is full.
pub fn send_request(
    c: Connection,
    requests: &mut [u8],
    store: &[u8],
    slots: &[u32],
    kind: ReplyFdKind,
) -> Result<Sent, Refusal>
    ensures { Sends c (rooms requests.old store.now slots.now) kind (says_sent result) (rooms requests.new store.now slots.now) }
{
    check(c, requests, store, slots)?;
    sending::send_request(c, requests, kind)
}

// Requests are about to be written, one for each byte: 0 without a reply, 1 with one, 2 with one that
// has descriptors. Does as `send_request` for one after the other, up to the first that is refused or
// to another byte, behind one test. Refused by 9 alone.
pub fn send_requests(
    c: Connection,
    requests: &mut [u8],
    store: &[u8],
    slots: &[u32],
    kinds: &[u8],
) -> Result<SentMany, Refusal>
    ensures { SendsMany c (rooms requests.old store.now slots.now) kinds.now (says_sent_many result) (rooms requests.new store.now slots.now) }
{
    check(c, requests, store, slots)?;
    batch::send_requests(c, requests, kinds)
}

// Descriptors came with bytes of the server: they wait for the replies that they belong to. Refused
// by 9, and 5 for over 256 inside.
pub fn enqueue_fds(
    c: Connection,
    requests: &[u8],
    store: &[u8],
    slots: &mut [u32],
    list: &[u32],
) -> Result<Connection, Refusal>
    ensures { EnqueuesFds c (rooms requests.now store.now slots.old) list.now (says_next result) (rooms requests.now store.now slots.new) }
{
    check(c, requests, store, slots)?;
    sending::enqueue_fds(c, slots, list)
}

// A packet came from the server. Answers where it was filed, under which number, and its class;
// refused by 9, 1 under 32 bytes, 2 over 65,536, 3 past the last number, 20 where it answers what
// was not asked, 4 where it claims more descriptors than wait, 5 where the store has no room.
pub fn enqueue_packet(
    c: Connection,
    requests: &[u8],
    store: &mut [u8],
    slots: &mut [u32],
    packet: &[u8],
) -> Result<Enqueued, Refusal>
    ensures { Enqueues c (rooms requests.now store.old slots.old) packet.now (says_enqueued result) (rooms requests.now store.new slots.new) }
{
    check(c, requests, store, slots)?;
    intake::enqueue_packet(c, requests, store, slots, packet)
}

// Bytes came from the server: each whole packet that they begin with is taken in as
// `enqueue_packet` does, one after the other, up to the first that is refused, behind one test.
// Answers how many bytes and packets were taken, and what stopped it: no byte is left, part of a
// packet is left, or the next packet is refused by 2, 3, 20, 4 or 5. Refused by 9 alone.
pub fn enqueue_packets(
    c: Connection,
    requests: &[u8],
    store: &mut [u8],
    slots: &mut [u32],
    bytes: &[u8],
) -> Result<Fed, Refusal>
    ensures { EnqueuesMany c (rooms requests.now store.old slots.old) bytes.now (says_fed result) (rooms requests.now store.new slots.new) }
{
    check(c, requests, store, slots)?;
    batch::enqueue_packets(c, requests, store, slots, bytes)
}

// The answers to a request are not wanted: neither those to come nor those held, whose descriptors
// are put with those to close. Under DiscardReply held errors become events. Refused by 9 alone.
pub fn discard_reply(
    c: Connection,
    requests: &mut [u8],
    store: &mut [u8],
    slots: &mut [u32],
    number: SequenceNumber,
    mode: DiscardMode,
) -> Result<Connection, Refusal>
    ensures { Discards c (rooms requests.old store.old slots.old) number.0 mode (says_next result) (rooms requests.new store.new slots.new) }
{
    check(c, requests, store, slots)?;
    let found = held::count(store, c.window, number.0);
    let next = discarding::discard_reply(c, requests, store, slots, number.0, mode, found);
    Ok(next)
}

// The oldest reply or error of a request, with its descriptors, which are the caller's from then on.
// Refused by 9, and 8 where out or fds is too small.
pub fn poll_for_reply_or_error(
    c: Connection,
    requests: &[u8],
    store: &mut [u8],
    slots: &mut [u32],
    number: SequenceNumber,
    out: &mut [u8],
    fds: &mut [u32],
) -> Result<Polled, Refusal>
    ensures { Polls c (rooms requests.now store.old slots.old) number.0 out.old fds.old (says_polled result) (rooms requests.now store.new slots.new) out.new fds.new }
{
    check(c, requests, store, slots)?;
    polling::poll_for_reply_or_error(c, store, slots, number.0, out, fds)
}

// The oldest reply or error of a request; its descriptors are to be closed. NoReply only where a
// packet above the number was read. Refused by 9, and 8 where out is too small.
pub fn poll_check_for_reply_or_error(
    c: Connection,
    requests: &[u8],
    store: &mut [u8],
    slots: &mut [u32],
    number: SequenceNumber,
    out: &mut [u8],
) -> Result<PollReply, Refusal>
    ensures { Checks c (rooms requests.now store.old slots.old) number.0 out.old (says_poll_reply result) (rooms requests.now store.new slots.new) out.new }
{
    check(c, requests, store, slots)?;
    polling::poll_check(c, store, slots, number.0, out)
}

// The oldest reply of a request; its descriptors are to be closed. An error becomes an event, and
// there is no reply. Refused by 9, and 8 where out is too small for a reply.
pub fn poll_for_reply(
    c: Connection,
    requests: &[u8],
    store: &mut [u8],
    slots: &mut [u32],
    number: SequenceNumber,
    out: &mut [u8],
) -> Result<PollReply, Refusal>
    ensures { PollsReply c (rooms requests.now store.old slots.old) number.0 out.old (says_poll_reply result) (rooms requests.now store.new slots.new) out.new }
{
    check(c, requests, store, slots)?;
    polling::poll_for_reply(c, store, slots, number.0, out)
}

// The oldest event, with its number and its class, which is that of an error where one is among the
// events. Refused by 9, and 8 where out is too small.
pub fn poll_for_event_with_sequence(
    c: Connection,
    requests: &[u8],
    store: &mut [u8],
    slots: &[u32],
    out: &mut [u8],
) -> Result<Polled, Refusal>
    ensures { PollsEvent c (rooms requests.now store.old slots.now) out.old (says_polled result) (rooms requests.now store.new slots.now) out.new }
{
    check(c, requests, store, slots)?;
    polling::poll_for_event(c, store, out)
}

// As many events as fit, oldest first: their packets one behind the other in out, and three marks
// for each, its number, the length of its packet and its class. Does as
// `poll_for_event_with_sequence` for one after the other, behind one test, and says whether an event
// is left that has no room. Refused by 9, and 8 where there is an event and not even one fits.
pub fn poll_for_events(
    c: Connection,
    requests: &[u8],
    store: &mut [u8],
    slots: &[u32],
    out: &mut [u8],
    marks: &mut [u64],
) -> Result<Events, Refusal>
    ensures { PollsEvents c (rooms requests.now store.old slots.now) out.old marks.old (says_events result) (rooms requests.now store.new slots.now) out.new marks.new }
{
    check(c, requests, store, slots)?;
    batch::poll_for_events(c, store, out, marks)
}

// The descriptors to be closed, whole and in their order. Refused by 9, and 8 where out has too few
// places.
pub fn take_closed_fds(
    c: Connection,
    requests: &[u8],
    store: &[u8],
    slots: &mut [u32],
    out: &mut [u32],
) -> Result<Closed, Refusal>
    ensures { Closes c (rooms requests.now store.now slots.old) out.old (says_closed result) (rooms requests.now store.now slots.new) out.new }
{
    check(c, requests, store, slots)?;
    sending::take_closed_fds(c, slots, out)
}

// Whether a sync must be sent before the answer of a request can be waited for. Refused by 9.
pub fn prepare_check_for_reply_or_error(
    c: Connection,
    requests: &[u8],
    store: &[u8],
    slots: &[u32],
    number: SequenceNumber,
) -> Result<bool, Refusal>
    ensures { Prepares c (rooms requests.now store.now slots.now) number.0 (says_prepared result) }
{
    check(c, requests, store, slots)?;
    Ok(c.expected < number.0)
}

fn fresh(order: u8, capacity: usize, room: usize) -> Connection
    ensures { result ≡ calls_fresh_state order capacity room }
{
    Connection {
        order,
        capacity,
        room,
        written: 0,
        expected: 0,
        read: 0,
        first: 1,
        window: Window { start: 0, end: 0 },
        counts: Counts {
            closed: 0,
            held: 0,
            waiting: 0,
        },
    }
}

// Whether the capacity of the request room and the length of the packet store are in their ranges.
fn in_range(capacity: usize, room: usize) -> bool
    ensures { result ≡ roomy capacity room }
{
    if capacity < 1 {
        return false;
    }
    if requests::MOST_REQUESTS < capacity {
        return false;
    }
    if room < model::LEAST_STORE {
        return false;
    }
    room <= held::MOST_STORE
}

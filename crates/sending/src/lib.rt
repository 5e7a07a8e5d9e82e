// Inside: the steps of a connection that write requests and keep descriptors, for a state that was
// found sound: sending, descriptors that come in, and the close list that goes out.
//
// A send is two: what it would come to, decided by value and without a write, and putting it. So a
// caller that may have to refuse after all knows every refusal of sending before a byte is written.
//
// A step asks only for what it needs, is lent only the rooms that it touches (so that they stay
// parameters, and no clause has to say that another room stays), and is exact: its answer and
// that room at exit are one definition of what it was given. Laws say what it is in the model's
// terms, and that the state it leaves is sound.
#![tactic(auto)]

ghost use Rattle.std.specs.Prelude.{◌≡◌, ◌<◌};
ghost use Rattle.requests.specs.Room.{capacity};
ghost use Rattle.model.specs.Model.{has_reply, joining};
ghost use Rattle.model.specs.Moved.{sent_state};
ghost use Rattle.model.specs.Sound.{Ranges};
ghost use Rattle.descriptors.specs.Room as Slots;
ghost use Rattle.sending.specs.Send as Send;
ghost use Rattle.sequence.specs.Sending.{says_sent as says_numbers};
ghost use Rattle.sending.specs.Send.{GoesUnder, SendStep};
ghost use Rattle.sending.specs.Fds.{EnqueueFdsStep, CloseStep};

use model::{Closed, Connection, ReplyFdKind, Sent, moved};
use refusal::Refusal;
use requests::{Mode, Request};
use sequence::SequenceNumber;

// A request is sent. Refused by 3 and 6 as the rule of sending says, then by 5 where the room is
// full.
pub fn send_request(c: Connection, requests: &mut [u8], kind: ReplyFdKind) -> Result<Sent, Refusal>
    requires { Ranges c × (0 < capacity requests.old) }
    ensures { SendStep c kind requests.old result requests.new }
{
    let going = sendable(c, kind)?;
    let number = going.number;
    let connection = send_under(c, requests, kind, number, going.expected);
    Ok(Sent { number, connection })
}

// What a request of a kind would be sent as: 3, 6, 5, or its numbers. Nothing is written.
pub fn sendable(c: Connection, kind: ReplyFdKind) -> Result<sequence::Sent, Refusal>
    requires { Ranges c }
    ensures { says_numbers result ≡ Send.sendable c kind }
{
    let written = SequenceNumber(c.written);
    let expected = SequenceNumber(c.expected);
    let going = sequence::send(written, expected, has_reply(kind))?;
    if c.capacity as u64 <= c.written + 1 - c.first {
        return Err(Refusal::NoRoom);
    }
    Ok(going)
}

// A request that was found sendable goes: its byte is written, and the state has its numbers.
pub fn send_under(
    c: Connection,
    requests: &mut [u8],
    kind: ReplyFdKind,
    number: SequenceNumber,
    expected: SequenceNumber,
) -> Connection
    requires { 0 < capacity requests.old }
    ensures { GoesUnder c kind number.0 expected.0 requests.old result requests.new }
{
    requests::put(requests, number.0, request(kind));
    numbered(c, number, expected)
}

fn has_reply(kind: ReplyFdKind) -> bool
    ensures { result ≡ has_reply kind }
{
    !matches!(kind, ReplyFdKind::NoReply)
}

// A request that joins the outstanding ones.
fn request(kind: ReplyFdKind) -> Request
    ensures { result ≡ joining kind }
{
    Request {
        descriptors: matches!(kind, ReplyFdKind::ReplyWithFds),
        mode: Mode::Keep,
    }
}

fn numbered(c: Connection, number: SequenceNumber, expected: SequenceNumber) -> Connection
    ensures { result ≡ sent_state c number.0 expected.0 }
{
    let mut next = c;
    next.written = number.0;
    next.expected = expected.0;
    next
}

// Descriptors come to wait. Refused by 5 for over 256 inside.
pub fn enqueue_fds(c: Connection, slots: &mut [u32], list: &[u32]) -> Result<Connection, Refusal>
    requires { Slots.Sound (Slots.room slots.old c.counts) }
    ensures { EnqueueFdsStep c list.now slots.old result slots.new }
{
    let counts = c.counts;
    let inside = counts.closed + counts.held + counts.waiting;
    if descriptors::MOST_DESCRIPTORS - inside < list.len() {
        return Err(Refusal::NoRoom);
    }
    let next = descriptors::enqueue(slots, counts, list);
    Ok(moved(c, c.window, next))
}

// The close list, whole. Refused by 8 for an output with too few places.
pub fn take_closed_fds(c: Connection, slots: &mut [u32], out: &mut [u32]) -> Result<Closed, Refusal>
    requires { Slots.Sound (Slots.room slots.old c.counts) }
    ensures { CloseStep c slots.old out.old result slots.new out.new }
{
    let counts = c.counts;
    let n = counts.closed;
    if out.len() < n {
        return Err(Refusal::OutShort);
    }
    let next = descriptors::take_closed(slots, counts, out);
    Ok(Closed {
        count: n,
        connection: moved(c, c.window, next),
    })
}

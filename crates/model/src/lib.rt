// Inside: what a connection is. The types of its calls, the model, and how state and rooms are read
// as the model's state.
//
// The pages to believe are `specs/Client.antt`, the state as the rules speak of it, and
// `specs/Model.antt`, one executable function for each call. Nothing there knows a room. Beside them,
// `specs/Encoding.antt` says when state and rooms encode such a state, and when two are alike.
#![tactic(auto)]

mod soundness;

ghost use Rattle.std.specs.Prelude.{◌≡◌};
ghost use Rattle.model.specs.Model.{mode_of};
ghost use Rattle.model.specs.Moved.{moved_state};
ghost use Rattle.model.specs.declared.Halt.{Halt};
ghost use Rattle.model.specs.SendRequests.{kind_of};

use descriptors::Counts;
use held::Window;
use packet::Class;
use refusal::Refusal;
use requests::Mode;
use sequence::SequenceNumber;
pub use soundness::{LEAST_STORE, is_sound};

// Whether a request has a reply, and whether the reply has descriptors.
#[derive(Clone, Copy)]
pub enum ReplyFdKind {
    NoReply,
    ReplyWithoutFds,
    ReplyWithFds,
}

// The kind of a number: 0 without a reply, 1 with one, any other with one and descriptors.
impl From<u8> for ReplyFdKind {
    ghost from_gives = { λ n k. k ≡ kind_of n };

    fn from(kind: u8) -> ReplyFdKind {
        match kind {
            0 => ReplyFdKind::NoReply,
            1 => ReplyFdKind::ReplyWithoutFds,
            _ => ReplyFdKind::ReplyWithFds,
        }
    }
}

// What is to happen to the answer of a request.
#[derive(Clone, Copy)]
pub enum DiscardMode {
    // The reply goes; an error becomes an event.
    DiscardReply,
    // The reply goes, and so does an error.
    DiscardReplyAndError,
}

// What becomes of a request whose answers are discarded.
impl From<DiscardMode> for Mode {
    ghost from_gives = { λ mode m. m ≡ mode_of mode };

    fn from(mode: DiscardMode) -> Mode {
        match mode {
            DiscardMode::DiscardReply => Mode::DiscardReply,
            DiscardMode::DiscardReplyAndError => Mode::DiscardReplyAndError,
        }
    }
}

// Where a packet was filed.
#[derive(Clone, Copy)]
pub enum Place {
    Replies,
    Events,
    Dropped,
}

// A connection's state, all but the rooms that are lent with it: byte order, how many requests the
// request room takes, the length of the packet store, the three numbers, the first outstanding
// number, where the held packets lie in the store, and how many descriptors are where.
#[derive(Clone, Copy)]
pub struct Connection {
    pub order: u8,
    pub capacity: usize,
    pub room: usize,
    pub written: u64,
    pub expected: u64,
    pub read: u64,
    pub first: u64,
    pub window: Window,
    pub counts: Counts,
}

// The state with other held packets and other descriptors.
pub fn moved(c: Connection, window: Window, counts: Counts) -> Connection
    ensures { result ≡ moved_state c window counts }
{
    Connection {
        window,
        counts,
        ..c
    }
}

// ---- what the calls answer: each hands back the state to go on with, and a refusal none

// `send_request`: the number of the request.
#[derive(Clone, Copy)]
pub struct Sent {
    pub number: SequenceNumber,
    pub connection: Connection,
}

// `enqueue_packet`: where the packet was filed, under which number, and its class.
#[derive(Clone, Copy)]
pub struct Enqueued {
    pub place: Place,
    pub number: SequenceNumber,
    pub class: Class,
    pub connection: Connection,
}

// What is handed out of a held packet: its number, how many bytes and descriptors of it are in the
// outputs, and its class. An error may be among the events.
#[derive(Clone, Copy)]
pub struct Handed {
    pub number: SequenceNumber,
    pub length: usize,
    pub descriptors: usize,
    pub class: Class,
}

// `poll_for_reply_or_error`: a packet of the number is in the outputs, with its descriptors; and
// `poll_for_event_with_sequence`: an event is in the output; it has no descriptors.
#[derive(Clone, Copy)]
pub struct Polled {
    pub packet: Option<Handed>,
    pub connection: Connection,
}

// `poll_check_for_reply_or_error` and `poll_for_reply`: a packet of the number is in the output,
// without its descriptors, which are closed.
#[derive(Clone, Copy)]
pub enum PollReply {
    TryAgain(Connection),
    NoReply(Connection),
    Reply(Handed, Connection),
}

// `take_closed_fds`: so many descriptors are in the output.
#[derive(Clone, Copy)]
pub struct Closed {
    pub count: usize,
    pub connection: Connection,
}

// ---- what calls that make many steps answer: how far they came, what stopped them, and the state

// What stopped it: the end of what it was given, the refusal of the next step, or an input that is
// the byte of no kind.
#[derive(Clone, Copy)]
pub enum Stop {
    End,
    Refused(Refusal),
    NoKind,
}

// `send_requests`: how many were sent, the last number written, and what stopped it.
#[derive(Clone, Copy)]
pub struct SentMany {
    pub count: usize,
    pub last: SequenceNumber,
    pub stop: Stop,
    pub connection: Connection,
}

// `poll_for_events`: how many events are in the outputs, and how many bytes their packets are.
#[derive(Clone, Copy)]
pub struct Events {
    pub count: usize,
    pub bytes: usize,
    pub stop: Stop,
    pub connection: Connection,
}

// What stopped a row of packets: no byte is left, part of a packet is left, or the next packet is
// refused.
#[derive(Clone, Copy)]
pub enum Halt {
    End,
    Part,
    Refused(Refusal),
}

impl From<Refusal> for Halt {
    ghost from_gives = { λ r h. h ≡ Halt.Refused r };

    fn from(refusal: Refusal) -> Halt {
        Halt::Refused(refusal)
    }
}

// `enqueue_packets`: so many bytes were taken, so many packets, and what stopped it.
#[derive(Clone, Copy)]
pub struct Fed {
    pub bytes: usize,
    pub packets: usize,
    pub halt: Halt,
    pub connection: Connection,
}

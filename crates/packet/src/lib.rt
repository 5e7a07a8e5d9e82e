// Inside: what a packet is (Core, Protocol Formats; 01, Framing, and Numbering and filing).
//
// The bounds of its length, what its first byte means (its class), where it has its wire number, and
// the number that it is filed under after a last read. Whoever frames, reads, holds, files or hands
// out a packet asks here; nothing is kept, and nothing is written.
#![tactic(auto)]

ghost use Rattle.std.specs.Prelude.{◌≡◌, ◌≤◌, length};
ghost use Rattle.sequence.specs.Numbering.{says_full};
ghost use Rattle.packet.specs.Class.{says_class};
ghost use Rattle.packet.specs.Packet.{least_packet, class_of, has_length, is_error, is_reply, is_plain, class_number, unnumbered, wire_number, number_after};

use refusal::Refusal;
use sequence::{SequenceNumber, WireNumber};

// The fewest and the most bytes of a packet.
pub const LEAST_PACKET: usize = 32;

pub const MOST_PACKET: usize = 65536;

// The first byte of an error and of a reply; all others are events'.
pub const ERROR: u8 = 0;

pub const REPLY: u8 = 1;

// The code of the event that has a length of its own, and of the one that carries no number.
const GENERIC_EVENT: u8 = 35;

const KEYMAP_NOTIFY: u8 = 11;

// An event's code from here on says that SendEvent made it.
const SENT: u8 = 128;

// Where the wire number and the length stand.
const WIRE: usize = 2;

pub const LENGTH: usize = 4;

// What kind of packet it is. Sent are the events, plain or generic, that SendEvent made.
#[derive(Clone, Copy)]
pub enum Class {
    Error,
    Reply,
    Event,
    SentEvent,
    Generic,
    SentGeneric,
}

// The class of a packet that begins with the code.
pub fn class_of(code: u8) -> Class
    ensures { says_class result ≡ class_of code }
{
    if REPLY < code {
        let sent = SENT <= code;
        if code % SENT == GENERIC_EVENT {
            return if sent {
                Class::SentGeneric
            } else {
                Class::Generic
            };
        }
        return if sent { Class::SentEvent } else { Class::Event };
    }
    if code == REPLY {
        return Class::Reply;
    }
    Class::Error
}

// Whether packets of the class have a length of their own; the others have 32 bytes.
pub fn has_length(class: Class) -> bool
    ensures { result ≡ has_length (says_class class) }
{
    matches!(class, Class::Reply | Class::Generic | Class::SentGeneric)
}

pub fn is_error(class: Class) -> bool
    ensures { result ≡ is_error (says_class class) }
{
    matches!(class, Class::Error)
}

pub fn is_reply(class: Class) -> bool
    ensures { result ≡ is_reply (says_class class) }
{
    matches!(class, Class::Reply)
}

// An event without a length of its own, whoever made it.
pub fn is_plain(class: Class) -> bool
    ensures { result ≡ is_plain (says_class class) }
{
    matches!(class, Class::Event | Class::SentEvent)
}

// The number that stands for a class where no enum can be handed on.
impl From<Class> for u8 {
    ghost from_gives = { λ class n. n ≡ class_number (says_class class) };

    fn from(class: Class) -> u8 {
        match class {
            Class::Error => 0,
            Class::Reply => 1,
            Class::Event => 2,
            Class::SentEvent => 3,
            Class::Generic => 4,
            Class::SentGeneric => 5,
        }
    }
}

// Whether a packet of the code carries no number, whoever made it.
pub fn is_unnumbered(code: u8) -> bool
    ensures { result ≡ unnumbered code }
{
    code % SENT == KEYMAP_NOTIFY
}

// The 16 bits of its number that a packet carries. A packet stays a slice, and that it has 32 bytes a
// clause: a type with that invariant would ask more of callers, and be built where each just tested it.
pub fn wire_number(order: u8, packet: &[u8]) -> WireNumber
    requires { least_packet ≤ length packet.now }
    ensures { result ≡ wire_number order packet.now }
{
    WireNumber(octets::get_u16(order, packet, WIRE))
}

// The number that a packet is filed under after the last read: that one where it carries none,
// otherwise its full number. Refused by 3.
pub fn number_after(
    order: u8,
    read: SequenceNumber,
    packet: &[u8],
) -> Result<SequenceNumber, Refusal>
    requires { least_packet ≤ length packet.now }
    ensures { says_full result ≡ number_after order read.0 packet.now }
{
    if is_unnumbered(packet[0]) {
        return Ok(read);
    }
    sequence::full_number(read, wire_number(order, packet))
}

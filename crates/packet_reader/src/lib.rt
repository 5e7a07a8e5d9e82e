// The packet reader: how long a packet is and of which class, and a partial packet in a buffer that
// the caller lends.
//
// A reader keeps how many bytes of the buffer are filled and how many the packet will have, as far
// as the bytes so far tell: 32 at first, and once 32 are there the whole length. The caller puts
// bytes into the part that `buffer` lends and counts them by `advance`, which says when a packet is
// whole, and of which class it is. Bytes past the filled ones mean nothing. The reader never writes
// the buffer itself. Where whole packets already lie side by side, `front` says what stands first,
// with no buffer.
#![tactic(auto)]

ghost use Rattle.std.specs.Prelude.{◌≡◌, ◌≤◌, length};
ghost use Rattle.packet.specs.Class.{says_class};
ghost use Rattle.packet_reader.specs.Frame.{length_as, aim};
ghost use Rattle.packet_reader.specs.Reader.{fresh as reader_fresh, soundb, Lent};
ghost use Rattle.packet_reader.specs.Promises.{Frames, Fronts, Makes, Remains, Lies, Advances};

pub use octets::Span;
use packet::Class;
use refusal::Refusal;

// The most bytes that a buffer may have.
pub const MOST_BUFFER: usize = packet::MOST_PACKET;

// What the first bytes of a packet tell: how many bytes it has, and its class.
#[derive(Clone, Copy)]
pub struct Framed {
    pub length: usize,
    pub class: Class,
}

// The framing rule, for a packet that begins with code and whose 32-bit field at bytes 4 to 7 is
// field.
pub fn frame(code: u8, field: u32) -> Framed
    ensures { Frames code field result }
{
    let class = packet::class_of(code);
    Framed {
        length: length_as(class, field),
        class,
    }
}

fn length_as(class: Class, field: u32) -> usize
    ensures { result ≡ length_as (says_class class) field }
{
    if packet::has_length(class) {
        return packet::LEAST_PACKET + 4 * (field as usize);
    }
    packet::LEAST_PACKET
}

// How many bytes a packet will have of which the first filled are there.
fn aim_of(order: u8, bytes: &[u8], filled: usize) -> usize
    requires { 8 ≤ length bytes.now }
    ensures { result ≡ aim order bytes.now filled }
{
    if filled < packet::LEAST_PACKET {
        return packet::LEAST_PACKET;
    }
    let class = packet::class_of(bytes[0]);
    if !packet::has_length(class) {
        return packet::LEAST_PACKET;
    }
    length_as(class, octets::get_u32(order, bytes, packet::LENGTH))
}

// Inside, for savepoints: how many bytes a packet will have of which these are there. An order other
// than `l` counts as `B`.
pub fn wanted(order: u8, bytes: &[u8]) -> usize
    ensures { result ≡ aim order bytes.now (length bytes.now) }
{
    if bytes.len() < packet::LEAST_PACKET {
        return packet::LEAST_PACKET;
    }
    aim_of(order, bytes, bytes.len())
}

// What a run of bytes begins with: it has none, or begins with a part of a packet, with a packet
// that is longer than any may be, or with a whole one of so many bytes and that class.
#[derive(Clone, Copy)]
pub enum Begins {
    Nothing,
    Part,
    Long,
    Whole(usize, Class),
}

// Inside, for `batch` and `listing`: the order was tested, and no refusal is given here. One other
// than `l` counts as `B`.
pub fn front(order: u8, bytes: &[u8]) -> Begins
    ensures { Fronts order bytes.now result }
{
    if bytes.len() == 0 {
        return Begins::Nothing;
    }
    if bytes.len() < packet::LEAST_PACKET {
        return Begins::Part;
    }
    let target = aim_of(order, bytes, bytes.len());
    if MOST_BUFFER < target {
        return Begins::Long;
    }
    if bytes.len() < target {
        return Begins::Part;
    }
    Begins::Whole(target, packet::class_of(bytes[0]))
}

// A reader's state: byte order, bytes filled, and the bytes that the packet will have.
//
// `connect::Connect` has the same three numbers. One generic type for the two is no plainer: its trait
// would need the least and the most length, the aim with its laws, and what a whole one comes to (a
// class and a fresh reader here, a handshake that stays there), for two instances of five methods.
#[derive(Clone, Copy)]
pub struct PacketReader {
    pub order: u8,
    pub filled: usize,
    pub target: usize,
}

// What counting filled bytes comes to: the packet isn't whole yet, or it is, with so many bytes at
// the start of the buffer and of that class, and the reader begins anew. Two cases, and no option
// beside a reader: `Progress` and the theorems over it have these two.
#[derive(Clone, Copy)]
pub enum Advanced {
    NotYet(PacketReader),
    Packet(usize, Class, PacketReader),
}

impl PacketReader {
    // A reader with nothing filled. Refused by 9 for a buffer that has not 32 to 65,536 bytes, then
    // by 13.
    pub fn new(order: u8, buf: &[u8]) -> Result<PacketReader, Refusal>
        ensures { Makes order buf.now result }
    {
        if buf.len() < packet::LEAST_PACKET {
            return Err(Refusal::BadRoom);
        }
        if MOST_BUFFER < buf.len() {
            return Err(Refusal::BadRoom);
        }
        if !octets::is_legal(order) {
            return Err(Refusal::BadOrder);
        }
        Ok(fresh(order))
    }

    // How many bytes the part has that `buffer` lends. Refused by 9 where the reader is not sound
    // beside its buffer: the number that `buffer`, which lends an empty part then, can't give.
    pub fn remaining_capacity(self, buf: &[u8]) -> Result<usize, Refusal>
        ensures { Remains self buf.now result }
    {
        if !is_sound(self, buf) {
            return Err(Refusal::BadRoom);
        }
        Ok(self.target - self.filled)
    }

    // Where the part of the buffer lies that is to be filled next: from the filled bytes to the
    // target; at 0 and empty where the reader is unsound.
    pub fn unfilled(self, buf: &[u8]) -> Span
        ensures { Lies self buf.now result }
    {
        if !is_sound(self, buf) {
            return Span { start: 0, end: 0 };
        }
        Span {
            start: self.filled,
            end: self.target,
        }
    }

    // That part, lent.
    pub fn buffer<'a>(self, buf: &'a mut [u8]) -> &'a mut [u8]
        ensures { Lent self buf.entry result }
    {
        let unfilled = self.unfilled(buf);
        let start = unfilled.start;
        let end = unfilled.end;
        &mut buf[start..end]
    }

    // Counts amount bytes of the lent part as filled. Refused by 9 for an unsound reader, 7 for
    // more than the part has, and 2 where the packet would be longer than the buffer.
    pub fn advance(self, buf: &[u8], amount: usize) -> Result<Advanced, Refusal>
        ensures { Advances self buf.now amount result }
    {
        if !is_sound(self, buf) {
            return Err(Refusal::BadRoom);
        }
        if self.target - self.filled < amount {
            return Err(Refusal::OverAdvance);
        }
        let order = self.order;
        let filled = self.filled + amount;
        let target = aim_of(order, buf, filled);
        if buf.len() < target {
            return Err(Refusal::LongPacket);
        }
        if filled < target {
            return Ok(Advanced::NotYet(PacketReader {
                order,
                filled,
                target,
            }));
        }
        Ok(Advanced::Packet(target, packet::class_of(buf[0]), fresh(order)))
    }
}

fn fresh(order: u8) -> PacketReader
    ensures { result ≡ reader_fresh order }
{
    PacketReader {
        order,
        filled: 0,
        target: packet::LEAST_PACKET,
    }
}

// Inside, for savepoints too: whether a reader is sound beside its buffer (01, Rooms).
pub fn is_sound(reader: PacketReader, buf: &[u8]) -> bool
    ensures { result ≡ soundb reader buf.now }
{
    if buf.len() < packet::LEAST_PACKET {
        return false;
    }
    if MOST_BUFFER < buf.len() {
        return false;
    }
    if !octets::is_legal(reader.order) {
        return false;
    }
    if reader.target != aim_of(reader.order, buf, reader.filled) {
        return false;
    }
    if buf.len() < reader.target {
        return false;
    }
    reader.filled < reader.target
}

// The handshake over its lent buffer.
ghost use Rattle.std.specs.Prelude.{◌≡◌, ◌≤◌, length};
ghost use Rattle.connect.specs.Handshake.{head, aim, fresh as handshake_fresh, soundb, Lent};
ghost use Rattle.connect.specs.Promises.{Makes, Remains, Lies, Advances};

use octets::Span;
use refusal::Refusal;

// The bytes of a reply that say how long it is, and the most that a buffer may have.
pub const HEAD: usize = 8;

pub const MOST_BUFFER: usize = 262148;

// Where a reply has its length.
const LENGTH_AT: usize = 6;

// A handshake's state: byte order, bytes filled, and the bytes that the reply will have. Why it is no
// instance of one type with the packet reader's state stands beside that.
#[derive(Clone, Copy)]
pub struct Connect {
    pub order: u8,
    pub filled: usize,
    pub target: usize,
}

// What counting filled bytes comes to: the reply isn't complete yet, or it is. Two cases: a flag beside
// the state would say less.
#[derive(Clone, Copy)]
pub enum Advanced {
    NotYet(Connect),
    Complete(Connect),
}

impl Connect {
    // A handshake with nothing filled. Refused by 9 for a buffer that has not 8 to 262,148 bytes,
    // then by 13.
    pub fn new(order: u8, buf: &[u8]) -> Result<Connect, Refusal>
        ensures { Makes order buf.now result }
    {
        if buf.len() < HEAD {
            return Err(Refusal::BadRoom);
        }
        if MOST_BUFFER < buf.len() {
            return Err(Refusal::BadRoom);
        }
        if !octets::is_legal(order) {
            return Err(Refusal::BadOrder);
        }
        Ok(fresh(order))
    }

    // How many bytes the part has that `buffer` lends. Refused by 9 where the handshake is not
    // sound beside its buffer: the number that `buffer`, which lends an empty part then, can't
    // give.
    pub fn remaining_capacity(self, buf: &[u8]) -> Result<usize, Refusal>
        ensures { Remains self buf.now result }
    {
        if !is_sound(self, buf) {
            return Err(Refusal::BadRoom);
        }
        Ok(self.target - self.filled)
    }

    // Where the part of the buffer lies that is to be filled next: from the filled bytes to the
    // target, empty once the reply is complete; at 0 and empty where the handshake is unsound.
    pub fn unfilled(self, buf: &[u8]) -> Span
        ensures { Lies self buf.now result }
    {
        if !is_sound(self, buf) {
            return Span { start: 0, end: 0 };
        }
        Span {
            start: self.filled,
            end: self.target,
        }
    }

    // That part, lent.
    pub fn buffer<'a>(self, buf: &'a mut [u8]) -> &'a mut [u8]
        ensures { Lent self buf.entry result }
    {
        let unfilled = self.unfilled(buf);
        let start = unfilled.start;
        let end = unfilled.end;
        &mut buf[start..end]
    }

    // Counts amount bytes of the lent part as filled. Refused by 9 for an unsound handshake, 7 for
    // more than the part has, and 2 where the reply would be longer than the buffer. A complete
    // handshake stays one: by 0 bytes it is complete again.
    pub fn advance(self, buf: &[u8], amount: usize) -> Result<Advanced, Refusal>
        ensures { Advances self buf.now amount result }
    {
        if !is_sound(self, buf) {
            return Err(Refusal::BadRoom);
        }
        if self.target - self.filled < amount {
            return Err(Refusal::OverAdvance);
        }
        let order = self.order;
        let filled = self.filled + amount;
        let target = aim_of(order, buf, filled);
        if buf.len() < target {
            return Err(Refusal::LongPacket);
        }
        let next = Connect {
            order,
            filled,
            target,
        };
        if filled == target {
            return Ok(Advanced::Complete(next));
        }
        Ok(Advanced::NotYet(next))
    }
}

fn fresh(order: u8) -> Connect
    ensures { result ≡ handshake_fresh order }
{
    Connect {
        order,
        filled: 0,
        target: HEAD,
    }
}

// How many bytes a reply will have of which the first filled are there.
fn aim_of(order: u8, buf: &[u8], filled: usize) -> usize
    requires { head ≤ length buf.now }
    ensures { result ≡ aim order buf.now filled }
{
    if filled < HEAD {
        return HEAD;
    }
    HEAD + 4 * (octets::get_u16(order, buf, LENGTH_AT) as usize)
}

pub(crate) fn is_sound(connect: Connect, buf: &[u8]) -> bool
    ensures { result ≡ soundb connect buf.now }
{
    if buf.len() < HEAD {
        return false;
    }
    if MOST_BUFFER < buf.len() {
        return false;
    }
    if !octets::is_legal(connect.order) {
        return false;
    }
    if connect.target != aim_of(connect.order, buf, connect.filled) {
        return false;
    }
    if buf.len() < connect.target {
        return false;
    }
    connect.filled <= connect.target
}

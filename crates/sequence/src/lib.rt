// Sequence numbers: how a request gets its number, and how a packet's 16 bits become one.
//
// Core counts requests from one, and a packet carries the 16 low bits of the number of the request
// that it belongs to. A number on the wire and a full number are types of their own, so neither
// can be handed where the other is due. Nothing is kept here: the three numbers of a connection
// (last written, next reply expected, last read) come in and go out.
#![tactic(auto)]

ghost use Rattle.std.specs.Prelude.{◌≡◌, ◌≤◌};
ghost use Rattle.sequence.specs.Numbering.{Least, FullNumber, says_full, last_number};
ghost use Rattle.sequence.specs.Sending.{must_sync};
ghost use Rattle.sequence.specs.Promises.{SendsNumber};

use refusal::Refusal;

// The 16 bits that a packet carries of the number of its request.
#[derive(Clone, Copy)]
pub struct WireNumber(pub u16);

// A full number, counted from one without a wrap; 0 stands before the first request.
#[derive(Clone, Copy)]
pub struct SequenceNumber(pub u64);

// The largest full number.
pub const LAST_NUMBER: u64 = 9223372036854775807;

// How far last written may be past next reply expected before a request with a reply must be sent.
pub const SYNC_SPAN: u64 = 65534;

// How many values 16 bits have: the wire wraps there.
const WIRE_VALUES: u64 = 65536;

// What sending a request comes to: its number, and the next reply expected after it.
#[derive(Clone, Copy)]
pub struct Sent {
    pub number: SequenceNumber,
    pub expected: SequenceNumber,
}

// The last read and a step: the packet's 16 bits less the low 16 of the last read, wrapping at
// 65,536. It leads to the least number at or above the last read that ends in the packet's bits.
fn least(last: u64, wire: u16) -> u64
    requires { last ≤ last_number }
    ensures { Least last wire result }
{
    let low = (last % WIRE_VALUES) as u16;
    let step = wire.wrapping_sub(low);
    last + step as u64
}

// The full number of a packet: the least one at or above the last read whose low 16 bits are the
// packet's. Refused by 3 where that is past the last number.
pub fn full_number(read: SequenceNumber, wire: WireNumber) -> Result<SequenceNumber, Refusal>
    ensures { FullNumber read.0 wire.0 (says_full result) }
{
    let last = read.0;
    if LAST_NUMBER < last {
        return Err(Refusal::NumberEnd);
    }
    let number = least(last, wire.0);
    if LAST_NUMBER < number {
        return Err(Refusal::NumberEnd);
    }
    Ok(SequenceNumber(number))
}

// Whether only a request with a reply may be sent.
fn must_sync(written: u64, expected: u64) -> bool
    ensures { result ≡ must_sync written expected }
{
    if written < SYNC_SPAN {
        return false;
    }
    expected <= written - SYNC_SPAN
}

// The number of the next request, and the next reply expected after it. Refused by 3 at the end of
// the numbers, and then by 6 where the request has no reply and a sync must come first; a request
// with a reply is never refused by 6.
pub fn send(written: SequenceNumber, expected: SequenceNumber, reply: bool) -> Result<Sent, Refusal>
    ensures { SendsNumber written.0 expected.0 reply result }
{
    let last = written.0;
    if LAST_NUMBER <= last {
        return Err(Refusal::NumberEnd);
    }
    let number = SequenceNumber(last + 1);
    if reply {
        return Ok(Sent {
            number,
            expected: number,
        });
    }
    if must_sync(last, expected.0) {
        return Err(Refusal::SyncFirst);
    }
    Ok(Sent { number, expected })
}

// What all packets share, and the fixed fields of an error packet (Core, Encoding: Errors).
//
// A packet that a caller hands in is first checked for its length, the byte order and its first
// byte; then its fields can be read. An error has 32 bytes, of which the first eleven say
// something; what its code and opcodes are called stays with the caller. Nothing is written.
#![tactic(auto)]

ghost use Rattle.std.specs.Prelude.{◌≡◌, ◌≤◌, length};
ghost use Rattle.packet.specs.Packet.{least_packet};
ghost use Rattle.x11_utils.specs.Error.{error_of};
ghost use Rattle.x11_utils.specs.Promises.{ChecksPacket, ParsesError};

use refusal::Refusal;
use sequence::WireNumber;

// Whether a packet's fields can be read. Refused, in this order, by 1 under 32 bytes, 2 over
// 65,536, 13 for a byte order other than `l` and `B`, and 14 for another first byte.
pub fn check_packet(order: u8, packet: &[u8], first: u8) -> Result<(), Refusal>
    ensures { ChecksPacket order packet.now first result }
{
    if packet.len() < packet::LEAST_PACKET {
        return Err(Refusal::ShortPacket);
    }
    if packet::MOST_PACKET < packet.len() {
        return Err(Refusal::LongPacket);
    }
    if !octets::is_legal(order) {
        return Err(Refusal::BadOrder);
    }
    if packet[0] != first {
        return Err(Refusal::BadContent);
    }
    Ok(())
}

// An error packet, as the server sent it.
#[derive(Clone, Copy)]
pub struct X11Error {
    // The kind of error, as it appears on the wire.
    pub code: u8,
    // The number of the request that caused it, as it appears on the wire.
    pub sequence: WireNumber,
    // The value in the request that was bad.
    pub value: u32,
    // The minor and the major opcode of the request.
    pub minor: u16,
    pub major: u8,
}

impl X11Error {
    // The fields of an error packet in the given byte order. Refused as by `check_packet`.
    pub fn try_parse(order: u8, packet: &[u8]) -> Result<X11Error, Refusal>
        ensures { ParsesError order packet.now result }
    {
        check_packet(order, packet, packet::ERROR)?;
        Ok(fields(order, packet))
    }
}

fn fields(order: u8, packet: &[u8]) -> X11Error
    requires { least_packet ≤ length packet.now }
    ensures { result ≡ error_of order packet.now }
{
    let sequence = packet::wire_number(order, packet);
    let value = octets::get_u32(order, packet, 4);
    let minor = octets::get_u16(order, packet, 8);
    X11Error {
        code: packet[1],
        sequence,
        value,
        minor,
        major: packet[10],
    }
}

// The three replies.
ghost use Rattle.std.specs.Prelude.{◌≡◌, ◌+◌, ◌*◌, ◌≤◌, length};
ghost use Rattle.octets.specs.Put.{put};
ghost use Rattle.refusal.specs.Answer.{gives};
ghost use Rattle.packet.specs.Packet.{least_packet};
ghost use Rattle.x11_utils.specs.Packet.{says_checked};
ghost use Rattle.xc_misc.specs.Replies.{reaches, units_checked, reply_checked, list_checked, version_of, range_of, list_of, ids_of, says_list, Lists};
ghost use Rattle.xc_misc.specs.Promises.{ReadsVersion, ReadsRange};

use refusal::Refusal;
use sequence::WireNumber;

// Where a list has its count of ids.
const COUNT_AT: usize = 8;

// What every reply begins with, and then the version that the server supports.
#[derive(Clone, Copy)]
pub struct GetVersionReply {
    pub sequence: WireNumber,
    pub length: u32,
    pub major: u16,
    pub minor: u16,
}

// The first id of a range, and how many ids it has.
#[derive(Clone, Copy)]
pub struct GetXIDRangeReply {
    pub sequence: WireNumber,
    pub length: u32,
    pub start: u32,
    pub count: u32,
}

// How many ids came; they are in the lent room.
#[derive(Clone, Copy)]
pub struct GetXIDListReply {
    pub sequence: WireNumber,
    pub length: u32,
    pub count: u32,
}

// Refused, in this order, by 1 under 32 bytes, 2 over 65,536, 13 for another byte order, 14 where
// the first byte isn't 1 or the reply's length passes the end of the bytes given.
pub fn get_version_reply(order: u8, packet: &[u8]) -> Result<GetVersionReply, Refusal>
    ensures { ReadsVersion order packet.now result }
{
    check_reply(order, packet)?;
    Ok(version_fields(order, packet))
}

// Refused as get_version_reply.
pub fn get_xid_range_reply(order: u8, packet: &[u8]) -> Result<GetXIDRangeReply, Refusal>
    ensures { ReadsRange order packet.now result }
{
    check_reply(order, packet)?;
    Ok(range_fields(order, packet))
}

// The ids go to the start of ids. Refused as get_version_reply, by 14 also where the id count
// passes the end of the bytes given, and last by 8 where ids has too few places.
pub fn get_xid_list_reply(
    order: u8,
    packet: &[u8],
    ids: &mut [u32],
) -> Result<GetXIDListReply, Refusal>
    ensures { Lists order packet.now ids.old (says_list result) ids.new }
{
    check_list(order, packet)?;
    take_list(order, packet, ids)
}

// Whether the fixed 32 bytes and units of four more are within len bytes.
fn within(len: usize, units: u32) -> bool
    ensures { result ≡ reaches len units }
{
    packet::LEAST_PACKET + 4 * (units as usize) <= len
}

// A packet that is a reply, and holds what its length says.
fn check_reply(order: u8, packet: &[u8]) -> Result<(), Refusal>
    ensures { says_checked result ≡ reply_checked order packet.now }
{
    x11_utils::check_packet(order, packet, packet::REPLY)?;
    check_units(order, packet, packet::LENGTH)
}

// A reply that also holds as many ids as it says.
fn check_list(order: u8, packet: &[u8]) -> Result<(), Refusal>
    ensures { says_checked result ≡ list_checked order packet.now }
{
    check_reply(order, packet)?;
    check_units(order, packet, COUNT_AT)
}

fn check_units(order: u8, packet: &[u8], at: usize) -> Result<(), Refusal>
    requires { at + 4 ≤ length packet.now }
    ensures { says_checked result ≡ units_checked order packet.now at }
{
    if within(packet.len(), octets::get_u32(order, packet, at)) {
        return Ok(());
    }
    Err(Refusal::BadContent)
}

// Each reply is read by its own fields, which `version_of`, `range_of` and `list_of` say; one function for
// the three would have as many cases.
fn version_fields(order: u8, packet: &[u8]) -> GetVersionReply
    requires { least_packet ≤ length packet.now }
    ensures { result ≡ version_of order packet.now }
{
    let sequence = packet::wire_number(order, packet);
    let length = octets::get_u32(order, packet, packet::LENGTH);
    let major = octets::get_u16(order, packet, 8);
    let minor = octets::get_u16(order, packet, 10);
    GetVersionReply {
        sequence,
        length,
        major,
        minor,
    }
}

fn range_fields(order: u8, packet: &[u8]) -> GetXIDRangeReply
    requires { least_packet ≤ length packet.now }
    ensures { result ≡ range_of order packet.now }
{
    let sequence = packet::wire_number(order, packet);
    let length = octets::get_u32(order, packet, packet::LENGTH);
    let start = octets::get_u32(order, packet, 8);
    let count = octets::get_u32(order, packet, 12);
    GetXIDRangeReply {
        sequence,
        length,
        start,
        count,
    }
}

fn list_fields(order: u8, packet: &[u8]) -> GetXIDListReply
    requires { least_packet ≤ length packet.now }
    ensures { result ≡ list_of order packet.now }
{
    let sequence = packet::wire_number(order, packet);
    let length = octets::get_u32(order, packet, packet::LENGTH);
    let count = octets::get_u32(order, packet, COUNT_AT);
    GetXIDListReply {
        sequence,
        length,
        count,
    }
}

fn take_list(order: u8, packet: &[u8], ids: &mut [u32]) -> Result<GetXIDListReply, Refusal>
    requires { gives tt ≡ list_checked order packet.now }
    ensures { Lists order packet.now ids.old (says_list result) ids.new }
{
    let reply = list_fields(order, packet);
    let count = reply.count as usize;
    if ids.len() < count {
        return Err(Refusal::OutShort);
    }
    read_ids(order, packet, count, ids);
    Ok(reply)
}

fn read_ids(order: u8, packet: &[u8], count: usize, ids: &mut [u32])
    requires { (least_packet + 4 * count ≤ length packet.now) × (count ≤ length ids.old) }
    ensures { ids.new ≡ put ids.old 0 (ids_of order count packet.now) }
{
    for i in 0..count {
        ids[i] = octets::get_u32(order, packet, packet::LEAST_PACKET + 4 * i);
    }
}

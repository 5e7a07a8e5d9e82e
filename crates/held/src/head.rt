// The layout of a record: its offsets and sizes have their names here and nowhere else.
ghost use Rattle.std.specs.Prelude.{◌≡◌, [], ◌∷◌, ◌+◌, ◌-◌, ◌≤◌, length, drop};
ghost use Rattle.octets.specs.Put.{put, cut};
ghost use Rattle.packet.specs.Packet.{most_packet};
ghost use Rattle.held.specs.Head.{header_size, count_at, labelled, encoded, most_fds, num_of, len_of, fds_of, kind_of, zero_of};
ghost use Rattle.held.specs.Front.{Begun};

use crate::Label;

// Where the fields stand: eight bytes, four, one, one and two. The packet stands behind them.
const NUMBER: usize = 0;

const LENGTH: usize = 8;

const COUNT: usize = 12;

const KIND: usize = 13;

const ZERO: usize = 14;

// The bytes of a header.
pub const HEADER: usize = 16;

// The kinds of records.
pub const IN_REPLIES: u8 = 0;

pub const IN_EVENTS: u8 = 1;

// Each reads a field of the header at an index, and asks for the header's room by itself: a slice of
// 16 bytes as its type would be cut out, by the same bound, wherever one is called.

pub fn number_at(s: &[u8], at: usize) -> u64
    requires { at + header_size ≤ length s.now }
    ensures { result ≡ num_of (drop at s.now) }
{
    octets::get_u64(octets::LITTLE, s, at + NUMBER)
}

pub fn length_at(s: &[u8], at: usize) -> usize
    requires { at + header_size ≤ length s.now }
    ensures { result ≡ len_of (drop at s.now) }
{
    octets::get_u32(octets::LITTLE, s, at + LENGTH) as usize
}

pub fn count_at(s: &[u8], at: usize) -> u8
    requires { at + header_size ≤ length s.now }
    ensures { result ≡ fds_of (drop at s.now) }
{
    s[at + COUNT]
}

pub fn kind_at(s: &[u8], at: usize) -> u8
    requires { at + header_size ≤ length s.now }
    ensures { result ≡ kind_of (drop at s.now) }
{
    s[at + KIND]
}

fn zero_at(s: &[u8], at: usize) -> u16
    requires { at + header_size ≤ length s.now }
    ensures { result ≡ zero_of (drop at s.now) }
{
    octets::get_u16(octets::LITTLE, s, at + ZERO)
}

// The most descriptors of a record of a kind: an event has none.
fn most_fds(kind: u8) -> u8
    ensures { result ≡ most_fds kind }
{
    if kind == IN_REPLIES { 255 } else { 0 }
}

// The bytes of the record at an index, where one that fits stands there before the end.
pub fn record_at(s: &[u8], at: usize, end: usize) -> Option<usize>
    requires { (at ≤ end) × (end ≤ length s.now) }
    ensures { Begun (cut at (end - at) s.now) result }
{
    let room = end - at;
    if room < HEADER + packet::LEAST_PACKET {
        return None;
    }
    let len = length_at(s, at);
    if room - HEADER < len {
        return None;
    }
    if len < packet::LEAST_PACKET {
        return None;
    }
    if packet::MOST_PACKET < len {
        return None;
    }
    let kind = kind_at(s, at);
    if IN_EVENTS < kind {
        return None;
    }
    if most_fds(kind) < count_at(s, at) {
        return None;
    }
    if zero_at(s, at) != 0 {
        return None;
    }
    Some(HEADER + len)
}

// The count and the kind of a record.
pub fn put_kind(s: &mut [u8], at: usize, fds: u8, kind: u8)
    requires { at + header_size ≤ length s.old }
    ensures { s.new ≡ put s.old (at + count_at) (fds ∷ kind ∷ []) }
{
    s[at + COUNT] = fds;
    s[at + KIND] = kind;
}

// A whole record.
pub fn put_record(s: &mut [u8], at: usize, label: Label, packet: &[u8])
    requires { (at + header_size + length packet.now ≤ length s.old) × (length packet.now ≤ most_packet) }
    ensures { s.new ≡ put s.old at (encoded (labelled label packet.now)) }
{
    octets::put_u64(octets::LITTLE, s, at + NUMBER, label.number);
    octets::put_u32(octets::LITTLE, s, at + LENGTH, packet.len() as u32);
    put_kind(s, at, label.fds, label.kind);
    octets::put_u16(octets::LITTLE, s, at + ZERO, 0);
    octets::copy_in(s, at + HEADER, packet);
}

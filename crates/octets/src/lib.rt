// Inside: fields of 16, 32 and 64 bits in either byte order, and moves of bytes.
//
// Nothing here knows a packet or a room. A field is read and written by the library's conversions
// between numbers and bytes. A move within a slice is one `put` of what was cut out before: overlaps
// are no case of their own.
#![tactic(auto)]

mod blocks;
mod moves;

ghost use Rattle.std.specs.Prelude.{◌≡◌, ◌+◌, ◌≤◌, length};
ghost use Rattle.octets.specs.Bytes.{legal};
ghost use Rattle.octets.specs.Field.{field, put_field};

use moves::copy_bytes;
pub use moves::{copy_in, copy_out, rotate, slide};

// A part of a buffer: where it starts, and where the bytes behind it start.
#[derive(Clone, Copy)]
pub struct Span {
    pub start: usize,
    pub end: usize,
}

// The byte that says least significant byte first (Core, Connection Setup).
pub const LITTLE: u8 = 108;
// The byte that says most significant byte first.
pub const BIG: u8 = 66;

// Whether a byte is one of the two orders.
pub fn is_legal(order: u8) -> bool
    ensures { result ≡ legal order }
{
    if order == LITTLE {
        return true;
    }
    order == BIG
}

// The number in the two bytes from at on.
//
// Three functions read and three write: the library's conversions are methods of each type and of no
// trait, so a generic one would need a trait of our own, with these bodies as its impls.
pub fn get_u16(order: u8, s: &[u8], at: usize) -> u16
    requires { at + 2 ≤ length s.now }
    ensures { result ≡ field order at 2 s.now }
{
    let bytes = [s[at], s[at + 1]];
    if order == LITTLE {
        return u16::from_le_bytes(bytes);
    }
    u16::from_be_bytes(bytes)
}

// The number in the four bytes from at on.
pub fn get_u32(order: u8, s: &[u8], at: usize) -> u32
    requires { at + 4 ≤ length s.now }
    ensures { result ≡ field order at 4 s.now }
{
    let bytes = [s[at], s[at + 1], s[at + 2], s[at + 3]];
    if order == LITTLE {
        return u32::from_le_bytes(bytes);
    }
    u32::from_be_bytes(bytes)
}

// The number in the eight bytes from at on.
pub fn get_u64(order: u8, s: &[u8], at: usize) -> u64
    requires { at + 8 ≤ length s.now }
    ensures { result ≡ field order at 8 s.now }
{
    let bytes = [
        s[at],
        s[at + 1],
        s[at + 2],
        s[at + 3],
        s[at + 4],
        s[at + 5],
        s[at + 6],
        s[at + 7],
    ];
    if order == LITTLE {
        return u64::from_le_bytes(bytes);
    }
    u64::from_be_bytes(bytes)
}

// x over the two bytes from at on.
pub fn put_u16(order: u8, s: &mut [u8], at: usize, x: u16)
    requires { at + 2 ≤ length s.old }
    ensures { s.new ≡ put_field order s.old at 2 x }
{
    if order == LITTLE {
        copy_bytes(s, at, &u16::to_le_bytes(x));
        return;
    }
    copy_bytes(s, at, &u16::to_be_bytes(x));
}

// x over the four bytes from at on.
pub fn put_u32(order: u8, s: &mut [u8], at: usize, x: u32)
    requires { at + 4 ≤ length s.old }
    ensures { s.new ≡ put_field order s.old at 4 x }
{
    if order == LITTLE {
        copy_bytes(s, at, &u32::to_le_bytes(x));
        return;
    }
    copy_bytes(s, at, &u32::to_be_bytes(x));
}

// x over the eight bytes from at on.
pub fn put_u64(order: u8, s: &mut [u8], at: usize, x: u64)
    requires { at + 8 ≤ length s.old }
    ensures { s.new ≡ put_field order s.old at 8 x }
{
    if order == LITTLE {
        copy_bytes(s, at, &u64::to_le_bytes(x));
        return;
    }
    copy_bytes(s, at, &u64::to_be_bytes(x));
}

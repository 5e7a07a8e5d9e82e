// Blocks of 32 bytes, held as four numbers between reading and writing.
//
// The compiler makes two instructions of reading a block and two of writing it. An array of 32 bytes
// in their place goes through memory: a slide of 16 KiB then takes 3.9 times as long as memmove, and
// the goal is 3 (docs/BENCH.md).
ghost use Rattle.std.specs.Prelude.{◌≡◌, ◌+◌, ◌≤◌, length};
ghost use Rattle.octets.specs.Put.{put, cut};
ghost use Rattle.octets.specs.Field.{four};

use super::{LITTLE, get_u64, put_u64};

// The bytes of a block.
pub const SIZE: usize = 32;

#[derive(Clone, Copy)]
pub struct Block {
    pub a: u64,
    pub b: u64,
    pub c: u64,
    pub d: u64,
}

// The block from index at on.
pub fn get_block(s: &[u8], at: usize) -> Block
    requires { at + 32 ≤ length s.now }
    ensures { four result.a result.b result.c result.d ≡ cut at 32 s.now }
{
    let a = get_u64(LITTLE, s, at);
    let b = get_u64(LITTLE, s, at + 8);
    let c = get_u64(LITTLE, s, at + 16);
    let d = get_u64(LITTLE, s, at + 24);
    Block { a, b, c, d }
}

// A block over the bytes from index at on.
pub fn put_block(s: &mut [u8], at: usize, x: Block)
    requires { at + 32 ≤ length s.old }
    ensures { s.new ≡ put s.old at (four x.a x.b x.c x.d) }
{
    put_u64(LITTLE, s, at, x.a);
    put_u64(LITTLE, s, at + 8, x.b);
    put_u64(LITTLE, s, at + 16, x.c);
    put_u64(LITTLE, s, at + 24, x.d);
}

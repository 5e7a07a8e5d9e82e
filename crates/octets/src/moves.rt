// Moves within one slice, and copies between two.
//
// A run of 32 to 64 bytes is its first block and its last one, which may share bytes. Both are read
// before either is written, so it may overlap the place it goes to. A longer run goes in turns of 64
// bytes, from the end that is safe, and what the turns leave goes byte by byte, within a slice by the
// library's `copy_within`. Its `copy_from_slice` and `rotate_left` serve no archive for C here: they
// call memmove, which whoever links such an archive would have to bring.
ghost use Rattle.std.specs.Prelude.{◌≡◌, ◌+◌, ◌-◌, ◌≤◌, ◌++◌, length};
ghost use Rattle.octets.specs.Put.{put, cut};

use super::blocks::{SIZE, get_block, put_block};

// The bytes of a turn, two blocks.
const TURN: usize = 64;

// The n bytes from index from on, moved to index to on; the two runs may overlap.
pub fn slide(s: &mut [u8], from: usize, to: usize, n: usize)
    requires { (from + n ≤ length s.old) × (to + n ≤ length s.old) }
    ensures { s.new ≡ put s.old to (cut from n s.old) }
{
    if SIZE <= n && n <= TURN {
        slide_ends(s, from, to, n);
    } else if to <= from {
        slide_left(s, from, to, n);
    } else {
        slide_right(s, from, to, n);
    }
}

// In two blocks.
fn slide_ends(s: &mut [u8], from: usize, to: usize, n: usize)
    requires { (32 ≤ n) × (n ≤ 64) × (from + n ≤ length s.old) × (to + n ≤ length s.old) }
    ensures { s.new ≡ put s.old to (cut from n s.old) }
{
    let rest = n - SIZE;
    let first = get_block(s, from);
    let last = get_block(s, from + rest);
    put_block(s, to, first);
    put_block(s, to + rest, last);
}

// From the left, for to at most from.
fn slide_left(s: &mut [u8], from: usize, to: usize, n: usize)
    requires { (to ≤ from) × (from + n ≤ length s.old) }
    ensures { s.new ≡ put s.old to (cut from n s.old) }
{
    for i in 0..n / TURN {
        let at = TURN * i;
        slide_ends(s, from + at, to + at, TURN);
    }
    let done = n - n % TURN;
    s.copy_within(from + done..from + n, to + done);
}

// From the right, for to at least from.
fn slide_right(s: &mut [u8], from: usize, to: usize, n: usize)
    requires { (from ≤ to) × (to + n ≤ length s.old) }
    ensures { s.new ≡ put s.old to (cut from n s.old) }
{
    let rest = n % TURN;
    for i in (0..n / TURN).rev() {
        let at = rest + TURN * i;
        slide_ends(s, from + at, to + at, TURN);
    }
    s.copy_within(from..from + rest, to);
}

// All of src over dst from index at on.
pub fn copy_in(dst: &mut [u8], at: usize, src: &[u8])
    requires { at + length src.now ≤ length dst.old }
    ensures { dst.new ≡ put dst.old at src.now }
{
    let n = src.len();
    if SIZE <= n && n <= TURN {
        copy_ends(dst, at, src, 0, n);
        return;
    }
    for i in 0..n / TURN {
        let from = TURN * i;
        copy_ends(dst, at + from, src, from, TURN);
    }
    let done = n - n % TURN;
    copy_bytes(dst, at + done, &src[done..]);
}

// The n bytes of src from index from on, in two blocks.
fn copy_ends(dst: &mut [u8], at: usize, src: &[u8], from: usize, n: usize)
    requires { (32 ≤ n) × (n ≤ 64) × (from + n ≤ length src.now) × (at + n ≤ length dst.old) }
    ensures { dst.new ≡ put dst.old at (cut from n src.now) }
{
    let rest = n - SIZE;
    let first = get_block(src, from);
    let last = get_block(src, from + rest);
    put_block(dst, at, first);
    put_block(dst, at + rest, last);
}

pub(crate) fn copy_bytes(dst: &mut [u8], at: usize, src: &[u8])
    requires { at + length src.now ≤ length dst.old }
    ensures { dst.new ≡ put dst.old at src.now }
{
    for i in 0..src.len() {
        dst[at + i] = src[i];
    }
}

// The n bytes of src from index from on over the first of dst.
pub fn copy_out(dst: &mut [u8], src: &[u8], from: usize, n: usize)
    requires { (n ≤ length dst.old) × (from + n ≤ length src.now) }
    ensures { dst.new ≡ put dst.old 0 (cut from n src.now) }
{
    let end = from + n;
    copy_in(dst, 0, &src[from..end]);
}

// The bytes from at to mid and those from mid to end change places.
pub fn rotate(s: &mut [u8], at: usize, mid: usize, end: usize)
    requires { (at ≤ mid) × (mid ≤ end) × (end ≤ length s.old) }
    ensures { s.new ≡ put s.old at (cut mid (end - mid) s.old ++ cut at (mid - at) s.old) }
{
    s[at..mid].reverse();
    s[mid..end].reverse();
    s[at..end].reverse();
}

// A digest of bytes: 64-bit FNV-1a.
//
// For each byte the number so far is combined with it by exclusive or, then multiplied by an odd
// number modulo 2^64. Both steps can be undone, so runs of bytes that differ in one byte alone never
// have the same digest; others have by a chance of 1 in 2^64, unless somebody contrives them.
ghost use Rattle.std.specs.Prelude.{◌≡◌, length};

use text::Page;

const PRIME: u64 = 0x100000001b3;

// The digest of no bytes.
pub(crate) const EMPTY: u64 = 0xcbf29ce484222325;

// The digest of some bytes behind those of which it is h.
pub(crate) fn fold(h: u64, bytes: &[u8]) -> u64 {
    bytes.iter().fold(h, |now, byte| step(now, *byte))
}

fn step(h: u64, byte: u8) -> u64 {
    (h ^ u64::from(byte)).wrapping_mul(PRIME)
}

// Its sixteen hex digits, behind a blank.
pub(crate) fn tell(page: &mut Page<impl Print>, h: u64)
    ensures { length page.new.run.now ≡ length page.old.run.now }
{
    page.hex(&h.to_be_bytes());
}

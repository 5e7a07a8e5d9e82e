// Bytes as they are written: two digits each, of lower-case hex.
ghost use Rattle.std.specs.Prelude.{◌≤◌, ◌*◌, length};

use super::number::digit;
use super::words::BLANK;
use super::{Unread, words};
use text::Span;

// The most digits of a savepoint, and of other bytes.
pub(crate) const SAVEPOINT: usize = 1572864;

pub(crate) const BYTES: usize = 131072;

// The last word of a line, at most so many digits. The bytes go to its start; where it can't be read
// some may be gone.
pub(crate) fn read(input: &mut [u8], rest: Option<Span>, most: usize) -> Result<Span, Unread> {
    let word = words::some(rest)?;
    let Some(part) = input.get_mut(word.from..word.end) else {
        return Err(Unread::Word(2));
    };
    let count = unhex(part);
    if most / 2 < count {
        return Err(Unread::Word(2));
    }
    match part[2 * count..].first() {
        None => Ok(word.take(count)),
        Some(c) if *c == BLANK => Err(Unread::Word(3)),
        Some(_) => Err(Unread::Word(2)),
    }
}

// The bytes of the first digits go to the start, as far as there are pairs of them; how many they are.
fn unhex(part: &mut [u8]) -> usize
    ensures { 2 * result ≤ length part.old }
{
    let pairs = part.len() / 2;
    for i in 0..pairs {
        let Some(byte) = pair(part[2 * i], part[2 * i + 1]) else {
            return i;
        };
        part[i] = byte;
    }
    pairs
}

fn pair(high: u8, low: u8) -> Option<u8> {
    Some(digit(high)? * 16 + digit(low)?)
}

// Words of several kinds behind a name, which is word 1.
ghost use Rattle.std.specs.Prelude.{◌≤◌, length, IfOk};

use super::words::{BLANK, no_more};
use super::{Call, Command, Unread, kinds, number};
use model::DiscardMode;
use sequence::SequenceNumber;

// A number and nothing behind it.
pub(crate) fn number(rest: &[u8]) -> Result<u64, Unread> {
    let mut words = rest.split(|c| *c == BLANK);
    let n = wide(words.next(), 2)?;
    no_more(words.next(), 3)?;
    Ok(n)
}

// Two numbers of 32 bits and nothing behind them.
pub(crate) fn pair(rest: &[u8]) -> Result<(u32, u32), Unread> {
    let mut words = rest.split(|c| *c == BLANK);
    let a = narrow(words.next(), 2)?;
    let b = narrow(words.next(), 3)?;
    no_more(words.next(), 4)?;
    Ok((a, b))
}

// K S l, or K S B.
pub(crate) fn rooms(rest: &[u8]) -> Result<Command, Unread> {
    let mut words = rest.split(|c| *c == BLANK);
    let requests = wide(words.next(), 2)? as usize;
    let store = wide(words.next(), 3)? as usize;
    let order = order(words.next()).ok_or(Unread::Word(4))?;
    no_more(words.next(), 5)?;
    Ok(Command::New {
        requests,
        store,
        order,
    })
}

fn order(word: Option<&[u8]>) -> Option<u8> {
    match word {
        Some([order]) if octets::is_legal(*order) => Some(*order),
        _ => None,
    }
}

// KIND, or KIND COUNT.
pub(crate) fn send(rest: &[u8]) -> Result<Call, Unread> {
    let mut words = rest.split(|c| *c == BLANK);
    let kind = words
        .next()
        .and_then(|word| kinds::of(word))
        .ok_or(Unread::Word(2))?;
    let Some(count) = words.next() else {
        return Ok(Call::Send(kind));
    };
    let count = wide(Some(count), 3)?;
    no_more(words.next(), 4)?;
    Ok(Call::SendMany(kind, count))
}

// N reply, or N both.
pub(crate) fn discard(rest: &[u8]) -> Result<Call, Unread> {
    let mut words = rest.split(|c| *c == BLANK);
    let number = SequenceNumber(wide(words.next(), 2)?);
    let mode = mode(words.next()).ok_or(Unread::Word(3))?;
    no_more(words.next(), 4)?;
    Ok(Call::Discard(number, mode))
}

fn mode(word: Option<&[u8]>) -> Option<DiscardMode> {
    match word {
        Some(b"reply") => Some(DiscardMode::DiscardReply),
        Some(b"both") => Some(DiscardMode::DiscardReplyAndError),
        _ => None,
    }
}

// Descriptors, as many as the lent room takes; those past it are read, and not kept. How many are
// kept.
pub fn fds(rest: &[u8], list: &mut [u32]) -> Result<usize, Unread>
    ensures { IfOk result (λ n. n ≤ length list.new) }
{
    let mut count = 0;
    let mut number = 2;
    for word in rest.split(|c| *c == BLANK) {
        let fd = narrow(Some(word), number)?;
        number = number.saturating_add(1);
        if let Some(place) = list.get_mut(count) {
            *place = fd;
            count += 1;
        }
    }
    Ok(count)
}

// The word of a number, as a number.
fn wide(word: Option<&[u8]>, number: u64) -> Result<u64, Unread> {
    word.and_then(|word| number::read(word))
        .ok_or(Unread::Word(number))
}

fn narrow(word: Option<&[u8]>, number: u64) -> Result<u32, Unread> {
    u32::try_from(wide(word, number)?).map_err(|_| Unread::Word(number))
}

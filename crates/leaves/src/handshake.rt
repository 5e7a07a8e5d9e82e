// The handshake.
use crate::{moves, roomed};
use connect::{Advanced, Connect};
use refusal::Refusal;
use text::{Answer, Span, Word};

// Its buffer.
fn buffer<'a>(bytes: &'a [u8]) -> &'a [u8] {
    text::cut(bytes, crate::SETUP, crate::END)
}

pub(crate) fn new(now: &mut Connect, order: u8, bytes: &[u8]) -> Result<Answer, Refusal> {
    *now = Connect::new(order, buffer(bytes))?;
    Ok(text::say(Word::Ok))
}

// How many bytes the handshake's part takes.
fn room(now: Connect, bytes: &[u8]) -> usize {
    now.remaining_capacity(buffer(bytes)).unwrap_or(0)
}

// Bytes of the run, put into the handshake's part if it takes them.
pub(crate) fn fill(now: Connect, run: &mut [u8], bytes: Span) -> Result<Answer, Refusal> {
    if room(now, run) < bytes.length() {
        return Err(Refusal::OverAdvance);
    }
    moves::put(run, bytes, crate::SETUP.saturating_add(now.filled));
    Ok(text::say(Word::Ok))
}

pub(crate) fn advance(now: &mut Connect, bytes: &[u8], n: usize) -> Result<Answer, Refusal> {
    let handshake = *now;
    let (word, next) = match handshake.advance(buffer(bytes), n)? {
        Advanced::NotYet(next) => (Word::False, next),
        Advanced::Complete(next) => (Word::True, next),
    };
    *now = next;
    Ok(roomed(word, room(next, bytes)))
}

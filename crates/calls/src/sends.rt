// `send_request`, `enqueue_fds`, `discard_reply` and `prepare_check_for_reply_or_error`.
use crate::{LIST, Rooms};
use model::{Connection, DiscardMode, ReplyFdKind};
use refusal::Refusal;
use sequence::SequenceNumber;
use text::{Answer, Span, Word};

pub(crate) fn send(
    c: &mut Connection,
    kind: ReplyFdKind,
    rooms: &mut Rooms<'_>,
) -> Result<Answer, Refusal> {
    let requests = &mut *rooms.requests;
    let store = &mut *rooms.store;
    let slots = &mut *rooms.slots;
    let sent = connection::send_request(*c, requests, store, slots, kind)?;
    *c = sent.connection;
    Ok(text::count(None, c.written))
}

// So many requests. A refused send leaves the state as it was, so those after it are refused alike.
pub(crate) fn many(
    c: &mut Connection,
    kind: ReplyFdKind,
    count: u64,
    rooms: &mut Rooms<'_>,
) -> Answer {
    for done in 0..count {
        if let Err(refusal) = send(c, kind, rooms) {
            let stop = u64::from(refusal.number());
            return text::both(Some(Word::Refused), stop, Word::Accepted, done, None);
        }
    }
    if count == 0 {
        return text::also(None, Word::Accepted, 0);
    }
    text::both(None, c.written, Word::Accepted, count, None)
}

// The descriptors of the line join the waiting ones. A line that names none has no words to read.
pub(crate) fn fds(
    c: &mut Connection,
    words: Span,
    rooms: &mut Rooms<'_>,
    run: &[u8],
) -> Result<Answer, Refusal> {
    let mut space = [0u32; LIST];
    let count = script::fds(words.of(run), &mut space).unwrap_or(0);
    let list = space.get(..count).ok_or(Refusal::NoRoom)?;
    let requests = &mut *rooms.requests;
    let store = &mut *rooms.store;
    let slots = &mut *rooms.slots;
    *c = connection::enqueue_fds(*c, requests, store, slots, list)?;
    Ok(text::say(Word::Ok))
}

pub(crate) fn discard(
    c: &mut Connection,
    number: SequenceNumber,
    mode: DiscardMode,
    rooms: &mut Rooms<'_>,
) -> Result<Answer, Refusal> {
    let requests = &mut *rooms.requests;
    let store = &mut *rooms.store;
    let slots = &mut *rooms.slots;
    *c = connection::discard_reply(*c, requests, store, slots, number, mode)?;
    Ok(text::say(Word::Ok))
}

pub(crate) fn prepare(
    c: Connection,
    number: SequenceNumber,
    rooms: &Rooms<'_>,
) -> Result<Answer, Refusal> {
    let ready = connection::prepare_check_for_reply_or_error(
        c,
        rooms.requests,
        rooms.store,
        rooms.slots,
        number,
    )?;
    Ok(text::whether(ready))
}

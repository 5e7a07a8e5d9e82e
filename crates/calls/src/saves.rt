// `save` and `restore`. A savepoint that is written goes between the buffers and the input, and is
// shown from there; one that is read stands in the input.
use crate::{Rooms, Subject};
use leaves::Buffered;
use octets::LITTLE;
use refusal::Refusal;
use saving::Client;
use text::{Answer, Page, Span, Word};

// The longest buffer of a reader.
const LONGEST: usize = 65536;

// ---- `save`

pub fn save(subject: &Subject, rooms: &Rooms<'_>, page: &mut Page<'_, impl Print>) {
    crate::told(saved(subject, rooms, page.run), page);
}

// The reader's buffer is in the run that is written to, so it is copied first.
fn saved(subject: &Subject, rooms: &Rooms<'_>, run: &mut [u8]) -> Result<Answer, Refusal> {
    let mut buf = [0u8; LONGEST];
    let buffered = subject.leaves.reader;
    let n = copied(Span::at(leaves::READER, buffered.room).of(run), &mut buf);
    let out = run
        .get_mut(leaves::END..script::INPUT)
        .ok_or(Refusal::OutShort)?;
    let n = written(subject, rooms, text::cut(&buf, 0, n), out)?;
    Ok(text::shown(None, leaves::END, n))
}

// How many bytes are copied: all, or none where they don't fit.
fn copied(from: &[u8], to: &mut [u8]) -> usize {
    match to.get_mut(..from.len()) {
        Some(to) => {
            to.copy_from_slice(from);
            from.len()
        }
        None => 0,
    }
}

fn written(
    subject: &Subject,
    rooms: &Rooms<'_>,
    buf: &[u8],
    out: &mut [u8],
) -> Result<usize, Refusal> {
    let c = subject.connection;
    // A client without ids is unsound.
    let ids = subject.leaves.ids.ok_or(Refusal::BadRoom)?;
    let client = Client {
        connection: c,
        reader: subject.leaves.reader.reader,
        ids,
    };
    let requests = text::cut(rooms.requests, 0, requests::bytes_for(c.capacity));
    let store = text::cut(rooms.store, 0, c.room);
    saving::save(client, requests, store, rooms.slots, buf, out)
}

// ---- `restore`

// The bytes are a savepoint. Rooms are as long as it says; those that are longer than the program's
// own are refused by 9, since its own are lent then.
pub fn restore(
    subject: &mut Subject,
    saved: Span,
    rooms: &mut Rooms<'_>,
    page: &mut Page<'_, impl Print>,
) {
    crate::told(restored(subject, saved, rooms, page.run), page);
}

fn restored(
    subject: &mut Subject,
    saved: Span,
    rooms: &mut Rooms<'_>,
    run: &mut [u8],
) -> Result<Answer, Refusal> {
    let mut buf = [0u8; LONGEST];
    let lengths = lengths_in(saved.of(run));
    let client = read(saved.of(run), lengths, rooms, &mut buf)?;
    let room = laid(text::cut(&buf, 0, lengths.buffer), run);
    subject.connection = client.connection;
    subject.leaves.reader = Buffered {
        reader: client.reader,
        room,
    };
    subject.leaves.ids = Some(client.ids);
    Ok(text::say(Word::Ok))
}

// How long the rooms are that a savepoint was made of.
#[derive(Clone, Copy, Default)]
struct Lengths {
    requests: usize,
    store: usize,
    buffer: usize,
}

// Where a savepoint has them, and where they end.
const CAPACITY: usize = 40;

const STORE: usize = 48;

const BUFFER: usize = 64;

const HEAD: usize = 72;

// Bytes that are too few for that are no savepoint, whatever rooms they are read in.
fn lengths_in(saved: &[u8]) -> Lengths {
    if saved.len() < HEAD {
        return Lengths::default();
    }
    let k = octets::get_u64(LITTLE, saved, CAPACITY) as usize;
    Lengths {
        requests: requests::bytes_for(k),
        store: octets::get_u64(LITTLE, saved, STORE) as usize,
        buffer: octets::get_u64(LITTLE, saved, BUFFER) as usize,
    }
}

fn read(
    saved: &[u8],
    lengths: Lengths,
    rooms: &mut Rooms<'_>,
    buf: &mut [u8],
) -> Result<Client, Refusal> {
    let requests = &mut *rooms.requests;
    let store = &mut *rooms.store;
    let slots = &mut *rooms.slots;
    let k = lengths.requests.min(requests.len());
    let s = lengths.store.min(store.len());
    let p = lengths.buffer.min(buf.len());
    saving::restore(
        saved,
        &mut requests[..k],
        &mut store[..s],
        slots,
        &mut buf[..p],
    )
}

// The reader's buffer goes back to its place; how long it is.
fn laid(buf: &[u8], run: &mut [u8]) -> usize {
    let place = Span::at(leaves::READER, buf.len());
    if let Some(to) = run.get_mut(place.from..place.end) {
        let _ = copied(buf, to);
    }
    buf.len()
}

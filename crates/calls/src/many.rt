// The calls that make a row of steps: `send_requests`, `enqueue_packets` and `poll_for_events`.
use crate::Rooms;
use model::{Connection, Events, Halt, Stop};
use refusal::Refusal;
use text::{Answer, Page, Span, Word};

// The bytes are the kinds of requests.
pub(crate) fn send(
    c: &mut Connection,
    kinds: Span,
    rooms: &mut Rooms<'_>,
    run: &[u8],
) -> Result<Answer, Refusal> {
    let requests = &mut *rooms.requests;
    let store = &mut *rooms.store;
    let slots = &mut *rooms.slots;
    let sent = connection::send_requests(*c, requests, store, slots, kinds.of(run))?;
    *c = sent.connection;
    let stop = match sent.stop {
        Stop::Refused(refusal) => Some(refusal),
        Stop::End | Stop::NoKind => None,
    };
    Ok(text::both(
        Some(Word::Sent),
        sent.count as u64,
        Word::Last,
        sent.last.0,
        stop,
    ))
}

// The bytes came from the server.
pub(crate) fn intake(
    c: &mut Connection,
    bytes: Span,
    rooms: &mut Rooms<'_>,
    run: &[u8],
) -> Result<Answer, Refusal> {
    let requests = &mut *rooms.requests;
    let store = &mut *rooms.store;
    let slots = &mut *rooms.slots;
    let fed = connection::enqueue_packets(*c, requests, store, slots, bytes.of(run))?;
    *c = fed.connection;
    let stop = match fed.halt {
        Halt::Refused(refusal) => Some(refusal),
        Halt::End | Halt::Part => None,
    };
    Ok(text::both(
        Some(Word::Packets),
        fed.packets as u64,
        Word::Bytes,
        fed.bytes as u64,
        stop,
    ))
}

// ---- `drain`

// Three for each event of the least length that the bytes can hold.
const MARKS: usize = 6144;

// One call that hands out many events. Their packets go to the start of the run of bytes, up to the
// reader's buffer.
pub(crate) fn drain(c: &mut Connection, rooms: &mut Rooms<'_>, page: &mut Page<'_, impl Print>) {
    let mut marks = [0u64; MARKS];
    match polled(*c, rooms, page.run, &mut marks) {
        Ok(events) => {
            *c = events.connection;
            page.counted(b" events ", events.count as u64);
            list(&marks, events.count, page);
        }
        Err(refusal) => page.tell(text::refusal(refusal)),
    }
}

// As many as fit into the first bytes and into the marks.
fn polled(
    c: Connection,
    rooms: &mut Rooms<'_>,
    run: &mut [u8],
    marks: &mut [u64],
) -> Result<Events, Refusal> {
    let out = run.get_mut(..leaves::READER).ok_or(Refusal::OutShort)?;
    let requests = &mut *rooms.requests;
    let store = &mut *rooms.store;
    let slots = &mut *rooms.slots;
    connection::poll_for_events(c, requests, store, slots, out, marks)
}

// Each event has three marks: its number, the length of its packet and the number of its class.
fn list(marks: &[u64], count: usize, page: &mut Page<'_, impl Print>) {
    let mut from = 0;
    for mark in marks.chunks_exact(3).take(count) {
        if let [number, length, class] = mark {
            let packet = Span::at(from, *length as usize);
            page.counted(b" ", *number);
            page.packet(packet);
            classed(*class, page);
            from = packet.end;
        }
    }
}

fn classed(number: u64, page: &mut Page<'_, impl Print>) {
    if let Some(class) = text::class_of(number) {
        page.class(class);
    }
}

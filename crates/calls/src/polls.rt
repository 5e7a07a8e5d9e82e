// `enqueue_packet`, and the polls. Packets are handed out at the start of the run of bytes.
use crate::{LIST, Rooms};
use model::{Connection, Handed, PollReply};
use packet::Class;
use refusal::Refusal;
use sequence::SequenceNumber;
use text::{Answer, Page, Span, Word};

// A packet joins the held ones, or is dropped; its class.
pub(crate) fn enqueue(
    c: &mut Connection,
    packet: Span,
    rooms: &mut Rooms<'_>,
    run: &[u8],
) -> Result<Class, Refusal> {
    let requests = &mut *rooms.requests;
    let store = &mut *rooms.store;
    let slots = &mut *rooms.slots;
    let filed = connection::enqueue_packet(*c, requests, store, slots, packet.of(run))?;
    *c = filed.connection;
    Ok(filed.class)
}

pub(crate) fn intake(
    c: &mut Connection,
    packet: Span,
    rooms: &mut Rooms<'_>,
    run: &[u8],
) -> Result<Answer, Refusal> {
    Ok(text::classed(Word::Ok, enqueue(c, packet, rooms, run)?))
}

pub(crate) fn check(
    c: &mut Connection,
    number: SequenceNumber,
    rooms: &mut Rooms<'_>,
    run: &mut [u8],
) -> Result<Answer, Refusal> {
    let requests = &mut *rooms.requests;
    let store = &mut *rooms.store;
    let slots = &mut *rooms.slots;
    let polled = connection::poll_check_for_reply_or_error(
        *c, requests, store, slots, number, run,
    )?;
    Ok(replied(c, polled))
}

pub(crate) fn reply(
    c: &mut Connection,
    number: SequenceNumber,
    rooms: &mut Rooms<'_>,
    run: &mut [u8],
) -> Result<Answer, Refusal> {
    let requests = &mut *rooms.requests;
    let store = &mut *rooms.store;
    let slots = &mut *rooms.slots;
    let polled = connection::poll_for_reply(*c, requests, store, slots, number, run)?;
    Ok(replied(c, polled))
}

fn replied(c: &mut Connection, polled: PollReply) -> Answer {
    let (answer, next) = match polled {
        PollReply::TryAgain(next) => (text::say(Word::Again), next),
        PollReply::NoReply(next) => (text::say(Word::NoReply), next),
        PollReply::Reply(handed, next) => (text::shown(Some(Word::Reply), 0, handed.length), next),
    };
    *c = next;
    answer
}

pub(crate) fn event(
    c: &mut Connection,
    rooms: &mut Rooms<'_>,
    run: &mut [u8],
) -> Result<Answer, Refusal> {
    let requests = &mut *rooms.requests;
    let store = &mut *rooms.store;
    let slots = &mut *rooms.slots;
    let polled = connection::poll_for_event_with_sequence(*c, requests, store, slots, run)?;
    *c = polled.connection;
    Ok(polled.packet.map_or(text::say(Word::None), shown))
}

fn shown(handed: Handed) -> Answer {
    Answer {
        count: Some(handed.number.0),
        class: Some(handed.class),
        ..text::shown(Some(Word::Event), 0, handed.length)
    }
}

// The one call that hands out descriptors besides, which are listed behind its packet.
pub(crate) fn reply_or_error(
    c: &mut Connection,
    number: SequenceNumber,
    rooms: &mut Rooms<'_>,
    page: &mut Page<'_, impl Print>,
) {
    let mut list = [0u32; LIST];
    match polled(c, number, rooms, page.run, &mut list) {
        Ok(Some(handed)) => {
            page.tell(text::shown(Some(Word::Packet), 0, handed.length));
            if handed.descriptors != 0 {
                page.first(b" fds", &list, handed.descriptors);
            }
        }
        Ok(None) => page.tell(text::say(Word::None)),
        Err(refusal) => page.tell(text::refusal(refusal)),
    }
}

fn polled(
    c: &mut Connection,
    number: SequenceNumber,
    rooms: &mut Rooms<'_>,
    run: &mut [u8],
    list: &mut [u32],
) -> Result<Option<Handed>, Refusal> {
    let requests = &mut *rooms.requests;
    let store = &mut *rooms.store;
    let slots = &mut *rooms.slots;
    let polled = connection::poll_for_reply_or_error(
        *c, requests, store, slots, number, run, list,
    )?;
    *c = polled.connection;
    Ok(polled.packet)
}

// `connection`: the public calls, over a state in sixteen lent numbers and the three rooms.
ghost use Rattle.answers.specs.Exported.{returned_of};
ghost use Rattle.xiengmado.specs.Exports.{XmConnectionNew, XmSendRequest, XmDiscardReply, XmEnqueueFds, XmEnqueuePacket, XmPollForReplyOrError, XmPollCheckForReplyOrError, XmPollForReply, XmPollForEventWithSequence, XmTakeClosedFds, XmPrepareCheckForReplyOrError};

use answers::{
    bit, discard_mode, give_closed, give_enqueued, give_event, give_next, give_poll, give_polled,
    give_sent,
};
use model::ReplyFdKind;
use refusal::Refusal;
use sequence::SequenceNumber;

// A fresh connection in these rooms.
pub fn xm_connection_new(
    state: &mut [u64],
    order: u8,
    requests: &[u8],
    store: &[u8],
    slots: &[u32],
) -> Result<(), Refusal>
    ensures { XmConnectionNew state.old order requests.now store.now slots.now state.new (returned_of result) }
{
    if state.len() != rows::CONNECTION {
        return Err(Refusal::BadRoom);
    }
    let answer = connection::new(order, requests, store, slots);
    give_next(answer, state)
}

// Kinds are 0 for a request without a reply, 1 for one with a reply, 2 for one whose reply has
// descriptors; another is refused by 9.
// The test stays beside the conversion: that one is model's and takes any number, and a function for
// both would be one of a line for one caller.
pub fn xm_send_request(
    state: &mut [u64],
    requests: &mut [u8],
    store: &[u8],
    slots: &[u32],
    kind: u8,
    number: &mut u64,
) -> Result<(), Refusal>
    ensures { XmSendRequest state.old requests.old store.now slots.now kind number.old state.new requests.new number.new (returned_of result) }
{
    if answers::MOST_KIND < kind {
        return Err(Refusal::BadRoom);
    }
    let now = rows::connection(state);
    let answer = connection::send_request(now, requests, store, slots, ReplyFdKind::from(kind));
    give_sent(answer, state, number)
}

// Modes are 1 for DiscardReply and 2 for DiscardReplyAndError; another is refused by 9.
pub fn xm_discard_reply(
    state: &mut [u64],
    requests: &mut [u8],
    store: &mut [u8],
    slots: &mut [u32],
    number: u64,
    mode: u8,
) -> Result<(), Refusal>
    ensures { XmDiscardReply state.old requests.old store.old slots.old number mode state.new requests.new store.new slots.new (returned_of result) }
{
    let mode = discard_mode(mode)?;
    let now = rows::connection(state);
    let answer = connection::discard_reply(
        now,
        requests,
        store,
        slots,
        SequenceNumber(number),
        mode,
    );
    give_next(answer, state)
}

pub fn xm_enqueue_fds(
    state: &mut [u64],
    requests: &[u8],
    store: &[u8],
    slots: &mut [u32],
    list: &[u32],
) -> Result<(), Refusal>
    ensures { XmEnqueueFds state.old requests.now store.now slots.old list.now state.new slots.new (returned_of result) }
{
    let now = rows::connection(state);
    let answer = connection::enqueue_fds(now, requests, store, slots, list);
    give_next(answer, state)
}

// Places are 0 for the replies, 1 for the events, 2 for a packet that was dropped.
pub fn xm_enqueue_packet(
    state: &mut [u64],
    requests: &[u8],
    store: &mut [u8],
    slots: &mut [u32],
    packet: &[u8],
    place: &mut u8,
    number: &mut u64,
    class: &mut u8,
) -> Result<(), Refusal>
    ensures { XmEnqueuePacket state.old requests.now store.old slots.old packet.now place.old number.old class.old state.new store.new slots.new place.new number.new class.new (returned_of result) }
{
    let now = rows::connection(state);
    let answer = connection::enqueue_packet(now, requests, store, slots, packet);
    give_enqueued(answer, state, place, number, class)
}

// Where nothing is found, found is 0 and so are size and count.
pub fn xm_poll_for_reply_or_error(
    state: &mut [u64],
    requests: &[u8],
    store: &mut [u8],
    slots: &mut [u32],
    number: u64,
    out: &mut [u8],
    fds: &mut [u32],
    found: &mut u8,
    size: &mut usize,
    count: &mut usize,
    class: &mut u8,
) -> Result<(), Refusal>
    ensures { XmPollForReplyOrError state.old requests.now store.old slots.old number out.old fds.old found.old size.old count.old class.old state.new store.new slots.new out.new fds.new found.new size.new count.new class.new (returned_of result) }
{
    let now = rows::connection(state);
    let answer = connection::poll_for_reply_or_error(
        now,
        requests,
        store,
        slots,
        SequenceNumber(number),
        out,
        fds,
    );
    give_polled(answer, state, found, size, count, class)
}

// Results are 0 for TryAgain, 1 for NoReply and 2 for a reply; size is 0 but for a reply.
pub fn xm_poll_check_for_reply_or_error(
    state: &mut [u64],
    requests: &[u8],
    store: &mut [u8],
    slots: &mut [u32],
    number: u64,
    out: &mut [u8],
    res: &mut u8,
    size: &mut usize,
    class: &mut u8,
) -> Result<(), Refusal>
    ensures { XmPollCheckForReplyOrError state.old requests.now store.old slots.old number out.old res.old size.old class.old state.new store.new slots.new out.new res.new size.new class.new (returned_of result) }
{
    let now = rows::connection(state);
    let answer = connection::poll_check_for_reply_or_error(
        now,
        requests,
        store,
        slots,
        SequenceNumber(number),
        out,
    );
    give_poll(answer, state, res, size, class)
}

// Results as those of the call above.
pub fn xm_poll_for_reply(
    state: &mut [u64],
    requests: &[u8],
    store: &mut [u8],
    slots: &mut [u32],
    number: u64,
    out: &mut [u8],
    res: &mut u8,
    size: &mut usize,
    class: &mut u8,
) -> Result<(), Refusal>
    ensures { XmPollForReply state.old requests.now store.old slots.old number out.old res.old size.old class.old state.new store.new slots.new out.new res.new size.new class.new (returned_of result) }
{
    let now = rows::connection(state);
    let answer = connection::poll_for_reply(
        now,
        requests,
        store,
        slots,
        SequenceNumber(number),
        out,
    );
    give_poll(answer, state, res, size, class)
}

// Where nothing is found, found is 0 and so are number and size.
pub fn xm_poll_for_event_with_sequence(
    state: &mut [u64],
    requests: &[u8],
    store: &mut [u8],
    slots: &[u32],
    out: &mut [u8],
    found: &mut u8,
    number: &mut u64,
    size: &mut usize,
    class: &mut u8,
) -> Result<(), Refusal>
    ensures { XmPollForEventWithSequence state.old requests.now store.old slots.now out.old found.old number.old size.old class.old state.new store.new out.new found.new number.new size.new class.new (returned_of result) }
{
    let now = rows::connection(state);
    let answer = connection::poll_for_event_with_sequence(now, requests, store, slots, out);
    give_event(answer, state, found, number, size, class)
}

pub fn xm_take_closed_fds(
    state: &mut [u64],
    requests: &[u8],
    store: &[u8],
    slots: &mut [u32],
    out: &mut [u32],
    count: &mut usize,
) -> Result<(), Refusal>
    ensures { XmTakeClosedFds state.old requests.now store.now slots.old out.old count.old state.new slots.new out.new count.new (returned_of result) }
{
    let now = rows::connection(state);
    let answer = connection::take_closed_fds(now, requests, store, slots, out);
    give_closed(answer, state, count)
}

// Sync is 1 where a sync must be sent, otherwise 0.
pub fn xm_prepare_check_for_reply_or_error(
    state: &[u64],
    requests: &[u8],
    store: &[u8],
    slots: &[u32],
    number: u64,
    sync: &mut u8,
) -> Result<(), Refusal>
    ensures { XmPrepareCheckForReplyOrError state.now requests.now store.now slots.now number sync.old sync.new (returned_of result) }
{
    let now = rows::connection(state);
    let needed = connection::prepare_check_for_reply_or_error(
        now,
        requests,
        store,
        slots,
        SequenceNumber(number),
    )?;
    *sync = bit(needed);
    Ok(())
}

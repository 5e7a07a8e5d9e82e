// `connection`: the public calls, over a state in sixteen lent numbers and the three rooms.
ghost use Rattle.xiengmado.specs.Exports.{XmConnectionNew, XmSendRequest, XmDiscardReply, XmEnqueueFds, XmEnqueuePacket, XmPollForReplyOrError, XmPollCheckForReplyOrError, XmPollForReply, XmPollForEventWithSequence, XmTakeClosedFds, XmPrepareCheckForReplyOrError};

use answers::returned;

#[unsafe(no_mangle)]
pub extern "C" fn xm_connection_new(
    state: &mut [u64],
    order: u8,
    requests: &[u8],
    store: &[u8],
    slots: &[u32],
) -> u32
    ensures { XmConnectionNew state.old order requests.now store.now slots.now state.new result }
{
    returned(xiengmado::client::xm_connection_new(state, order, requests, store, slots))
}

#[unsafe(no_mangle)]
pub extern "C" fn xm_send_request(
    state: &mut [u64],
    requests: &mut [u8],
    store: &[u8],
    slots: &[u32],
    kind: u8,
    number: &mut u64,
) -> u32
    ensures { XmSendRequest state.old requests.old store.now slots.now kind number.old state.new requests.new number.new result }
{
    returned(xiengmado::client::xm_send_request(state, requests, store, slots, kind, number))
}

#[unsafe(no_mangle)]
pub extern "C" fn xm_discard_reply(
    state: &mut [u64],
    requests: &mut [u8],
    store: &mut [u8],
    slots: &mut [u32],
    number: u64,
    mode: u8,
) -> u32
    ensures { XmDiscardReply state.old requests.old store.old slots.old number mode state.new requests.new store.new slots.new result }
{
    returned(xiengmado::client::xm_discard_reply(state, requests, store, slots, number, mode))
}

#[unsafe(no_mangle)]
pub extern "C" fn xm_enqueue_fds(
    state: &mut [u64],
    requests: &[u8],
    store: &[u8],
    slots: &mut [u32],
    list: &[u32],
) -> u32
    ensures { XmEnqueueFds state.old requests.now store.now slots.old list.now state.new slots.new result }
{
    returned(xiengmado::client::xm_enqueue_fds(state, requests, store, slots, list))
}

#[unsafe(no_mangle)]
pub extern "C" fn xm_enqueue_packet(
    state: &mut [u64],
    requests: &[u8],
    store: &mut [u8],
    slots: &mut [u32],
    packet: &[u8],
    place: &mut u8,
    number: &mut u64,
    class: &mut u8,
) -> u32
    ensures { XmEnqueuePacket state.old requests.now store.old slots.old packet.now place.old number.old class.old state.new store.new slots.new place.new number.new class.new result }
{
    returned(xiengmado::client::xm_enqueue_packet(
        state, requests, store, slots, packet, place, number, class,
    ))
}

#[unsafe(no_mangle)]
pub extern "C" fn xm_poll_for_reply_or_error(
    state: &mut [u64],
    requests: &[u8],
    store: &mut [u8],
    slots: &mut [u32],
    number: u64,
    out: &mut [u8],
    fds: &mut [u32],
    found: &mut u8,
    size: &mut usize,
    count: &mut usize,
    class: &mut u8,
) -> u32
    ensures { XmPollForReplyOrError state.old requests.now store.old slots.old number out.old fds.old found.old size.old count.old class.old state.new store.new slots.new out.new fds.new found.new size.new count.new class.new result }
{
    returned(xiengmado::client::xm_poll_for_reply_or_error(
        state, requests, store, slots, number, out, fds, found, size, count, class,
    ))
}

#[unsafe(no_mangle)]
pub extern "C" fn xm_poll_check_for_reply_or_error(
    state: &mut [u64],
    requests: &[u8],
    store: &mut [u8],
    slots: &mut [u32],
    number: u64,
    out: &mut [u8],
    res: &mut u8,
    size: &mut usize,
    class: &mut u8,
) -> u32
    ensures { XmPollCheckForReplyOrError state.old requests.now store.old slots.old number out.old res.old size.old class.old state.new store.new slots.new out.new res.new size.new class.new result }
{
    returned(xiengmado::client::xm_poll_check_for_reply_or_error(
        state, requests, store, slots, number, out, res, size, class,
    ))
}

#[unsafe(no_mangle)]
pub extern "C" fn xm_poll_for_reply(
    state: &mut [u64],
    requests: &[u8],
    store: &mut [u8],
    slots: &mut [u32],
    number: u64,
    out: &mut [u8],
    res: &mut u8,
    size: &mut usize,
    class: &mut u8,
) -> u32
    ensures { XmPollForReply state.old requests.now store.old slots.old number out.old res.old size.old class.old state.new store.new slots.new out.new res.new size.new class.new result }
{
    returned(xiengmado::client::xm_poll_for_reply(
        state, requests, store, slots, number, out, res, size, class,
    ))
}

#[unsafe(no_mangle)]
pub extern "C" fn xm_poll_for_event_with_sequence(
    state: &mut [u64],
    requests: &[u8],
    store: &mut [u8],
    slots: &[u32],
    out: &mut [u8],
    found: &mut u8,
    number: &mut u64,
    size: &mut usize,
    class: &mut u8,
) -> u32
    ensures { XmPollForEventWithSequence state.old requests.now store.old slots.now out.old found.old number.old size.old class.old state.new store.new out.new found.new number.new size.new class.new result }
{
    returned(xiengmado::client::xm_poll_for_event_with_sequence(
        state, requests, store, slots, out, found, number, size, class,
    ))
}

#[unsafe(no_mangle)]
pub extern "C" fn xm_take_closed_fds(
    state: &mut [u64],
    requests: &[u8],
    store: &[u8],
    slots: &mut [u32],
    out: &mut [u32],
    count: &mut usize,
) -> u32
    ensures { XmTakeClosedFds state.old requests.now store.now slots.old out.old count.old state.new slots.new out.new count.new result }
{
    returned(xiengmado::client::xm_take_closed_fds(state, requests, store, slots, out, count))
}

#[unsafe(no_mangle)]
pub extern "C" fn xm_prepare_check_for_reply_or_error(
    state: &[u64],
    requests: &[u8],
    store: &[u8],
    slots: &[u32],
    number: u64,
    sync: &mut u8,
) -> u32
    ensures { XmPrepareCheckForReplyOrError state.now requests.now store.now slots.now number sync.old sync.new result }
{
    returned(xiengmado::client::xm_prepare_check_for_reply_or_error(
        state, requests, store, slots, number, sync,
    ))
}

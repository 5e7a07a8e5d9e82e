// `connection`: the public calls that make many steps.
ghost use Rattle.xiengmado.specs.Exports.{XmSendRequests, XmEnqueuePackets, XmPollForEvents};

use answers::returned;

#[unsafe(no_mangle)]
pub extern "C" fn xm_send_requests(
    state: &mut [u64],
    requests: &mut [u8],
    store: &[u8],
    slots: &[u32],
    kinds: &[u8],
    count: &mut usize,
    number: &mut u64,
    stop: &mut u32,
) -> u32
    ensures { XmSendRequests state.old requests.old store.now slots.now kinds.now count.old number.old stop.old state.new requests.new count.new number.new stop.new result }
{
    returned(xiengmado::many::xm_send_requests(
        state, requests, store, slots, kinds, count, number, stop,
    ))
}

#[unsafe(no_mangle)]
pub extern "C" fn xm_enqueue_packets(
    state: &mut [u64],
    requests: &[u8],
    store: &mut [u8],
    slots: &mut [u32],
    bytes: &[u8],
    size: &mut usize,
    count: &mut usize,
    stop: &mut u32,
) -> u32
    ensures { XmEnqueuePackets state.old requests.now store.old slots.old bytes.now size.old count.old stop.old state.new store.new slots.new size.new count.new stop.new result }
{
    returned(xiengmado::many::xm_enqueue_packets(
        state, requests, store, slots, bytes, size, count, stop,
    ))
}

#[unsafe(no_mangle)]
pub extern "C" fn xm_poll_for_events(
    state: &mut [u64],
    requests: &[u8],
    store: &mut [u8],
    slots: &[u32],
    out: &mut [u8],
    marks: &mut [u64],
    count: &mut usize,
    size: &mut usize,
    stop: &mut u32,
) -> u32
    ensures { XmPollForEvents state.old requests.now store.old slots.now out.old marks.old count.old size.old stop.old state.new store.new out.new marks.new count.new size.new stop.new result }
{
    returned(xiengmado::many::xm_poll_for_events(
        state, requests, store, slots, out, marks, count, size, stop,
    ))
}

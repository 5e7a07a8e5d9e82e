// `connection`: the public calls that make many steps. What stopped one is a number: 0 for the end,
// that of the refusal of the next step, 255 for a byte that is no kind, or 254 for part of a packet.
ghost use Rattle.answers.specs.Exported.{returned_of};
ghost use Rattle.xiengmado.specs.Exports.{XmSendRequests, XmEnqueuePackets, XmPollForEvents};

use answers::{give_events, give_fed, give_sent_many};
use refusal::Refusal;

// How many were sent, the last number written and what stopped it.
pub fn xm_send_requests(
    state: &mut [u64],
    requests: &mut [u8],
    store: &[u8],
    slots: &[u32],
    kinds: &[u8],
    count: &mut usize,
    number: &mut u64,
    stop: &mut u32,
) -> Result<(), Refusal>
    ensures { XmSendRequests state.old requests.old store.now slots.now kinds.now count.old number.old stop.old state.new requests.new count.new number.new stop.new (returned_of result) }
{
    let now = rows::connection(state);
    let answer = connection::send_requests(now, requests, store, slots, kinds);
    give_sent_many(answer, state, count, number, stop)
}

// How many bytes were taken, how many packets, and what stopped it.
pub fn xm_enqueue_packets(
    state: &mut [u64],
    requests: &[u8],
    store: &mut [u8],
    slots: &mut [u32],
    bytes: &[u8],
    size: &mut usize,
    count: &mut usize,
    stop: &mut u32,
) -> Result<(), Refusal>
    ensures { XmEnqueuePackets state.old requests.now store.old slots.old bytes.now size.old count.old stop.old state.new store.new slots.new size.new count.new stop.new (returned_of result) }
{
    let now = rows::connection(state);
    let answer = connection::enqueue_packets(now, requests, store, slots, bytes);
    give_fed(answer, state, size, count, stop)
}

// How many events are in the outputs, how many bytes their packets are, and what stopped it.
pub fn xm_poll_for_events(
    state: &mut [u64],
    requests: &[u8],
    store: &mut [u8],
    slots: &[u32],
    out: &mut [u8],
    marks: &mut [u64],
    count: &mut usize,
    size: &mut usize,
    stop: &mut u32,
) -> Result<(), Refusal>
    ensures { XmPollForEvents state.old requests.now store.old slots.now out.old marks.old count.old size.old stop.old state.new store.new out.new marks.new count.new size.new stop.new (returned_of result) }
{
    let now = rows::connection(state);
    let answer = connection::poll_for_events(now, requests, store, slots, out, marks);
    give_events(answer, state, count, size, stop)
}

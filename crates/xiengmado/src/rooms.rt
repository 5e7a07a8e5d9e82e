// What the rooms of a connection hold, read without a state: for those who compare two runs or look
// for a fault. No other function of the library needs these.
ghost use Rattle.answers.specs.Exported.{returned_of};
ghost use Rattle.xiengmado.specs.Exports.{XmRequestAt, XmRecordAt};

use answers::{bit, kind_number, mode_number};
use refusal::Refusal;

// What is kept of the request of a number: whether its reply has descriptors, and its mode (0 none, 1
// DiscardReply, 2 DiscardReplyAndError). Means something for an outstanding number alone. Refused by
// 9 for a room that is not one for 1 to 65,536 requests.
pub fn xm_request_at(
    requests: &[u8],
    number: u64,
    descriptors: &mut u8,
    mode: &mut u8,
) -> Result<(), Refusal>
    ensures { XmRequestAt requests.now number descriptors.old mode.old descriptors.new mode.new (returned_of result) }
{
    if !requests::sized(requests, requests::capacity(requests)) {
        return Err(Refusal::BadRoom);
    }
    let request = requests::get(requests, number);
    *descriptors = bit(request.descriptors);
    *mode = mode_number(request.mode);
    Ok(())
}

// The record that stands at an index of the packet store, before the end of the window: its kind (0
// reply, 1 event), number, packet length and count of descriptors. The packet begins 16 bytes behind
// the index, and the next record where the packet ends. Refused by 9 where no whole record stands
// there.
pub fn xm_record_at(
    store: &[u8],
    at: usize,
    end: usize,
    kind: &mut u8,
    number: &mut u64,
    size: &mut usize,
    count: &mut u8,
) -> Result<(), Refusal>
    ensures { XmRecordAt store.now at end kind.old number.old size.old count.old kind.new number.new size.new count.new (returned_of result) }
{
    if store.len() < end {
        return Err(Refusal::BadRoom);
    }
    if end < at {
        return Err(Refusal::BadRoom);
    }
    let Some(_) = held::record_at(store, at, end) else {
        return Err(Refusal::BadRoom);
    };
    let of = held::kind_at(store, at);
    *kind = kind_number(of);
    *number = held::number_at(store, at);
    *size = held::length_at(store, at);
    *count = held::count_at(store, at);
    Ok(())
}

// What the rooms of a connection hold, read without a state.
ghost use Rattle.xiengmado.specs.Exports.{XmRequestAt, XmRecordAt};

use answers::returned;

#[unsafe(no_mangle)]
pub extern "C" fn xm_request_at(
    requests: &[u8],
    number: u64,
    descriptors: &mut u8,
    mode: &mut u8,
) -> u32
    ensures { XmRequestAt requests.now number descriptors.old mode.old descriptors.new mode.new result }
{
    returned(xiengmado::rooms::xm_request_at(requests, number, descriptors, mode))
}

#[unsafe(no_mangle)]
pub extern "C" fn xm_record_at(
    store: &[u8],
    at: usize,
    end: usize,
    kind: &mut u8,
    number: &mut u64,
    size: &mut usize,
    count: &mut u8,
) -> u32
    ensures { XmRecordAt store.now at end kind.old number.old size.old count.old kind.new number.new size.new count.new result }
{
    returned(xiengmado::rooms::xm_record_at(store, at, end, kind, number, size, count))
}

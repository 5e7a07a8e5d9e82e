// `saving`: a client written to bytes and read back.
ghost use Rattle.xiengmado.specs.ExportsSavepoint.{XmSavepointLength, XmSave, XmRestore};

use answers::returned;

#[unsafe(no_mangle)]
pub extern "C" fn xm_savepoint_length(
    state: &[u64],
    requests: &[u8],
    store: &[u8],
    slots: &[u32],
    reader: &[u64],
    buf: &[u8],
    ids: &[u64],
    length: &mut usize,
) -> u32
    ensures { XmSavepointLength state.now requests.now store.now slots.now reader.now buf.now ids.now length.old length.new result }
{
    returned(xiengmado::savepoints::xm_savepoint_length(
        state, requests, store, slots, reader, buf, ids, length,
    ))
}

#[unsafe(no_mangle)]
pub extern "C" fn xm_save(
    state: &[u64],
    requests: &[u8],
    store: &[u8],
    slots: &[u32],
    reader: &[u64],
    buf: &[u8],
    ids: &[u64],
    out: &mut [u8],
    length: &mut usize,
) -> u32
    ensures { XmSave state.now requests.now store.now slots.now reader.now buf.now ids.now out.old length.old out.new length.new result }
{
    returned(xiengmado::savepoints::xm_save(
        state, requests, store, slots, reader, buf, ids, out, length,
    ))
}

#[unsafe(no_mangle)]
pub extern "C" fn xm_restore(
    bytes: &[u8],
    state: &mut [u64],
    requests: &mut [u8],
    store: &mut [u8],
    slots: &[u32],
    reader: &mut [u64],
    buf: &mut [u8],
    ids: &mut [u64],
) -> u32
    ensures { XmRestore bytes.now state.old requests.old store.old slots.now reader.old buf.old ids.old state.new requests.new store.new reader.new buf.new ids.new result }
{
    returned(xiengmado::savepoints::xm_restore(
        bytes, state, requests, store, slots, reader, buf, ids,
    ))
}

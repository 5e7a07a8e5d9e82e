// `saving`: a client written to bytes and read back. It is a connection, a packet reader and an id
// allocator, each in its row, with the three rooms and the reader's buffer.
ghost use Rattle.std.specs.Prelude.{◌≡◌};
ghost use Rattle.saving.specs.Says.{says_restored};
ghost use Rattle.answers.specs.Exported.{returned_of};
ghost use Rattle.xiengmado.specs.ExportsSavepoint.{client_in, rows_fit, GivesRows, XmSavepointLength, XmSave, XmRestore};

use refusal::Refusal;
use saving::Client;

// How many bytes a savepoint takes.
pub fn xm_savepoint_length(
    state: &[u64],
    requests: &[u8],
    store: &[u8],
    slots: &[u32],
    reader: &[u64],
    buf: &[u8],
    ids: &[u64],
    length: &mut usize,
) -> Result<(), Refusal>
    ensures { XmSavepointLength state.now requests.now store.now slots.now reader.now buf.now ids.now length.old length.new (returned_of result) }
{
    let now = client(state, reader, ids);
    *length = saving::savepoint_length(now, requests, store, slots, buf)?;
    Ok(())
}

// The length is that of the savepoint, which stands at the start of out.
pub fn xm_save(
    state: &[u64],
    requests: &[u8],
    store: &[u8],
    slots: &[u32],
    reader: &[u64],
    buf: &[u8],
    ids: &[u64],
    out: &mut [u8],
    length: &mut usize,
) -> Result<(), Refusal>
    ensures { XmSave state.now requests.now store.now slots.now reader.now buf.now ids.now out.old length.old out.new length.new (returned_of result) }
{
    let now = client(state, reader, ids);
    *length = saving::save(now, requests, store, slots, buf, out)?;
    Ok(())
}

// Rows of other lengths are refused as rooms of other lengths are, behind 19: no slots are lent
// then, so that no room fits.
pub fn xm_restore(
    bytes: &[u8],
    state: &mut [u64],
    requests: &mut [u8],
    store: &mut [u8],
    slots: &[u32],
    reader: &mut [u64],
    buf: &mut [u8],
    ids: &mut [u64],
) -> Result<(), Refusal>
    ensures { XmRestore bytes.now state.old requests.old store.old slots.now reader.old buf.old ids.old state.new requests.new store.new reader.new buf.new ids.new (returned_of result) }
{
    if !fit(state, reader, ids) {
        let none = saving::restore(bytes, requests, store, &slots[..0], buf);
        return give_client(none, state, reader, ids);
    }
    let answer = saving::restore(bytes, requests, store, slots, buf);
    give_client(answer, state, reader, ids)
}

fn client(state: &[u64], reader: &[u64], ids: &[u64]) -> Client
    ensures { result ≡ client_in state.now reader.now ids.now }
{
    Client {
        connection: rows::connection(state),
        reader: rows::reader(reader),
        ids: rows::ids(ids),
    }
}

// Whether the rows are as long as those of a client.
#[tactic(auto, unfolding(crate::specs::ExportsSavepoint::rows_fit, octets::specs::Logic::both))]
fn fit(state: &[u64], reader: &[u64], ids: &[u64]) -> bool
    ensures { result ≡ rows_fit state.now reader.now ids.now }
{
    state.len() == rows::CONNECTION && reader.len() == rows::THREE && ids.len() == rows::THREE
}

fn give_client(
    answer: Result<Client, Refusal>,
    state: &mut [u64],
    reader: &mut [u64],
    ids: &mut [u64],
) -> Result<(), Refusal>
    ensures { GivesRows (says_restored answer) state.old reader.old ids.old state.new reader.new ids.new (returned_of result) }
{
    let next = answer?;
    rows::put_connection(state, next.connection);
    rows::put_reader(reader, next.reader);
    rows::put_ids(ids, next.ids);
    Ok(())
}

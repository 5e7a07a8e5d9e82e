// Savepoints: one client written to bytes and read back (02, M-100).
//
// A client is a connection with its three rooms, a packet reader with its buffer, and an id
// allocator. `savepoint_length` says how many bytes a savepoint takes, `save` writes it, `restore`
// reads one into rooms of the lengths saved. Two sound clients have equal bytes exactly where their
// states are equal, and reading takes exactly what writing can produce: docs/SAVEPOINT.md is the
// page of the format, `savepoint/specs/Calls.antt` says what each call answers.
#![tactic(auto)]

mod finding;
mod laying;
mod places;
mod writing;

ghost use Rattle.std.specs.Prelude.{◌≡◌, ◌+◌, ◌≤◌, ltb};
ghost use Rattle.held.specs.Reading.{used};
ghost use Rattle.descriptors.specs.Room.{total, most_descriptors};
ghost use Rattle.model.specs.Reading.{rooms, count};
ghost use Rattle.savepoint.specs.Calls.{soundb, Measures, Saves, Restores};
ghost use Rattle.saving.specs.Measuring.{Sizable};
ghost use Rattle.saving.specs.Says.{laid_of, says_saved, says_restored};

use descriptors::Counts;
use id_allocator::IdAllocator;
use model::Connection;
use packet_reader::PacketReader;
use refusal::Refusal;

// A client, all but what is lent with it. The rooms stay parameters of their own in the three
// calls: their signatures are what callers and the C interface have.
#[derive(Clone, Copy)]
pub struct Client {
    pub connection: Connection,
    pub reader: PacketReader,
    pub ids: IdAllocator,
}

// How many bytes a savepoint of the client takes. Refused by 9 for an unsound client, then by 18
// while a descriptor is waiting, held or to be closed.
pub fn savepoint_length(
    client: Client,
    requests: &[u8],
    store: &[u8],
    slots: &[u32],
    buf: &[u8],
) -> Result<usize, Refusal>
    ensures { Measures (laid_of client (rooms requests.now store.now slots.now) buf.now) (says_saved result) }
{
    if !is_sound(client, requests, store, slots, buf) {
        return Err(Refusal::BadRoom);
    }
    let connection = client.connection;
    let counts = connection.counts;
    if holds(counts) {
        return Err(Refusal::HasDescriptors);
    }
    Ok(size(client))
}

// The savepoint at the start of out; the bytes behind it stay. Refused by 9, 18, and 8 where out is
// too small.
pub fn save(
    client: Client,
    requests: &[u8],
    store: &[u8],
    slots: &[u32],
    buf: &[u8],
    out: &mut [u8],
) -> Result<usize, Refusal>
    ensures { Saves (laid_of client (rooms requests.now store.now slots.now) buf.now) out.old (says_saved result) out.new }
{
    let n = savepoint_length(client, requests, store, slots, buf)?;
    if out.len() < n {
        return Err(Refusal::OutShort);
    }
    writing::write(client, requests, store, buf, out);
    Ok(n)
}

// A savepoint read into these rooms, whose unused bytes stay. Refused by 19 for bytes that are no
// savepoint, then by 9 for rooms of other lengths than those saved.
pub fn restore(
    bytes: &[u8],
    requests: &mut [u8],
    store: &mut [u8],
    slots: &[u32],
    buf: &mut [u8],
) -> Result<Client, Refusal>
    ensures { Restores bytes.now (rooms requests.old store.old slots.now) buf.old (says_restored result) (rooms requests.new store.new slots.now) buf.new }
{
    let saved = finding::found(bytes).ok_or(Refusal::BadSavepoint)?;
    if !saved.fits(requests, store, slots, buf) {
        return Err(Refusal::BadRoom);
    }
    saved.fill_requests(requests);
    saved.fill_store(store);
    saved.fill_buffer(buf);
    Ok(saved.client())
}

// Whether each part of the client is sound with what is lent with it.
fn is_sound(client: Client, requests: &[u8], store: &[u8], slots: &[u32], buf: &[u8]) -> bool
    ensures { result ≡ soundb (laid_of client (rooms requests.now store.now slots.now) buf.now) }
{
    if !model::is_sound(client.connection, requests, store, slots) {
        return false;
    }
    if !packet_reader::is_sound(client.reader, buf) {
        return false;
    }
    id_allocator::is_sound(client.ids)
}

// Whether a descriptor is waiting, held or to be closed.
fn holds(counts: Counts) -> bool
    requires { total counts ≤ most_descriptors }
    ensures { result ≡ ltb 0 (total counts) }
{
    0 < counts.closed + counts.held + counts.waiting
}

// The bytes of the counts and of what has a fixed size.
const FIXED: usize = 116;

fn size(client: Client) -> usize
    requires { Sizable client.connection client.reader }
    ensures { result ≡ 116 + (count client.connection + used client.connection.window + client.reader.filled) }
{
    let connection = client.connection;
    let window = connection.window;
    let reader = client.reader;
    let count = (connection.written + 1 - connection.first) as usize;
    FIXED + (count + (window.end - window.start) + reader.filled)
}

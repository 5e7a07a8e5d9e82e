// Reading: what was found is laid into the rooms.
ghost use Rattle.std.specs.Prelude.{◌≡◌, ◌++◌, map, ◌+◌, ◌-◌, ◌≤◌, ◌<◌, length};
ghost use Rattle.octets.specs.Bytes.{little_order};
ghost use Rattle.octets.specs.Put.{put};
ghost use Rattle.octets.specs.Field.{field};
ghost use Rattle.requests.specs.Room.{capacity};
ghost use Rattle.model.specs.Reading.{rooms};
ghost use Rattle.savepoint.specs.Saved.{code_mode, code_request};
ghost use Rattle.savepoint.specs.Calls.{put_all};
ghost use Rattle.saving.specs.Laying.{Places, part, first_at, reader_at, connection_at, client_at, fits_at};

use crate::finding::Plan;
use crate::places::{
    BUFFER, CAPACITY, COUNT, EXPECTED, ORDER, READ, READER_ORDER, REQUESTS, ROOM, WRITTEN,
};
use crate::{Client, finding};
use descriptors::Counts;
use held::Window;
use model::Connection;
use packet_reader::PacketReader;
use requests::{Mode, Request};

// Bytes that are a savepoint, with where its sections begin.
#[derive(Clone, Copy)]
pub struct Savepoint<'a> {
    pub bytes: &'a [u8],
    pub plan: Plan,
    ghost places: { Places bytes.now plan },
}

impl Savepoint<'_> {
    fn number(&self, at: usize) -> u64
        requires { at + 8 ≤ 72 }
        ensures { result ≡ field little_order at 8 self.now.bytes.now }
    {
        octets::get_u64(octets::LITTLE, self.bytes, at)
    }

    fn reader(&self) -> PacketReader
        ensures { result ≡ reader_at self.now.bytes.now self.now.plan }
    {
        let order = self.number(READER_ORDER) as u8;
        let start = self.plan.partial + COUNT;
        let end = self.plan.ids;
        let filled = end - start;
        let target = packet_reader::wanted(order, &self.bytes[start..end]);
        PacketReader {
            order,
            filled,
            target,
        }
    }

    // The number of the first outstanding request.
    fn first(&self) -> u64
        ensures { result ≡ first_at self.now.bytes.now self.now.plan.replies }
    {
        let count = self.plan.replies - (REQUESTS + COUNT);
        self.number(WRITTEN) + 1 - count as u64
    }

    fn connection(&self) -> Connection
        ensures { result ≡ connection_at self.now.bytes.now self.now.plan }
    {
        let used = self.plan.partial - self.plan.replies - 2 * COUNT;
        Connection {
            order: self.number(ORDER) as u8,
            capacity: self.number(CAPACITY) as usize,
            room: self.number(ROOM) as usize,
            written: self.number(WRITTEN),
            expected: self.number(EXPECTED),
            read: self.number(READ),
            first: self.first(),
            window: Window {
                start: 0,
                end: used,
            },
            counts: Counts {
                closed: 0,
                held: 0,
                waiting: 0,
            },
        }
    }

    // The client whose sections stand there.
    pub(crate) fn client(&self) -> Client
        ensures { result ≡ client_at self.now.bytes.now self.now.plan }
    {
        Client {
            connection: self.connection(),
            reader: self.reader(),
            ids: finding::ids_of(self.bytes, self.plan.ids),
        }
    }

    // Whether rooms and buffer have the lengths saved.
    pub(crate) fn fits(&self, requests: &[u8], store: &[u8], slots: &[u32], buf: &[u8]) -> bool
        ensures { result ≡ fits_at self.now.bytes.now (rooms requests.now store.now slots.now) buf.now }
    {
        if requests::capacity(requests) as u64 != self.number(CAPACITY) {
            return false;
        }
        if store.len() as u64 != self.number(ROOM) {
            return false;
        }
        if slots.len() != descriptors::MOST_DESCRIPTORS {
            return false;
        }
        buf.len() as u64 == self.number(BUFFER)
    }

    // Each outstanding request under its number.
    pub(crate) fn fill_requests(&self, requests: &mut [u8])
        requires { 0 < capacity requests.old }
        ensures { requests.new ≡ put_all requests.old (first_at self.now.bytes.now self.now.plan.replies) (map code_request (part self.now.bytes.now 76 self.now.plan.replies)) }
    {
        let bytes = self.bytes;
        let start = REQUESTS + COUNT;
        let end = self.plan.replies;
        let first = self.first();
        for at in start..end {
            requests::put(requests, first + (at - start) as u64, request_of(bytes[at]));
        }
    }

    // The records as they are: replies, then events.
    pub(crate) fn fill_store(&self, store: &mut [u8])
        requires { self.now.plan.partial - self.now.plan.replies - 8 ≤ length store.old }
        ensures { store.new ≡ put store.old 0 (part self.now.bytes.now (self.now.plan.replies + 4) self.now.plan.events ++ part self.now.bytes.now (self.now.plan.events + 4) self.now.plan.partial) }
    {
        let replies = self.plan.replies + COUNT;
        let between = self.plan.events;
        let events = between + COUNT;
        let end = self.plan.partial;
        octets::copy_in(store, 0, &self.bytes[replies..between]);
        octets::copy_in(store, between - replies, &self.bytes[events..end]);
    }

    // The bytes of the partial packet.
    pub(crate) fn fill_buffer(&self, buf: &mut [u8])
        requires { self.now.plan.ids - (self.now.plan.partial + 4) ≤ length buf.old }
        ensures { buf.new ≡ put buf.old 0 (part self.now.bytes.now (self.now.plan.partial + 4) self.now.plan.ids) }
    {
        let start = self.plan.partial + COUNT;
        let end = self.plan.ids;
        octets::copy_in(buf, 0, &self.bytes[start..end]);
    }
}

// Codes read back. These stay functions, and no `From`: both types are of other crates, and the codes
// are the format's own, which `requests` knows nothing of.
fn request_of(code: u8) -> Request
    ensures { result ≡ code_request code }
{
    Request {
        descriptors: code % 2 == 1,
        mode: mode_of(code / 2),
    }
}

fn mode_of(number: u8) -> Mode
    ensures { result ≡ code_mode number }
{
    match number {
        0 => Mode::Keep,
        1 => Mode::DiscardReply,
        _ => Mode::DiscardReplyAndError,
    }
}

// The bytes of a savepoint, section by section: each function writes one over the bytes of the
// output from an index on, and answers the index behind it.
//
// Output and index stay two values, tried as one type: a struct that holds a `&mut` has to promise
// of each method that it still holds the same borrow, by its `ghost_name`, and what the output is
// at the end is then proved only by a name that the checker makes up. That is no plainer.
ghost use Rattle.std.specs.Prelude.{◌≡◌, [], ◌∷◌, ◌++◌, ◌+◌, ◌*◌, ◌≤◌, ◌<◌, ◌^◌, length, take, drop};
ghost use Rattle.std.proofs.Props.{props};
ghost use Rattle.octets.specs.Bytes.{word};
ghost use Rattle.octets.specs.Put.{put};
ghost use Rattle.form.specs.Form.{number, byte, counted, writes};
ghost use Rattle.requests.specs.Room.{capacity, outstanding};
ghost use Rattle.held.specs.Head.{most_store, reply, event};
ghost use Rattle.held.specs.Reading.{Readable, records, only, flat};
ghost use Rattle.savepoint.specs.Saved.{request, mode_code, request_code};
ghost use Rattle.saving.specs.WritingFile.{Writable, Written};
ghost use Rattle.saving.specs.WritingRows.{Copies, Counts, fits_prop};

use crate::Client;
use crate::places::{COUNT, NUMBER};
use held::Window;
use requests::{Mode, Request};

// The whole file, over the bytes of the output from its start on.
pub(crate) fn write(client: Client, requests: &[u8], store: &[u8], buf: &[u8], out: &mut [u8])
    requires { Writable client.connection requests.now store.now client.reader buf.now out.old }
    ensures { Written client.connection requests.now store.now client.reader buf.now client.ids out.old out.new }
{
    let c = client.connection;
    let reader = client.reader;
    let ids = client.ids;
    let stored = Stored {
        store,
        window: c.window,
    };
    let first = c.first;
    let count = (c.written + 1 - first) as usize;
    let numbers = [c.written, c.expected, c.read];
    let settings = [
        c.order as u64,
        c.capacity as u64,
        c.room as u64,
        reader.order as u64,
        buf.len() as u64,
    ];
    let a = put_numbers(out, 0, &numbers);
    let b = put_numbers(out, a, &settings);
    let d = put_requests(out, b, requests, first, count);
    let e = stored.put_kind(out, d, held::IN_REPLIES);
    let f = stored.put_events(out, e);
    let g = put_run(out, f, buf, reader.filled);
    put_numbers(out, g, &[ids.next, ids.last, ids.step]);
}

// So many numbers.
fn put_numbers(out: &mut [u8], to: usize, numbers: &[u64]) -> usize
    requires { (length numbers.now ≤ 8) × (to + (4 + 8 * length numbers.now) ≤ length out.old) }
    ensures { (result ≡ to + (4 + 8 * length numbers.now)) × (out.new ≡ put out.old to ((counted 4 (number 8)).write numbers.now)) }
{
    let count = numbers.len();
    octets::put_u32(octets::LITTLE, out, to, count as u32);
    for i in 0..count {
        octets::put_u64(octets::LITTLE, out, to + (COUNT + NUMBER * i), numbers[i]);
    }
    to + (COUNT + NUMBER * count)
}

// The first n bytes of a buffer.
fn put_run(out: &mut [u8], to: usize, buf: &[u8], n: usize) -> usize
    requires { (n ≤ length buf.now) × (n < 2 ^ 32) × (to + (4 + n) ≤ length out.old) }
    ensures { (result ≡ to + (4 + n)) × (out.new ≡ put out.old to ((counted 4 byte).write (take n buf.now))) }
{
    octets::put_u32(octets::LITTLE, out, to, n as u32);
    octets::copy_in(out, to + COUNT, &buf[0..n]);
    to + (COUNT + n)
}

// A mode's code stays a function, and no `From`: both types are of other crates, and the codes are
// the format's own, which no other crate may follow by a cast.
fn mode_code(mode: Mode) -> u8
    ensures { result ≡ mode_code mode }
{
    match mode {
        Mode::Keep => 0,
        Mode::DiscardReply => 1,
        Mode::DiscardReplyAndError => 2,
    }
}

// The byte of a request in a savepoint: twice its mode, and 1 if its reply has descriptors.
fn code_of(request: Request) -> u8
    ensures { result ≡ request_code request }
{
    2 * mode_code(request.mode) + u8::from(request.descriptors)
}

// The codes of count requests, the oldest of number first.
fn put_codes(out: &mut [u8], to: usize, requests: &[u8], first: u64, count: usize)
    requires { (0 < capacity requests.now) × (first + count < 2 ^ 64) × (to + count ≤ length out.old) }
    ensures { out.new ≡ put out.old to (writes request (outstanding requests.now first count)) }
{
    for i in 0..count {
        out[to + i] = code_of(requests::get(requests, first + i as u64));
    }
}

// The outstanding requests.
fn put_requests(out: &mut [u8], to: usize, requests: &[u8], first: u64, count: usize) -> usize
    requires { (0 < capacity requests.now) × (first + count < 2 ^ 64) × (count < 2 ^ 32) × (to + (4 + count) ≤ length out.old) }
    ensures { (result ≡ to + (4 + count)) × (out.new ≡ put out.old to ((counted 4 request).write (outstanding requests.now first count))) }
{
    octets::put_u32(octets::LITTLE, out, to, count as u32);
    put_codes(out, to + COUNT, requests, first, count);
    to + (COUNT + count)
}

// What a walk over a window copied: where it ends, how many records it is, and how many it passed
// in all.
#[derive(Clone, Copy)]
struct Passed {
    end: usize,
    count: usize,
    all: usize,
}

// A store whose window holds whole records.
#[derive(Clone, Copy)]
struct Stored<'a> {
    store: &'a [u8],
    window: Window,
    ghost readable: { Readable window store.now } by { Prim.hlevel (props, fits_prop) },
}

impl Stored<'_> {
    // The records of a kind, each with the bytes that it has in the store. The loop stays one over
    // an index: its step is the record's own length.
    fn copy_kind(&self, out: &mut [u8], start: usize, kind: u8) -> Passed
        requires { start + length (flat (only kind (records self.now.window self.now.store.now))) ≤ length out.old }
        ensures { Copies (records self.now.window self.now.store.now) kind start out.old result out.new }
    {
        let store = self.store;
        let end = self.window.end;
        let mut at = self.window.start;
        let mut passed = Passed {
            end: start,
            count: 0,
            all: 0,
        };
        while at < end {
            let size = held::HEADER + held::length_at(store, at);
            if held::kind_at(store, at) == kind {
                octets::copy_in(out, passed.end, &store[at..at + size]);
                passed.end += size;
                passed.count += 1;
            }
            at += size;
            passed.all += 1;
        }
        passed
    }

    // The held packets of a kind. Their count is known once they are copied, and then put before
    // them.
    fn put_kind(&self, out: &mut [u8], to: usize, kind: u8) -> Passed
        requires { to + (4 + length (flat (only kind (records self.now.window self.now.store.now)))) ≤ length out.old }
        ensures { (result.end ≡ to + (4 + length (flat (only kind (records self.now.window self.now.store.now))))) × (out.new ≡ put out.old to (word 4 (length (only kind (records self.now.window self.now.store.now))) ++ flat (only kind (records self.now.window self.now.store.now)))) × Counts (records self.now.window self.now.store.now) kind result }
    {
        let passed = self.copy_kind(out, to + COUNT, kind);
        octets::put_u32(octets::LITTLE, out, to, passed.count as u32);
        passed
    }

    // All records of the window, in one go.
    fn put_window(&self, out: &mut [u8], to: usize, count: usize) -> usize
        requires { (count ≡ length (records self.now.window self.now.store.now)) × (count ≤ most_store) × (to + (4 + length (flat (records self.now.window self.now.store.now))) ≤ length out.old) }
        ensures { (result ≡ to + (4 + length (flat (records self.now.window self.now.store.now)))) × (out.new ≡ put out.old to (word 4 (length (records self.now.window self.now.store.now)) ++ flat (records self.now.window self.now.store.now))) }
    {
        let start = self.window.start;
        let end = self.window.end;
        octets::put_u32(octets::LITTLE, out, to, count as u32);
        octets::copy_in(out, to + COUNT, &self.store[start..end]);
        to + (COUNT + (end - start))
    }

    // The events, behind the replies: where there are none of these, they are the whole window.
    fn put_events(&self, out: &mut [u8], replies: Passed) -> usize
        requires { Counts (records self.now.window self.now.store.now) reply replies × (replies.end + (4 + length (flat (only event (records self.now.window self.now.store.now)))) ≤ length out.old) }
        ensures { (result ≡ replies.end + (4 + length (flat (only event (records self.now.window self.now.store.now))))) × (out.new ≡ put out.old replies.end (word 4 (length (only event (records self.now.window self.now.store.now))) ++ flat (only event (records self.now.window self.now.store.now)))) }
    {
        if replies.count == 0 {
            return self.put_window(out, replies.end, replies.all);
        }
        self.put_kind(out, replies.end, held::IN_EVENTS).end
    }
}

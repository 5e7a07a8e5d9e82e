// Reading: the sections of a savepoint are tested where they stand, and nothing is written.
ghost use Rattle.std.specs.Prelude.{◌≡◌, ◌+◌, ◌≤◌, length, drop};
ghost use Rattle.std.specs.List.{list_all};
ghost use Rattle.octets.specs.Logic.{choose};
ghost use Rattle.held.specs.Head.{header_size};
ghost use Rattle.form.specs.At.{At, Behind, long, any};
ghost use Rattle.saving.specs.Codes.{is_code, any_requests};
ghost use Rattle.saving.specs.Records.{ok_rows, good_at, checked, EndSays};
ghost use Rattle.octets.specs.Bytes.{legal};
ghost use Rattle.saving.specs.Finding.{NumbersSay, PartialSays, Bounds, RangeSays, HeldFound, SectionsFound};
ghost use Rattle.saving.specs.Planned.{numbers, requests, helds, bytes as byteRun, ids_at};
ghost use Rattle.saving.specs.Told.{Planned};

use crate::laying::Savepoint;
use crate::places::{
    BUFFER, CAPACITY, COUNT, EXPECTED, NUMBER, ORDER, READ, READER_ORDER, REQUESTS, ROOM, WRITTEN,
};
use id_allocator::IdAllocator;

// The last code of a request.
const LAST_CODE: u8 = 5;

// Where the sections behind the first two begin.
#[derive(Clone, Copy)]
pub struct Plan {
    pub replies: usize,
    pub events: usize,
    pub partial: usize,
    pub ids: usize,
}

// ---- sections, each from an index on: the index behind it, where one stands there

// A section of k numbers.
fn numbers_at(bytes: &[u8], at: usize, k: usize) -> Option<usize>
    requires { (at ≤ length bytes.now) × (k ≤ 8) }
    ensures { Behind (At numbers (long k) bytes.now at) result }
{
    let room = bytes.len() - at;
    if room < COUNT + NUMBER * k {
        return None;
    }
    let count = octets::get_u32(octets::LITTLE, bytes, at) as usize;
    if count != k {
        return None;
    }
    Some(at + (COUNT + NUMBER * k))
}

// A section of bytes.
fn run_at(bytes: &[u8], at: usize) -> Option<usize>
    requires { at ≤ length bytes.now }
    ensures { Behind (At byteRun any bytes.now at) result }
{
    let room = bytes.len() - at;
    if room < COUNT {
        return None;
    }
    let count = octets::get_u32(octets::LITTLE, bytes, at) as usize;
    if room - COUNT < count {
        return None;
    }
    Some(at + (COUNT + count))
}

// A section of requests.
fn requests_at(bytes: &[u8], at: usize) -> Option<usize>
    requires { at ≤ length bytes.now }
    ensures { Behind (At requests any_requests bytes.now at) result }
{
    let end = run_at(bytes, at)?;
    if !are_codes(&bytes[at + COUNT..end]) {
        return None;
    }
    Some(end)
}

// Whether each byte is the code of a request. One pass without an early exit, so that it is
// vectorised.
fn are_codes(bytes: &[u8]) -> bool
    ensures { result ≡ list_all is_code bytes.now }
{
    let mut good = true;
    for &code in bytes {
        if LAST_CODE < code {
            good = false;
        }
    }
    good
}

// A section of held packets of a kind, with numbers up to the last, which never fall where they
// must rise.
fn held_at(bytes: &[u8], at: usize, kind: u8, last: u64, rising: bool) -> Option<usize>
    requires { at ≤ length bytes.now }
    ensures { Behind (At (helds kind) (ok_rows rising 0 last) bytes.now at) result }
{
    let room = bytes.len() - at;
    if room < COUNT {
        return None;
    }
    let count = octets::get_u32(octets::LITTLE, bytes, at) as usize;
    rows_at(bytes, at + COUNT, count, kind, last, rising)
}

// So many records from an index on.
fn rows_at(
    bytes: &[u8],
    start: usize,
    count: usize,
    kind: u8,
    last: u64,
    rising: bool,
) -> Option<usize>
    requires { (1 ≤ start) × (start ≤ length bytes.now) }
    ensures { Behind (λ end. EndSays bytes.now end (checked rising kind 0 last count (drop start bytes.now))) result }
{
    let end = bytes.len();
    let mut at = start;
    let mut from: u64 = 0;
    for _ in 0..count {
        let size = held::record_at(bytes, at, end)?;
        if !is_good(bytes, at, kind, from, last) {
            return None;
        }
        from = pick(rising, held::number_at(bytes, at));
        at += size;
    }
    Some(at)
}

// Whether the record at an index is of the kind, without descriptors, from a number on and up to
// another.
fn is_good(bytes: &[u8], at: usize, kind: u8, from: u64, last: u64) -> bool
    requires { at + header_size ≤ length bytes.now }
    ensures { result ≡ good_at kind from last (drop at bytes.now) }
{
    let number = held::number_at(bytes, at);
    if number < from {
        return false;
    }
    if last < number {
        return false;
    }
    if held::kind_at(bytes, at) != kind {
        return false;
    }
    held::count_at(bytes, at) == 0
}

fn pick(rising: bool, n: u64) -> u64
    ensures { result ≡ choose rising n 0 }
{
    if rising { n } else { 0 }
}

// ---- all of them

// The savepoint that the bytes are, if they are those of a sound client.
pub(crate) fn found(bytes: &[u8]) -> Option<Savepoint<'_>>
    ensures { Planned bytes.now result }
{
    let plan = sections(bytes)?;
    if !in_range(bytes, plan) {
        return None;
    }
    Some(Savepoint { bytes, plan })
}

// The seven sections, one behind the other up to the last byte.
fn sections(bytes: &[u8]) -> Option<Plan>
    ensures { SectionsFound bytes.now result }
{
    let settings = numbers_at(bytes, 0, 3)?;
    let requests = numbers_at(bytes, settings, 5)?;
    let replies = requests_at(bytes, requests)?;
    held_sections(bytes, replies)
}

// The last four of them, from an index on.
fn held_sections(bytes: &[u8], replies: usize) -> Option<Plan>
    requires { (28 ≤ length bytes.now) × (replies ≤ length bytes.now) }
    ensures { HeldFound bytes.now replies result }
{
    let last = octets::get_u64(octets::LITTLE, bytes, READ);
    let events = held_at(bytes, replies, held::IN_REPLIES, last, true)?;
    let partial = held_at(bytes, events, held::IN_EVENTS, last, false)?;
    let ids = run_at(bytes, partial)?;
    if numbers_at(bytes, ids, 3)? != bytes.len() {
        return None;
    }
    Some(Plan {
        replies,
        events,
        partial,
        ids,
    })
}

fn in_range(bytes: &[u8], plan: Plan) -> bool
    requires { Bounds bytes.now plan }
    ensures { RangeSays bytes.now plan result }
{
    let used = plan.partial - plan.replies - 2 * COUNT;
    if octets::get_u64(octets::LITTLE, bytes, ROOM) < used as u64 {
        return false;
    }
    if !numbers_in_range(bytes, plan.replies - REQUESTS - COUNT) {
        return false;
    }
    if !partial_in_range(bytes, plan.partial, plan.ids) {
        return false;
    }
    id_allocator::is_sound(ids_of(bytes, plan.ids))
}

// The full numbers, order and lengths of the connection, with so many outstanding requests.
fn numbers_in_range(bytes: &[u8], count: usize) -> bool
    requires { 72 ≤ length bytes.now }
    ensures { NumbersSay bytes.now count result }
{
    if !is_order(octets::get_u64(octets::LITTLE, bytes, ORDER)) {
        return false;
    }
    let most = octets::get_u64(octets::LITTLE, bytes, CAPACITY);
    if most < 1 {
        return false;
    }
    if (requests::MOST_REQUESTS as u64) < most {
        return false;
    }
    let room = octets::get_u64(octets::LITTLE, bytes, ROOM);
    if room < model::LEAST_STORE as u64 {
        return false;
    }
    if (held::MOST_STORE as u64) < room {
        return false;
    }
    let written = octets::get_u64(octets::LITTLE, bytes, WRITTEN);
    if sequence::LAST_NUMBER < written {
        return false;
    }
    if sequence::LAST_NUMBER < octets::get_u64(octets::LITTLE, bytes, EXPECTED) {
        return false;
    }
    if sequence::LAST_NUMBER < octets::get_u64(octets::LITTLE, bytes, READ) {
        return false;
    }
    if written < count as u64 {
        return false;
    }
    if most < count as u64 {
        return false;
    }
    true
}

fn is_order(n: u64) -> bool
    ensures { result ≡ legal n }
{
    if 255 < n {
        return false;
    }
    octets::is_legal(n as u8)
}

// The reader's order and buffer, with the partial packet of a section that begins and ends there.
fn partial_in_range(bytes: &[u8], at: usize, end: usize) -> bool
    requires { (72 ≤ length bytes.now) × (at + 4 ≤ end) × (end + 28 ≤ length bytes.now) }
    ensures { PartialSays bytes.now at end result }
{
    let room = octets::get_u64(octets::LITTLE, bytes, BUFFER);
    if room < packet::LEAST_PACKET as u64 {
        return false;
    }
    if (packet_reader::MOST_BUFFER as u64) < room {
        return false;
    }
    let order = octets::get_u64(octets::LITTLE, bytes, READER_ORDER);
    if !is_order(order) {
        return false;
    }
    let start = at + COUNT;
    let filled = end - start;
    let target = packet_reader::wanted(order as u8, &bytes[start..end]);
    if room < target as u64 {
        return false;
    }
    if target <= filled {
        return false;
    }
    true
}

// The allocator of the section at an index.
pub(crate) fn ids_of(bytes: &[u8], at: usize) -> IdAllocator
    requires { at + 28 ≤ length bytes.now }
    ensures { result ≡ ids_at bytes.now at }
{
    let next = octets::get_u64(octets::LITTLE, bytes, at + 4);
    let last = octets::get_u64(octets::LITTLE, bytes, at + 12);
    let step = octets::get_u64(octets::LITTLE, bytes, at + 20);
    IdAllocator { next, last, step }
}

// What stands behind the bar: byte order and rooms, the packets' bytes, the reader, the ids and the
// handshake. Bytes are shown as a digest or, in full, in hex; where there are none, nothing is.
ghost use Rattle.std.specs.Prelude.{◌≡◌, length};

use crate::digest;
use crate::records::Records;
use held::Window;
use id_allocator::IdAllocator;
use text::{Page, Span};

// What is there of a packet or of a setup: byte order, how long its buffer is, and the bytes of the
// run that are filled.
#[derive(Clone, Copy)]
pub struct Partial {
    pub order: u8,
    pub room: usize,
    pub filled: Span,
}

// What counts as state beside `Told`: the connection's byte order and rooms, the reader, the
// allocator, and the handshake. The window says where packets are.
#[derive(Clone, Copy)]
pub struct Beside {
    pub order: u8,
    pub requests: usize,
    pub store: usize,
    pub window: Window,
    pub reader: Partial,
    pub ids: Option<IdAllocator>,
    pub handshake: Partial,
}

// `full` stays a flag: it also writes a word.
pub fn behind(page: &mut Page<impl Print>, b: Beside, full: bool, store: &[u8])
    ensures { length page.new.run.now ≡ length page.old.run.now }
{
    rooms(page, b, full);
    held_bytes(page, b.window, full, store);
    part(page, b" reader ", b.reader, full);
    ids(page, b.ids);
    part(page, b" handshake ", b.handshake, full);
}

fn rooms(page: &mut Page<impl Print>, b: Beside, full: bool)
    ensures { length page.new.run.now ≡ length page.old.run.now }
{
    page.word(b" |");
    if full {
        page.word(b" full");
    }
    lettered(page, b" order ", b.order);
    page.counted(b" rooms ", b.requests as u64);
    page.counted(b" ", b.store as u64);
}

fn lettered(page: &mut Page<impl Print>, word: &[u8], letter: u8)
    ensures { length page.new.run.now ≡ length page.old.run.now }
{
    page.word(word);
    page.word(&[letter]);
}

// Events first, as before the bar: where replies stand among them is no state.
fn held_bytes(page: &mut Page<impl Print>, window: Window, full: bool, store: &[u8])
    ensures { length page.new.run.now ≡ length page.old.run.now }
{
    page.word(b" held");
    if window.end <= window.start {
        return;
    }
    if full {
        hex(page, store, window, held::IN_EVENTS);
        hex(page, store, window, held::IN_REPLIES);
        return;
    }
    let h = fold(digest::EMPTY, store, window, held::IN_EVENTS);
    digest::tell(page, fold(h, store, window, held::IN_REPLIES));
}

// The packets of a kind in hex.
fn hex(page: &mut Page<impl Print>, store: &[u8], window: Window, kind: u8)
    ensures { length page.new.run.now ≡ length page.old.run.now }
{
    for record in Records::of(store, window) {
        if record.label.kind == kind {
            page.hex(record.packet());
        }
    }
}

// The digest of the records of a kind, behind bytes of which it is h.
fn fold(h: u64, store: &[u8], window: Window, kind: u8) -> u64 {
    let mut now = h;
    for record in Records::of(store, window) {
        if record.label.kind == kind {
            now = digest::fold(now, record.bytes);
        }
    }
    now
}

fn part(page: &mut Page<impl Print>, word: &[u8], p: Partial, full: bool)
    ensures { length page.new.run.now ≡ length page.old.run.now }
{
    lettered(page, word, p.order);
    page.counted(b" ", p.room as u64);
    page.counted(b" ", p.filled.length() as u64);
    if p.filled.length() == 0 {
        return;
    }
    if full {
        page.packet(p.filled);
        return;
    }
    let h = digested(page.run, p.filled);
    digest::tell(page, h);
}

fn digested(run: &[u8], part: Span) -> u64 {
    digest::fold(digest::EMPTY, part.of(run))
}

fn ids(page: &mut Page<impl Print>, ids: Option<IdAllocator>)
    ensures { length page.new.run.now ≡ length page.old.run.now }
{
    let Some(ids) = ids else {
        page.word(b" ids none");
        return;
    };
    page.counted(b" ids ", ids.next);
    page.counted(b" ", ids.last);
    page.counted(b" ", ids.step);
}

// Inside: what a script works on as text, for `replay`: all that counts as state. `line` has the
// connection, in the order of the rooms, and `behind` the rest, behind a bar.
//
// Text goes behind what waits on a page (`text`). Nothing here is promised but that it is safe and
// ends.
#![tactic(auto)]

mod bar;
mod digest;
mod records;

ghost use Rattle.std.specs.Prelude.{◌≡◌, length};

pub use bar::{Beside, Partial, behind};
use descriptors::Counts;
use held::Window;
use records::{Record, Records};
use requests::{Mode, Request};
use text::Page;

// What counts as state beside the rooms. It stays beside the connection's own type, since nothing here
// knows a connection.
#[derive(Clone, Copy)]
pub struct Told {
    pub written: u64,
    pub expected: u64,
    pub read: u64,
    pub first: u64,
    pub window: Window,
    pub counts: Counts,
}

pub fn line(page: &mut Page<impl Print>, c: Told, requests: &[u8], store: &[u8], slots: &[u32])
    ensures { length page.new.run.now ≡ length page.old.run.now }
{
    page.counted(b" written ", c.written);
    page.counted(b" expected ", c.expected);
    page.counted(b" read ", c.read);
    outstanding(page, c, requests);
    events(page, store, c.window);
    replies(page, store, c.window, slots, c.counts.closed);
    waiting(page, c.counts, slots);
    used(page, c.window);
}

// ---- outstanding requests, as runs of equal ones

fn outstanding(page: &mut Page<impl Print>, c: Told, requests: &[u8])
    ensures { length page.new.run.now ≡ length page.old.run.now }
{
    page.word(b" out");
    if c.written < c.first {
        return;
    }
    page.counted(b" ", c.first);
    runs(page, requests, c.first, c.written);
}

// The runs of the requests from first to last.
fn runs(page: &mut Page<impl Print>, requests: &[u8], first: u64, last: u64)
    ensures { length page.new.run.now ≡ length page.old.run.now }
{
    let mut letter = letter_at(requests, first);
    let mut count: u64 = 0;
    for number in first..=last {
        let now = letter_at(requests, number);
        if now != letter {
            run(page, count, letter);
            letter = now;
            count = 0;
        }
        count = count.saturating_add(1);
    }
    run(page, count, letter);
}

fn run(page: &mut Page<impl Print>, count: u64, letter: u8)
    ensures { length page.new.run.now ≡ length page.old.run.now }
{
    page.counted(b" ", count);
    page.word(&[letter]);
}

fn letter_at(requests: &[u8], number: u64) -> u8 {
    if requests::capacity(requests) == 0 {
        return b'?';
    }
    letter_of(requests::get(requests, number))
}

// n, r, b for no mode, DiscardReply, DiscardReplyAndError; the capital where the reply has
// descriptors.
fn letter_of(request: Request) -> u8 {
    let letter = match request.mode {
        Mode::Keep => b'n',
        Mode::DiscardReply => b'r',
        Mode::DiscardReplyAndError => b'b',
    };
    if request.descriptors {
        letter.to_ascii_uppercase()
    } else {
        letter
    }
}

// ---- held packets

fn events(page: &mut Page<impl Print>, store: &[u8], window: Window)
    ensures { length page.new.run.now ≡ length page.old.run.now }
{
    page.word(b" events");
    for record in Records::of(store, window) {
        if record.label.kind == held::IN_EVENTS {
            numbered(page, record);
        }
    }
}

// Its number and the length of its packet.
fn numbered(page: &mut Page<impl Print>, record: Record)
    ensures { length page.new.run.now ≡ length page.old.run.now }
{
    page.counted(b" ", record.label.number);
    page.counted(b":", record.len as u64);
}

// The descriptors of the first reply stand from an index on.
fn replies(page: &mut Page<impl Print>, store: &[u8], window: Window, slots: &[u32], closed: usize)
    ensures { length page.new.run.now ≡ length page.old.run.now }
{
    let mut fds = closed;
    page.word(b" replies");
    for record in Records::of(store, window) {
        let count = record.label.fds as usize;
        if record.label.kind == held::IN_REPLIES {
            numbered(page, record);
            colons(page, slots, fds, count);
        }
        fds = fds.saturating_add(count);
    }
}

// count descriptors from an index on.
fn colons(page: &mut Page<impl Print>, slots: &[u32], from: usize, count: usize)
    ensures { length page.new.run.now ≡ length page.old.run.now }
{
    for fd in slots.iter().skip(from).take(count) {
        page.counted(b":", u64::from(*fd));
    }
}

// ---- waiting descriptors, and what is used

fn waiting(page: &mut Page<impl Print>, counts: Counts, slots: &[u32])
    ensures { length page.new.run.now ≡ length page.old.run.now }
{
    let start = counts.closed.saturating_add(counts.held);
    if let Some(rest) = slots.get(start..) {
        page.first(b" waiting", rest, counts.waiting);
    }
}

fn used(page: &mut Page<impl Print>, window: Window)
    ensures { length page.new.run.now ≡ length page.old.run.now }
{
    if let Some(n) = window.end.checked_sub(window.start) {
        page.counted(b" used ", n as u64);
    }
}

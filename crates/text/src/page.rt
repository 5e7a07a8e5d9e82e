// The text, as it is put together and written.
ghost use Rattle.std.specs.Prelude.{◌≡◌, ◌+◌, ◌≤◌, ◌↔◌, IsSome, IsTrue, length, false};
ghost use Rattle.octets.specs.Put.{put};

use super::span::{Span, cut};
use itoa::Buffer;

// Where the text begins.
pub const START: usize = 2753540;

// Free bytes before an answer: more than the longest that is compared and a verdict take, and more
// than a `feed` with all that its reader can hold, 290,948: 134 before the packets, 262,142 digits,
// and 14 for the blank and the class of each of 2,048 packets.
const FREE: usize = 294912;

// More than a verdict takes.
const VERDICT: usize = 64;

// The run of bytes with text in it, and the runtime that writes it. That a call keeps the run's length
// stays a clause of each: no type says how a value after a call stands to the one before, and a page
// is of a run of any length.
#[derive(Drop)]
pub struct Page<'a, R: Print> {
    rt: &'a R,
    pub run: &'a mut [u8],
    // Where the text ends, and up to where it is written.
    pub waiting: usize,
    written: usize,
    // Where the last answer stands, and whether its start is gone.
    answer: Span,
    parted: bool,
    // Whether a write failed; one that did is never forgotten.
    pub failed: bool,
    // Whether packets are shown with their classes.
    pub classes: bool,
}

impl<'a, R: Print> Page<'a, R> {
    // One with no text.
    pub fn new(rt: &'a R, run: &'a mut [u8]) -> Page<'a, R>
        ensures { result.waiting ≡ START }
    {
        Page {
            rt,
            run,
            waiting: START,
            written: START,
            answer: Span::at(START, 0),
            parted: false,
            failed: false,
            classes: false,
        }
    }

    // The last answer, if it stands in one piece.
    pub fn answer(&self) -> Option<&[u8]>
        ensures { IsSome result ↔ (self.now.parted ≡ false) }
    {
        if self.parted {
            return None;
        }
        Some(self.answer.of(self.run))
    }

    pub fn word(&mut self, text: &[u8])
        ensures kept { length self.new.run.now ≡ length self.old.run.now }
        ensures stands { self.old.waiting + length text.now ≤ length self.old.run.now → self.new.run.now ≡ put self.old.run.now self.old.waiting text.now }
        ensures waits { self.old.waiting + length text.now ≤ length self.old.run.now → self.new.waiting ≡ self.old.waiting + length text.now }
    {
        if self.has_room(text.len()) {
            octets::copy_in(self.run, self.waiting, text);
            self.waiting += text.len();
            return;
        }
        self.anew();
        let went = self.write(text);
        self.failed = !went;
    }

    // Whether n bytes are free behind what waits.
    fn has_room(&self, n: usize) -> bool
        ensures { IsTrue result ↔ (self.now.waiting + n ≤ length self.now.run.now) }
    {
        let end = self.run.len();
        self.waiting <= end && n <= end - self.waiting
    }

    // What waits is written.
    pub fn flush(&mut self)
        ensures kept { self.new.run.now ≡ self.old.run.now }
        ensures waits { self.new.waiting ≡ self.old.waiting }
    {
        let went = self.write_waiting();
        self.failed = !went;
        self.written = self.waiting;
    }

    fn write_waiting(&self) -> bool {
        self.write(cut(self.run, self.written, self.waiting))
    }

    // Whether all is written so far.
    fn write(&self, text: &[u8]) -> bool {
        !self.failed && self.rt.write_all(text).is_ok()
    }

    // What waits is written, and the text starts anew.
    fn anew(&mut self)
        ensures { length self.new.run.now ≡ length self.old.run.now }
    {
        self.flush();
        self.waiting = START;
        self.written = START;
        self.parted = true;
    }

    // An answer begins: it will stand in one piece, unless it is longer than what is free at least.
    pub fn begin(&mut self)
        ensures { length self.new.run.now ≡ length self.old.run.now }
    {
        self.ready(FREE);
        self.parted = false;
        self.answer.from = self.waiting;
    }

    // It ends, and with it its line.
    pub fn close(&mut self)
        ensures { length self.new.run.now ≡ length self.old.run.now }
    {
        self.answer.end = self.waiting;
        self.word(b"\n");
    }

    // A verdict on the last answer begins: where there is no room behind what waits there is behind
    // the answer.
    pub fn verdict(&mut self)
        ensures { length self.new.run.now ≡ length self.old.run.now }
    {
        if self.has_room(VERDICT) {
            return;
        }
        self.flush();
        self.waiting = self.answer.end;
        self.written = self.answer.end;
    }

    // A number in decimal digits.
    fn number(&mut self, n: u64)
        ensures { length self.new.run.now ≡ length self.old.run.now }
    {
        let mut digits = Buffer::new();
        self.word(digits.format(n).as_bytes());
    }

    // A word and a number behind it.
    pub fn counted(&mut self, text: &[u8], n: u64)
        ensures { length self.new.run.now ≡ length self.old.run.now }
    {
        self.word(text);
        self.number(n);
    }

    // A word, and the first count numbers behind it, a blank before each, if there are so many.
    pub fn first(&mut self, text: &[u8], numbers: &[u32], count: usize)
        ensures { length self.new.run.now ≡ length self.old.run.now }
    {
        self.word(text);
        if numbers.len() < count {
            return;
        }
        for n in &numbers[..count] {
            self.counted(b" ", u64::from(*n));
        }
    }

    // At least n bytes free, where the run has so many: what waits is written if there are fewer.
    fn ready(&mut self, n: usize)
        ensures { length self.new.run.now ≡ length self.old.run.now }
    {
        if !self.has_room(n) {
            self.anew();
        }
    }

    // Text that stands in the run, moved up behind what waits.
    pub fn join(&mut self, text: Span)
        ensures { length self.new.run.now ≡ length self.old.run.now }
    {
        let Span { from, end } = text;
        if self.run.len() < end || end < from || from < self.waiting {
            return;
        }
        octets::slide(self.run, from, self.waiting, end - from);
        self.waiting += end - from;
    }

    // Bytes of the run, put behind what waits.
    pub fn copy(&mut self, bytes: Span)
        ensures { length self.new.run.now ≡ length self.old.run.now }
    {
        let Span { from, end } = bytes;
        let n = bytes.length();
        self.ready(n);
        if from <= end && end <= self.run.len() && self.has_room(n) {
            octets::slide(self.run, from, self.waiting, n);
            self.waiting += n;
        }
    }
}

// A line to the error output, at once.
pub fn complain(rt: &HostRuntime, line: &[u8]) {
    let _ = rt.stderr().write_all(line);
}

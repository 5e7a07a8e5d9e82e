// Bytes as lower-case hex digits.
ghost use Rattle.std.specs.Prelude.{◌≡◌, ◌+◌, ◌*◌, ◌≤◌, ◌<◌, length};

use super::page::Page;
use super::span::Span;

impl<'a, R: Print> Page<'a, R> {
    // Bytes of the run, behind a blank.
    pub fn packet(&mut self, packet: Span)
        ensures { length self.new.run.now ≡ length self.old.run.now }
    {
        self.word(b" ");
        let Span { from, end } = packet;
        let room = self.run.len();
        if room < end || end < from {
            return;
        }
        let len = end - from;
        if self.waiting <= room && len <= (room - self.waiting) / 2 {
            digits(self.run, self.waiting, from, len);
            self.waiting += 2 * len;
            return;
        }
        self.pairs(packet);
    }

    // Where some of them may not fit.
    fn pairs(&mut self, packet: Span)
        ensures { length self.new.run.now ≡ length self.old.run.now }
    {
        for i in packet.from..packet.end {
            if let Some(x) = self.run.get(i).copied() {
                self.byte(x);
            }
        }
    }

    // Bytes, behind a blank.
    pub fn hex(&mut self, bytes: &[u8])
        ensures { length self.new.run.now ≡ length self.old.run.now }
    {
        self.word(b" ");
        for x in bytes {
            self.byte(*x);
        }
    }

    // A byte as two digits.
    fn byte(&mut self, x: u8)
        ensures { length self.new.run.now ≡ length self.old.run.now }
    {
        self.word(&[digit(x / 16), digit(x % 16)]);
    }
}

// Where all of them fit behind what waits.
fn digits(out: &mut [u8], waiting: usize, from: usize, len: usize)
    requires len_in_bounds { from + len ≤ length out.old }
    requires len_in_bounds_2 { waiting + 2 * len ≤ length out.old }
{
    for i in 0..len {
        let x = out[from + i];
        out[waiting + 2 * i] = digit(x / 16);
        out[waiting + 2 * i + 1] = digit(x % 16);
    }
}

fn digit(x: u8) -> u8
    requires { x < 16 }
{
    b"0123456789abcdef"[x as usize]
}

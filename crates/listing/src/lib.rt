// Inside: the text that the program `packets` writes of a stream (01, Values to meet).
//
// The program keeps where it is (`Stage`), the bytes that it has read and not yet used, and lends
// an output. A call takes lines of as many packets as the bytes have and the output has room for,
// and says what it wants then. Nothing is kept here, and nothing is read or written but what is
// lent: the text of a stream is the same however the bytes come and however often the output is
// handed on (`any_pieces`).
#![tactic(auto)]

mod lines;

ghost use Rattle.std.specs.Prelude.{◌≤◌, length, take};
ghost use Rattle.listing.specs.Call.{opening, call_of, point_of, Lists, Turns};

use lines::{Listed, MOST_LINE};
use sequence::SequenceNumber;

// Where a listing is: nothing is written yet, all that is used is written and this is the last
// number read, or the last line is written.
#[derive(Clone, Copy)]
pub enum Stage {
    Start,
    After(SequenceNumber),
    Ended,
}

// What a call wants before the next: more bytes, or to be told that there are none; room in the
// output; or no next call.
#[derive(Clone, Copy)]
pub enum Wants {
    Bytes,
    Room,
    Nothing,
}

// What a call came to: so many bytes are held at the start of the buffer, so many of text stand at
// the start of the output.
#[derive(Clone, Copy)]
pub struct Turn {
    pub held: usize,
    pub written: usize,
    pub place: Stage,
    pub wants: Wants,
}

// The first line.
fn start(out: &mut [u8]) -> Listed
    ensures { Lists (opening (length out.old)) 0 0 out.old result out.new }
{
    if out.len() < MOST_LINE {
        return Listed {
            used: 0,
            written: 0,
            place: Stage::Start,
            wants: Wants::Room,
        };
    }
    octets::copy_in(out, 0, b"packets\n");
    Listed {
        used: 0,
        written: 8,
        place: Stage::After(SequenceNumber(0)),
        wants: Wants::Room,
    }
}

// The text from a place on, of the bytes so far.
fn call(place: Stage, bytes: &[u8], over: bool, out: &mut [u8]) -> Listed
    ensures { Lists (call_of over (length out.old) (point_of place) bytes.now) 0 0 out.old result out.new }
{
    match place {
        Stage::Start => start(out),
        Stage::After(last) => lines::lines(last, bytes, over, out),
        Stage::Ended => Listed {
            used: 0,
            written: 0,
            place: Stage::Ended,
            wants: Wants::Nothing,
        },
    }
}

// The text from a place on, of the held bytes at the start of the buffer, behind which more may
// come unless the stream is over. What is not used moves to the start of the buffer.
pub fn list(place: Stage, buf: &mut [u8], held: usize, over: bool, out: &mut [u8]) -> Turn
    requires { held ≤ length buf.old }
    ensures { Turns (call_of over (length out.old) (point_of place) (take held buf.old)) buf.old held out.old result buf.new out.new }
{
    let listed = call(place, &buf[..held], over, out);
    let left = held - listed.used;
    octets::slide(buf, listed.used, 0, left);
    Turn {
        held: left,
        written: listed.written,
        place: listed.place,
        wants: listed.wants,
    }
}

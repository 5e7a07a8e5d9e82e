// The packet reader.
use crate::{moves, roomed};
use packet_reader::{Advanced, Framed, PacketReader};
use refusal::Refusal;
use text::{Answer, Span, Word};

// A reader, and how long its buffer is.
#[derive(Clone, Copy)]
pub struct Buffered {
    pub reader: PacketReader,
    pub room: usize,
}

// A buffer of so many bytes.
fn buffer<'a>(room: usize, bytes: &'a [u8]) -> &'a [u8] {
    Span::at(crate::READER, room).of(bytes)
}

// One with the longest buffer.
pub(crate) fn new(now: &mut Buffered, order: u8, bytes: &[u8]) -> Result<Answer, Refusal> {
    let room = crate::SETUP - crate::READER;
    let reader = PacketReader::new(order, buffer(room, bytes))?;
    *now = Buffered { reader, room };
    Ok(text::say(Word::Ok))
}

fn capacity(now: Buffered, bytes: &[u8]) -> Result<usize, Refusal> {
    let reader = now.reader;
    reader.remaining_capacity(buffer(now.room, bytes))
}

// How many bytes the reader's part takes.
pub fn room(now: Buffered, bytes: &[u8]) -> usize {
    capacity(now, bytes).unwrap_or(0)
}

pub(crate) fn left(now: Buffered, bytes: &[u8]) -> Result<Answer, Refusal> {
    let n = capacity(now, bytes)?;
    Ok(text::count(Some(Word::Room), n as u64))
}

// Bytes of the run, put into the reader's part if it takes them.
pub(crate) fn fill(now: Buffered, run: &mut [u8], bytes: Span) -> Result<Answer, Refusal> {
    if room(now, run) < bytes.length() {
        return Err(Refusal::OverAdvance);
    }
    put(now.reader, run, bytes);
    Ok(text::say(Word::Ok))
}

fn put(reader: PacketReader, run: &mut [u8], bytes: Span) {
    moves::put(run, bytes, crate::READER.saturating_add(reader.filled));
}

pub(crate) fn advance(now: &mut Buffered, bytes: &[u8], n: usize) -> Result<Answer, Refusal> {
    match step(now, bytes, n)? {
        Some(framed) => Ok(text::shown(Some(Word::Packet), crate::READER, framed.length)),
        None => Ok(roomed(Word::None, room(*now, bytes))),
    }
}

// So many bytes more are filled; the packet, if they made one whole.
fn step(now: &mut Buffered, bytes: &[u8], n: usize) -> Result<Option<Framed>, Refusal> {
    let reader = now.reader;
    match reader.advance(buffer(now.room, bytes), n)? {
        Advanced::NotYet(next) => {
            now.reader = next;
            Ok(None)
        }
        Advanced::Packet(length, class, next) => {
            now.reader = next;
            Ok(Some(Framed { length, class }))
        }
    }
}

// What some bytes came to: how many were used, and the packet at the start of the reader's buffer
// where they made one whole.
#[derive(Clone, Copy)]
pub struct Fed {
    pub used: usize,
    pub packet: Option<Framed>,
}

// Bytes of the run, as many of them as the reader's part takes.
pub fn feed(now: &mut Buffered, run: &mut [u8], bytes: Span) -> Result<Fed, Refusal> {
    let used = room(*now, run).min(bytes.length());
    put(now.reader, run, bytes.take(used));
    let packet = step(now, run, used)?;
    Ok(Fed { used, packet })
}

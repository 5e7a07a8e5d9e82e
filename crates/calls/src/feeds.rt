// `feed` and `feedin`: bytes go through the reader, and the packets that they make whole are shown
// and, for the second, taken in.
//
// How many packets there are stands before them in the answer: their text is put so far behind what
// waits that the words before it fit in between, and is moved up to them at the end. An answer begins
// with room for both (`Page::begin`): a line has 65,536 bytes at most, and one less may be in the
// reader.
use crate::{Rooms, Subject, polls};
use packet_reader::Framed;
use refusal::Refusal;
use text::{Page, Span, Word};

// More than the words before the packets take.
const WORDS: usize = 128;

// How many packets came, the reader's room, the packets, and what stopped it. take says whether
// packets are taken in. It stays a flag: a closure for that step would take the subject, the packet,
// the rooms and the page, and so be longer than the call that it stands for.
pub(crate) fn line(
    subject: &mut Subject,
    bytes: Span,
    take: bool,
    rooms: &mut Rooms<'_>,
    page: &mut Page<'_, impl Print>,
) {
    let start = page.waiting;
    let from = start.saturating_add(WORDS);
    page.waiting = from;
    let mut count = 0;
    let fed = all(subject, bytes, take, &mut count, rooms, page);
    let packets = Span {
        from,
        end: page.waiting,
    };
    page.waiting = start;
    let room = leaves::room(subject.leaves.reader, page.run);
    page.tell(text::both(Some(Word::Packets), count, Word::Room, room as u64, None));
    page.join(packets);
    if let Err(refusal) = fed {
        page.tell(text::refusal(refusal));
    }
}

// All of the bytes, or up to what stops it. A proved loop has to end, so it counts turns: each uses
// one byte at least.
fn all(
    subject: &mut Subject,
    bytes: Span,
    take: bool,
    count: &mut u64,
    rooms: &mut Rooms<'_>,
    page: &mut Page<'_, impl Print>,
) -> Result<(), Refusal> {
    let mut rest = bytes;
    for _ in 0..bytes.end {
        if rest.end <= rest.from {
            return Ok(());
        }
        let fed = leaves::feed(&mut subject.leaves.reader, page.run, rest)?;
        rest.from = rest.from.saturating_add(fed.used);
        if let Some(framed) = fed.packet {
            *count = count.saturating_add(1);
            came(subject, framed, take, rooms, page)?;
        }
    }
    Ok(())
}

// A packet, which is at the start of the reader's buffer. It is shown with its class, and goes to the
// connection if it is to be taken in.
fn came(
    subject: &mut Subject,
    framed: Framed,
    take: bool,
    rooms: &mut Rooms<'_>,
    page: &mut Page<'_, impl Print>,
) -> Result<(), Refusal> {
    let packet = Span::at(leaves::READER, framed.length);
    page.packet(packet);
    page.class(framed.class);
    if take {
        let _ = polls::enqueue(&mut subject.connection, packet, rooms, page.run)?;
    }
    Ok(())
}

// Inside: a packet reader, a handshake and an allocator of ids, for a program that reads calls from
// a script. They are lent to a call, and a refused one leaves them as they were.
//
// One lent run of bytes holds the buffers of reader and handshake, each at its own place, and the
// bytes that a script puts into them somewhere behind. No call has a `requires`: where the run is
// too short, the reader or the handshake is refused by 9.
#![tactic(auto)]

mod handshake;
mod ids;
mod moves;
mod reader;

use connect::Connect;
use id_allocator::IdAllocator;
use packet_reader::PacketReader;
pub use reader::{Buffered, Fed, feed, room};
use refusal::Refusal;
use script::Leaf;
use text::{Answer, Word};

// Where the reader's buffer begins, where the longest ends and that of the handshake begins, and
// where that ends.
pub const READER: usize = 65536;

pub const SETUP: usize = 131072;

pub const END: usize = 393220;

#[derive(Clone, Copy)]
pub struct Leaves {
    pub reader: Buffered,
    pub handshake: Connect,
    pub ids: Option<IdAllocator>,
}

// What a script finds before its first line: a reader and a handshake in an order, and no ids.
pub fn fresh(order: u8) -> Leaves {
    Leaves {
        reader: Buffered {
            reader: PacketReader {
                order,
                filled: 0,
                target: packet::LEAST_PACKET,
            },
            room: SETUP - READER,
        },
        handshake: Connect {
            order,
            filled: 0,
            target: connect::HEAD,
        },
        ids: None,
    }
}

// A call. New readers and handshakes have the given order.
pub fn make(leaves: &mut Leaves, leaf: Leaf, order: u8, bytes: &mut [u8]) -> Answer {
    done(leaves, leaf, order, bytes).unwrap_or_else(text::refusal)
}

fn done(leaves: &mut Leaves, leaf: Leaf, order: u8, bytes: &mut [u8]) -> Result<Answer, Refusal> {
    match leaf {
        Leaf::Reader => reader::new(&mut leaves.reader, order, bytes),
        Leaf::Room => reader::left(leaves.reader, bytes),
        Leaf::Fill(span) => reader::fill(leaves.reader, bytes, span),
        Leaf::Advance(n) => reader::advance(&mut leaves.reader, bytes, n),
        Leaf::Hello => handshake::new(&mut leaves.handshake, order, bytes),
        Leaf::HelloFill(span) => handshake::fill(leaves.handshake, bytes, span),
        Leaf::HelloAdvance(n) => handshake::advance(&mut leaves.handshake, bytes, n),
        Leaf::Ids { base, mask } => ids::begin(&mut leaves.ids, base, mask),
        Leaf::Generate => ids::generate(&mut leaves.ids),
        Leaf::Range { start, count } => ids::range(&mut leaves.ids, start, count),
    }
}

// A word, and the room that is left.
pub(crate) fn roomed(word: Word, room: usize) -> Answer {
    text::also(Some(word), Word::Room, room as u64)
}

// `state`: what a script works on, shown.
use crate::{Rooms, Subject};
use leaves::{Buffered, Leaves};
use model::Connection;
use shown::{Beside, Partial, Told};
use text::{Page, Span};

// In full, or with digests of bytes.
pub fn state(subject: &Subject, full: bool, rooms: &Rooms<'_>, page: &mut Page<'_, impl Print>) {
    let c = subject.connection;
    let requests = text::cut(rooms.requests, 0, requests::bytes_for(c.capacity));
    let store = text::cut(rooms.store, 0, c.room);
    shown::line(page, told(c), requests, store, rooms.slots);
    shown::behind(page, beside(c, subject.leaves), full, store);
}

fn told(c: Connection) -> Told {
    Told {
        written: c.written,
        expected: c.expected,
        read: c.read,
        first: c.first,
        window: c.window,
        counts: c.counts,
    }
}

fn beside(c: Connection, leaves: Leaves) -> Beside {
    Beside {
        order: c.order,
        requests: c.capacity,
        store: c.room,
        window: c.window,
        reader: reader(leaves.reader),
        ids: leaves.ids,
        handshake: handshake(leaves),
    }
}

fn reader(now: Buffered) -> Partial {
    let reader = now.reader;
    Partial {
        order: reader.order,
        room: now.room,
        filled: Span::at(leaves::READER, reader.filled),
    }
}

fn handshake(leaves: Leaves) -> Partial {
    let handshake = leaves.handshake;
    Partial {
        order: handshake.order,
        room: leaves::END - leaves::SETUP,
        filled: Span::at(leaves::SETUP, handshake.filled),
    }
}

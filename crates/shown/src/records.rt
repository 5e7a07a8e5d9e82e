// The held packets, as records one behind the other.
ghost use Rattle.std.specs.Prelude.{length};
ghost use Rattle.std.specs.Iterator.{at_most};

use held::{Label, Window};

// What a record says, and its bytes: a header and the packet.
#[derive(Clone, Copy)]
pub(crate) struct Record<'a> {
    pub(crate) label: Label,
    pub(crate) len: usize,
    pub(crate) bytes: &'a [u8],
}

impl<'a> Record<'a> {
    // One that is cut is none.
    fn read(bytes: &'a [u8]) -> Option<Record<'a>> {
        if bytes.len() < held::HEADER {
            return None;
        }
        let label = Label {
            number: held::number_at(bytes, 0),
            fds: held::count_at(bytes, 0),
            kind: held::kind_at(bytes, 0),
        };
        let len = held::length_at(bytes, 0);
        Some(Record { label, len, bytes })
    }

    // The bytes of its packet.
    pub(crate) fn packet(self) -> &'a [u8] {
        text::cut(self.bytes, held::HEADER, self.bytes.len())
    }
}

// Those that are left.
#[derive(Clone, Copy)]
pub(crate) struct Records<'a> {
    rest: &'a [u8],
}

impl<'a> Records<'a> {
    // The records of a window.
    pub(crate) fn of(store: &'a [u8], window: Window) -> Records<'a> {
        Records {
            rest: text::cut(store, window.start, window.end),
        }
    }
}

impl<'a> Iterator for Records<'a> {
    type Item = Record<'a>;

    ghost remaining = { λ s. at_most (length s.rest.now) };

    fn next(&mut self) -> Option<Record<'a>> {
        let n = held::record_at(self.rest, 0, self.rest.len())?;
        let (bytes, rest) = self.rest.split_at_checked(n)?;
        self.rest = rest;
        Record::read(bytes)
    }
}

// Inside: the language of `replay`, a line at a time, and where lines come from.
//
// A line is a command or cannot be read; nothing here knows what a command does. Words are parted
// by single blanks. The bytes that a line has in hex are put over their digits. No call has a
// `requires`.
#![tactic(auto)]

mod digits;
mod input;
mod kinds;
mod line;
mod lists;
mod names;
mod number;
mod words;

pub use input::{INPUT, Input, Line, next, start};
pub use line::parse;
pub use lists::fds;
use model::{DiscardMode, ReplyFdKind};
use sequence::SequenceNumber;
use text::Span;
pub use words::name;

// What a line says.
#[derive(Clone, Copy)]
pub enum Op {
    // An empty line, or a remark.
    Nothing,
    // The answer that is expected is the rest of the line.
    Expect(Span),
    Command(Command),
}

#[derive(Clone, Copy)]
pub enum Command {
    Stop,
    Classes,
    New {
        requests: usize,
        store: usize,
        order: u8,
    },
    State {
        full: bool,
    },
    Save,
    // The bytes of a savepoint.
    Restore(Span),
    Leaf(Leaf),
    Call(Call),
}

// A command of the reader, the handshake or the ids.
#[derive(Clone, Copy)]
pub enum Leaf {
    Reader,
    Room,
    Fill(Span),
    Advance(usize),
    Hello,
    HelloFill(Span),
    HelloAdvance(usize),
    Ids { base: u32, mask: u32 },
    Generate,
    Range { start: u32, count: u32 },
}

// A command of the connection.
#[derive(Clone, Copy)]
pub enum Call {
    Send(ReplyFdKind),
    SendMany(ReplyFdKind, u64),
    // The kinds as numbers, a byte each.
    SendAll(Span),
    // The descriptors as the line has them: `fds` reads them.
    Fds(Span),
    Intake(Span),
    FeedAll(Span),
    Feed(Span),
    FeedIn(Span),
    Discard(SequenceNumber, DiscardMode),
    PollReplyOrError(SequenceNumber),
    PollCheck(SequenceNumber),
    PollReply(SequenceNumber),
    PollEvent,
    Drain,
    Prepare(SequenceNumber),
}

// Why a line can't be read: it is too long, or the word of a number can't be; the name is word 1.
#[derive(Clone, Copy)]
pub enum Unread {
    Long,
    Word(u64),
}

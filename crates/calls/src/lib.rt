// Inside: the commands of a connection, for a program that reads them from a script.
//
// A command is carried out on what a script works on, and its answer is written to the page; a refused
// call leaves the state as it was. Packets go in and out of the page's run of bytes. No call has a
// `requires`.
#![tactic(auto)]

mod feeds;
mod many;
mod polls;
mod saves;
mod sends;
mod states;

use leaves::Leaves;
use model::Connection;
use refusal::Refusal;
pub use saves::{restore, save};
use script::Call;
pub use states::state;
use text::{Answer, Page};

// What a script works on.
#[derive(Clone, Copy)]
pub struct Subject {
    pub connection: Connection,
    pub leaves: Leaves,
}

// The rooms that a program lends to a connection. Each is taken into a variable before a call: of
// fields that are lent in the call itself no proof is made yet.
#[derive(Drop)]
pub struct Rooms<'a> {
    pub requests: &'a mut [u8],
    pub store: &'a mut [u8],
    pub slots: &'a mut [u32],
}

// More descriptors than there can be inside. Memory is fixed here, so a list is an array and a count.
pub(crate) const LIST: usize = 257;

// A command of the connection, over rooms as long as it was opened with, and what it put on the close
// list.
pub fn line(
    subject: &mut Subject,
    call: Call,
    rooms: &mut Rooms<'_>,
    page: &mut Page<'_, impl Print>,
) {
    let k = requests::bytes_for(subject.connection.capacity);
    let s = subject.connection.room;
    if rooms.requests.len() < k || rooms.store.len() < s {
        return;
    }
    let requests = &mut *rooms.requests;
    let store = &mut *rooms.store;
    let slots = &mut *rooms.slots;
    ended(
        subject,
        call,
        &mut requests[..k],
        &mut store[..s],
        slots,
        page,
    );
}

// By a call of its own, for the same reason.
fn ended(
    subject: &mut Subject,
    call: Call,
    requests: &mut [u8],
    store: &mut [u8],
    slots: &mut [u32],
    page: &mut Page<'_, impl Print>,
) {
    let mut rooms = Rooms {
        requests,
        store,
        slots,
    };
    carried(subject, call, &mut rooms, page);
    if subject.connection.counts.closed != 0 {
        close(&mut subject.connection, &mut rooms, page);
    }
}

fn carried(
    subject: &mut Subject,
    call: Call,
    rooms: &mut Rooms<'_>,
    page: &mut Page<'_, impl Print>,
) {
    let c = &mut subject.connection;
    match call {
        Call::Send(kind) => told(sends::send(c, kind, rooms), page),
        Call::SendMany(kind, count) => page.tell(sends::many(c, kind, count, rooms)),
        Call::SendAll(kinds) => told(many::send(c, kinds, rooms, page.run), page),
        Call::Fds(list) => told(sends::fds(c, list, rooms, page.run), page),
        Call::Intake(packet) => told(polls::intake(c, packet, rooms, page.run), page),
        Call::FeedAll(bytes) => told(many::intake(c, bytes, rooms, page.run), page),
        Call::Feed(bytes) => feeds::line(subject, bytes, false, rooms, page),
        Call::FeedIn(bytes) => feeds::line(subject, bytes, true, rooms, page),
        Call::Discard(n, mode) => told(sends::discard(c, n, mode, rooms), page),
        Call::PollReplyOrError(n) => polls::reply_or_error(c, n, rooms, page),
        Call::PollCheck(n) => told(polls::check(c, n, rooms, page.run), page),
        Call::PollReply(n) => told(polls::reply(c, n, rooms, page.run), page),
        Call::PollEvent => told(polls::event(c, rooms, page.run), page),
        Call::Drain => many::drain(c, rooms, page),
        Call::Prepare(n) => told(sends::prepare(*c, n, rooms), page),
    }
}

// The answer of a call, or its refusal.
pub(crate) fn told(answer: Result<Answer, Refusal>, page: &mut Page<'_, impl Print>) {
    page.tell(answer.unwrap_or_else(text::refusal));
}

// The close list, taken whole and listed.
fn close(c: &mut Connection, rooms: &mut Rooms<'_>, page: &mut Page<'_, impl Print>) {
    let mut list = [0u32; LIST];
    let requests = &mut *rooms.requests;
    let store = &mut *rooms.store;
    let slots = &mut *rooms.slots;
    let closed = connection::take_closed_fds(*c, requests, store, slots, &mut list);
    if let Ok(closed) = closed {
        *c = closed.connection;
        page.first(b" closed", &list, closed.count);
    }
}

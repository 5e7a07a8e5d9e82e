// Inside: the steps of a connection that hand out what is held, for a state that was found sound:
// the polls, oldest packet first.
//
// A step asks only for what it needs, touches only the rooms it writes, and is exact: its answer,
// those rooms and the lent outputs at exit are one definition of what it was given. Laws say what
// it is in the model's terms, and that the state it leaves is sound. (01, Numbering and filing; the
// order of refusals is 01's for taking: nothing found, then 8.)
#![tactic(auto)]

ghost use Rattle.std.specs.Prelude.{◌≡◌};
ghost use Rattle.held.specs.Reading as Store;
ghost use Rattle.model.specs.Sound.{Ready};
ghost use Rattle.polling.specs.Exact.{handed_at, EventStep, TakenStep, CheckedStep, RepliedStep};

use held::Spot;
use model::{Connection, Handed, PollReply, Polled, moved};
use packet::Class;
use refusal::Refusal;
use sequence::SequenceNumber;

// The oldest event, with its number. Refused by 8 for an output that is too small.
pub fn poll_for_event(c: Connection, store: &mut [u8], out: &mut [u8]) -> Result<Polled, Refusal>
    requires { Store.Sound c.read c.window store.old }
    ensures { EventStep c store.old out.old result store.new out.new }
{
    let window = c.window;
    let Some(place) = held::find_event(store, window) else {
        return Ok(Polled {
            packet: None,
            connection: c,
        });
    };
    let len = place.len;
    if out.len() < len {
        return Err(Refusal::OutShort);
    }
    let taken = held::take(store, window, place, out);
    let class = taken.class;
    let event = handed_out(place, class, 0);
    Ok(Polled {
        packet: Some(event),
        connection: moved(c, taken.window, c.counts),
    })
}

// The oldest reply or error of a number, with its descriptors. Refused by 8 for an output that is
// too small for the one or the other.
pub fn poll_for_reply_or_error(
    c: Connection,
    store: &mut [u8],
    slots: &mut [u32],
    number: u64,
    out: &mut [u8],
    fds: &mut [u32],
) -> Result<Polled, Refusal>
    requires { Ready c store.old slots.old }
    ensures { TakenStep c number store.old slots.old out.old fds.old result store.new slots.new out.new fds.new }
{
    let window = c.window;
    let counts = c.counts;
    let Some(place) = held::find_reply(store, window, number) else {
        return Ok(Polled {
            packet: None,
            connection: c,
        });
    };
    let len = place.len;
    let n = place.fds as usize;
    if out.len() < len {
        return Err(Refusal::OutShort);
    }
    if fds.len() < n {
        return Err(Refusal::OutShort);
    }
    let rest = descriptors::hand_out(slots, counts, place.before, n, fds);
    let taken = held::take(store, window, place, out);
    let class = taken.class;
    let handed = handed_out(place, class, n);
    Ok(Polled {
        packet: Some(handed),
        connection: moved(c, taken.window, rest),
    })
}

// The oldest reply or error of a number; its descriptors are closed. Nothing comes any more where
// a packet above the number was read. Refused by 8 for an output that is too small.
pub fn poll_check(
    c: Connection,
    store: &mut [u8],
    slots: &mut [u32],
    number: u64,
    out: &mut [u8],
) -> Result<PollReply, Refusal>
    requires { Ready c store.old slots.old }
    ensures { CheckedStep c number store.old slots.old out.old result store.new slots.new out.new }
{
    let window = c.window;
    let counts = c.counts;
    let Some(place) = held::find_reply(store, window, number) else {
        if number < c.read {
            return Ok(PollReply::NoReply(c));
        }
        return Ok(PollReply::TryAgain(c));
    };
    let len = place.len;
    if out.len() < len {
        return Err(Refusal::OutShort);
    }
    let n = place.fds as usize;
    let rest = descriptors::close_held(slots, counts, place.before, n);
    let taken = held::take(store, window, place, out);
    let class = taken.class;
    let handed = handed_out(place, class, 0);
    Ok(PollReply::Reply(handed, moved(c, taken.window, rest)))
}

// The oldest reply of a number; its descriptors are closed. An error becomes an event, for which
// no output is needed. Refused by 8 for an output that is too small.
pub fn poll_for_reply(
    c: Connection,
    store: &mut [u8],
    slots: &mut [u32],
    number: u64,
    out: &mut [u8],
) -> Result<PollReply, Refusal>
    requires { Ready c store.old slots.old }
    ensures { RepliedStep c number store.old slots.old out.old result store.new slots.new out.new }
{
    let window = c.window;
    let counts = c.counts;
    let Some(place) = held::find_reply(store, window, number) else {
        return Ok(PollReply::TryAgain(c));
    };
    let len = place.len;
    let n = place.fds as usize;
    if packet::is_error(held::class_at(store, place.at)) {
        let rest = descriptors::close_held(slots, counts, place.before, n);
        held::demote(store, window, place);
        return Ok(PollReply::NoReply(moved(c, window, rest)));
    }
    if out.len() < len {
        return Err(Refusal::OutShort);
    }
    let rest = descriptors::close_held(slots, counts, place.before, n);
    let taken = held::take(store, window, place, out);
    let class = taken.class;
    let handed = handed_out(place, class, 0);
    Ok(PollReply::Reply(handed, moved(c, taken.window, rest)))
}

// What is handed out of the record at a place, whose packet has that class, with so many
// descriptors.
fn handed_out(place: Spot, class: Class, fds: usize) -> Handed
    ensures { result ≡ handed_at place class fds }
{
    Handed {
        number: SequenceNumber(place.number),
        length: place.len,
        descriptors: fds,
        class,
    }
}

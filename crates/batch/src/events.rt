// Many events are handed out, oldest first: their packets one behind the other, and three marks for
// each, its number, the length of its packet and its class.
//
// Where the oldest record is an event that finds room it goes the short way out. Any other turn looks
// for the oldest event from the oldest record on, so it walks over the replies that are held before it.
ghost use Rattle.std.specs.Prelude.{◌≡◌, ◌+◌, ◌-◌, ◌≤◌, leb, length};
ghost use Rattle.model.specs.PollForEvents.{marks_each, room_for};
ghost use Rattle.octets.specs.Put.{put};
ghost use Rattle.batch.specs.Events.{Stored, EventsStep, TurnStep, marks_shown, stopped_by};

use super::first;
use model::{Connection, Events, Handed, Polled, Stop};
use refusal::Refusal;

// The marks of an event.
pub(crate) const MARKS: usize = 3;

// As many events as fit. Refused by 8 where there is one and not even one fits.
pub fn poll_for_events(
    c: Connection,
    store: &mut [u8],
    out: &mut [u8],
    marks: &mut [u64],
) -> Result<Events, Refusal>
    requires { Stored c store.old }
    ensures { EventsStep c store.old out.old marks.old result store.new out.new marks.new }
{
    let mut state = c;
    let mut used = 0;
    let mut count = 0;
    // The row ends where a turn says so; no range goes with it.
    loop {
        let at = MARKS * count;
        if first::is_first(state, store, out.len() - used, marks.len() - at) {
            let len = first::hand_first(state, store, out, marks, used, at);
            state = first::passed(state, len);
            used += len;
            count += 1;
            continue;
        }
        let polled = match turn(state, store, out, marks, used, at) {
            Ok(polled) => polled,
            Err(refusal) => {
                return stopped(count, used, refusal, state);
            }
        };
        let Some(handed) = polled.packet else {
            return Ok(Events {
                count,
                bytes: used,
                stop: Stop::End,
                connection: state,
            });
        };
        state = polled.connection;
        used += handed.length;
        count += 1;
    }
}

// One turn: the next event behind the bytes that are used, and its marks behind those that are
// there. Output and index stay apart, as in `saving::writing`. Without three marks it has no room.
fn turn(
    c: Connection,
    store: &mut [u8],
    out: &mut [u8],
    marks: &mut [u64],
    used: usize,
    at: usize,
) -> Result<Polled, Refusal>
    requires { Stored c store.old × (used ≤ length out.old) × (at ≤ length marks.old) }
    ensures { TurnStep c store.old out.old marks.old used at result store.new out.new marks.new }
{
    let end = used + room_for(marks.len() - at, out.len() - used);
    let polled = polling::poll_for_event(c, store, &mut out[used..end])?;
    if let Some(handed) = polled.packet {
        mark(marks, at, handed);
    }
    Ok(polled)
}

fn room_for(marks: usize, room: usize) -> usize
    ensures { result ≡ room_for (leb marks_each marks) room }
{
    if marks < MARKS {
        return 0;
    }
    room
}

// The marks of an event, from index at on.
pub(crate) fn mark(marks: &mut [u64], at: usize, event: Handed)
    requires { at + marks_each ≤ length marks.old }
    ensures { marks.new ≡ put marks.old at (marks_shown event) }
{
    let number = event.number;
    marks[at] = number.0;
    marks[at + 1] = event.length as u64;
    marks[at + 2] = u8::from(event.class) as u64;
}

fn stopped(
    count: usize,
    used: usize,
    refusal: Refusal,
    state: Connection,
) -> Result<Events, Refusal>
    ensures { result ≡ stopped_by count used refusal state }
{
    if count == 0 {
        return Err(refusal);
    }
    Ok(Events {
        count,
        bytes: used,
        stop: Stop::Refused(refusal),
        connection: state,
    })
}

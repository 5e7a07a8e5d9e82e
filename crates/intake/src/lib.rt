// Inside: the step of a connection that takes a packet in, for a state that was found sound (01,
// Numbering and filing).
//
// `filing` has decided what is to be done; here it is carried out: the state gets its numbers, and the
// packet is held behind the others, or dropped, with its descriptors. The step is exact: its answer
// and every room at exit are one definition of what it was given. Laws say what it is in the model's
// terms, and that the state it leaves is sound.
#![tactic(auto)]

mod event;

ghost use Rattle.std.specs.Prelude.{length};
ghost use Rattle.intake.specs.Exact.{Takeable, MayFile, FileDone, EnqueueStep};

pub use event::{plain_of, take_plain};
use held::Label;
use model::{Connection, Enqueued, Place, moved};
use refusal::Refusal;

// A packet is filed under the last number read, with so many descriptors.
fn file(
    c: Connection,
    store: &mut [u8],
    slots: &mut [u32],
    place: Place,
    claim: u8,
    packet: &[u8],
) -> Connection
    requires { MayFile c store.old slots.old place claim (length packet.now) }
    ensures { FileDone c store.old slots.old place claim packet.now result store.new slots.new }
{
    let window = c.window;
    let counts = c.counts;
    let number = c.read;
    match place {
        Place::Replies => {
            let label = Label {
                number,
                fds: claim,
                kind: held::IN_REPLIES,
            };
            let next = held::append(store, window, label, packet);
            let fds = descriptors::hold(counts, claim as usize);
            moved(c, next, fds)
        }
        Place::Events => {
            let label = Label {
                number,
                fds: 0,
                kind: held::IN_EVENTS,
            };
            let next = held::append(store, window, label, packet);
            moved(c, next, counts)
        }
        Place::Dropped => {
            let fds = descriptors::close_waiting(slots, counts, claim as usize);
            moved(c, window, fds)
        }
    }
}

// A packet is taken in. Refused by 1 and 2 for its length, by 3 at the end of the numbers, by 20
// where it answers what was not asked, by 4 where it claims more descriptors than wait, and by 5
// where it is to be held and finds no room.
pub fn enqueue_packet(
    c: Connection,
    requests: &[u8],
    store: &mut [u8],
    slots: &mut [u32],
    packet: &[u8],
) -> Result<Enqueued, Refusal>
    requires { Takeable c requests.now store.old slots.old }
    ensures { EnqueueStep c requests.now store.old slots.old packet.now result store.new slots.new }
{
    let plan = filing::plan_of(c, requests, packet)?;
    let next = filing::numbered(c, packet[0], plan.number.0);
    let connection = file(next, store, slots, plan.place, plan.fds, packet);
    Ok(Enqueued {
        place: plan.place,
        number: plan.number,
        class: plan.class,
        connection,
    })
}

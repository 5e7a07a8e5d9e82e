// Many packets come from the server.
//
// Most are events that go the short way in, so each turn tries that first: there the state changes in
// a few numbers and is not handed from call to call.
ghost use Rattle.intake.specs.Exact.{Takeable};
ghost use Rattle.intake.specs.Event.{Writable};
ghost use Rattle.model.specs.Reading.{rooms};
ghost use Rattle.model.specs.Sound.{Sound};
ghost use Rattle.batch.specs.Feed.{PacketTurn, FrontTurn, FeedStep};
ghost use Rattle.batch.specs.Plain.{IsAhead, EventAhead, PlainTurn};

use model::{Connection, Fed, Halt};
use packet_reader::Begins;
use refusal::Refusal;
use sequence::SequenceNumber;

// What came of the bytes ahead, unless the row stops here: a packet of so many was taken.
#[derive(Clone, Copy)]
pub(crate) struct Turned {
    bytes: usize,
    connection: Connection,
}

// A packet is taken in.
fn packet_turn(
    c: Connection,
    requests: &[u8],
    store: &mut [u8],
    slots: &mut [u32],
    packet: &[u8],
) -> Result<Turned, Halt>
    requires { Takeable c requests.now store.old slots.old }
    ensures { PacketTurn c requests.now store.old slots.old packet.now result store.new slots.new }
{
    let enqueued = intake::enqueue_packet(c, requests, store, slots, packet)?;
    Ok(Turned {
        bytes: packet.len(),
        connection: enqueued.connection,
    })
}

// The packet that the bytes begin with is taken in, if it is there as a whole.
fn front_turn(
    order: u8,
    c: Connection,
    requests: &[u8],
    store: &mut [u8],
    slots: &mut [u32],
    bytes: &[u8],
) -> Result<Turned, Halt>
    requires { Takeable c requests.now store.old slots.old }
    ensures { FrontTurn order c requests.now store.old slots.old bytes.now result store.new slots.new }
{
    match packet_reader::front(order, bytes) {
        Begins::Nothing => Err(Halt::End),
        Begins::Part => Err(Halt::Part),
        Begins::Long => Err(Halt::Refused(Refusal::LongPacket)),
        Begins::Whole(n, _) => packet_turn(c, requests, store, slots, &bytes[..n]),
    }
}

// Whether the bytes begin with an event of 32 bytes that goes the short way in, and its number.
fn plain_ahead(c: Connection, store: &[u8], bytes: &[u8]) -> Option<SequenceNumber>
    requires { Writable c store.now }
    ensures { IsAhead c store.now bytes.now result }
{
    if bytes.len() < packet::LEAST_PACKET {
        return None;
    }
    let class = packet::class_of(bytes[0]);
    if !packet::is_plain(class) {
        return None;
    }
    intake::plain_of(c, store, &bytes[..packet::LEAST_PACKET])
}

// That event is taken in.
fn plain_turn(c: Connection, store: &mut [u8], bytes: &[u8], number: SequenceNumber) -> Connection
    requires { Writable c store.old × EventAhead c store.old bytes.now number.0 }
    ensures { PlainTurn c store.old bytes.now result store.new }
{
    intake::take_plain(c, store, &bytes[..packet::LEAST_PACKET], number)
}

// Every whole packet that the bytes begin with is taken in, up to the first that is refused.
pub fn enqueue_packets(
    c: Connection,
    requests: &[u8],
    store: &mut [u8],
    slots: &mut [u32],
    bytes: &[u8],
) -> Result<Fed, Refusal>
    requires { Sound c (rooms requests.now store.old slots.old) }
    ensures { FeedStep c requests.now store.old slots.old bytes.now result store.new slots.new }
{
    let order = c.order;
    let mut state = c;
    let mut at: usize = 0;
    let mut packets: usize = 0;
    // A packet says where the next one begins, which no range does, so the index is stepped by hand.
    while at < bytes.len() {
        let ahead = &bytes[at..];
        if let Some(number) = plain_ahead(state, store, ahead) {
            state = plain_turn(state, store, ahead, number);
            at += packet::LEAST_PACKET;
            packets += 1;
            continue;
        }
        match front_turn(order, state, requests, store, slots, ahead) {
            Ok(turned) => {
                state = turned.connection;
                at += turned.bytes;
                packets += 1;
            }
            Err(halt) => {
                return Ok(Fed {
                    bytes: at,
                    packets,
                    halt,
                    connection: state,
                });
            }
        }
    }
    Ok(Fed {
        bytes: at,
        packets,
        halt: Halt::End,
        connection: state,
    })
}

// The short way in: an event whose record goes behind the window as it stands.
//
// It asks nothing of the requests but that its own was sent, and claims no descriptors, so all that
// happens to the rooms is one record written. A row of such packets keeps what changes in a few numbers.
ghost use Rattle.std.specs.Prelude.{◌≡◌, true, ◌≤◌, length};
ghost use Rattle.packet.specs.Packet.{least_packet, most_packet, packet_class, is_event};
ghost use Rattle.intake.specs.Event.{Writable, IsPlain, PlainEvent, PlainStep};

use held::Label;
use model::{Connection, moved};
use sequence::SequenceNumber;

pub fn plain_of(c: Connection, store: &[u8], packet: &[u8]) -> Option<SequenceNumber>
    requires { Writable c store.now × (least_packet ≤ length packet.now) × (length packet.now ≤ most_packet) × (is_event (packet_class packet.now) ≡ true) }
    ensures { IsPlain c store.now packet.now result }
{
    let window = c.window;
    if !held::stays(store, window, held::HEADER + packet.len()) {
        return None;
    }
    let number = packet::number_after(c.order, SequenceNumber(c.read), packet).ok()?;
    if filing::is_ahead(packet[0], number.0, c.written) {
        return None;
    }
    Some(number)
}

// Such an event is taken in.
pub fn take_plain(
    c: Connection,
    store: &mut [u8],
    packet: &[u8],
    number: SequenceNumber,
) -> Connection
    requires { Writable c store.old × PlainEvent c store.old packet.now number.0 }
    ensures { PlainStep c store.old packet.now number.0 result store.new }
{
    let window = c.window;
    let next = filing::numbered(c, packet[0], number.0);
    let label = Label {
        number: number.0,
        fds: 0,
        kind: held::IN_EVENTS,
    };
    let after = held::behind(store, window, label, packet);
    moved(next, after, c.counts)
}

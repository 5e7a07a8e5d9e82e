// Inside: what is decided about a packet that comes in, before anything is written (01, Numbering and
// filing).
//
// A packet gets a plan, by value: a refusal, in the order of the rules, or its number, the place
// where it is filed and how many descriptors it claims; and the state's numbers once it has that
// number. Only the request room is read, where older requests go without a write. Whoever takes the
// packet in carries out what was decided here. Laws say that the plan and the numbers are the model's.
#![tactic(auto)]

ghost use Rattle.std.specs.Prelude.{◌≡◌, ◌≤◌, ◌<◌, length};
ghost use Rattle.sequence.specs.Numbering.{last_number};
ghost use Rattle.packet.specs.Packet.{least_packet, most_packet, packet_class};
ghost use Rattle.packet.specs.Class.{says_class};
ghost use Rattle.requests.specs.Room.{capacity};
ghost use Rattle.model.specs.Model.{error_under, error_place, reply_under, reply_place, place_of, claimed, is_held, ahead};
ghost use Rattle.filing.specs.Plan.{says_asked, says_plan, Fitting, raised_to, first_after, asked_in, over_room, plan_by, plan_of, numbered_state};

use model::{Connection, Place};
use packet::Class;
use refusal::Refusal;
use requests::{Mode, Request};
use sequence::SequenceNumber;

// What is to be done with a packet: to file it there, under that number, with so many descriptors
// and as one of that class.
#[derive(Clone, Copy)]
pub struct Plan {
    pub place: Place,
    pub number: SequenceNumber,
    pub fds: u8,
    pub class: Class,
}

// The next reply expected after a packet of the code.
fn raised(code: u8, number: u64, expected: u64) -> u64
    ensures { result ≡ raised_to code number expected }
{
    if packet::is_unnumbered(code) {
        return expected;
    }
    if expected < number {
        return number;
    }
    expected
}

// The first outstanding number once those below number are gone.
fn first_after(first: u64, written: u64, number: u64) -> u64
    requires { written ≤ last_number }
    ensures { result ≡ first_after first written number }
{
    if number <= first {
        return first;
    }
    if written + 1 < number {
        return written + 1;
    }
    number
}

// The request of a number that is not above the last written, if it is still outstanding.
fn request_of(c: Connection, requests: &[u8], number: u64) -> Option<Request>
    requires { 0 < capacity requests.now }
    ensures { says_asked result ≡ asked_in c requests.now number }
{
    if number < c.first {
        return None;
    }
    Some(requests::get(requests, number))
}

fn error_under(mode: Mode) -> Place
    ensures { result ≡ error_under mode }
{
    match mode {
        Mode::Keep => Place::Replies,
        Mode::DiscardReply => Place::Events,
        Mode::DiscardReplyAndError => Place::Dropped,
    }
}

fn error_place(asked: Option<Request>) -> Place
    ensures { result ≡ error_place (says_asked asked) }
{
    match asked {
        None => Place::Events,
        Some(request) => error_under(request.mode),
    }
}

fn reply_under(mode: Mode) -> Place
    ensures { result ≡ reply_under mode }
{
    match mode {
        Mode::Keep => Place::Replies,
        _ => Place::Dropped,
    }
}

fn reply_place(asked: Option<Request>) -> Place
    ensures { result ≡ reply_place (says_asked asked) }
{
    match asked {
        None => Place::Replies,
        Some(request) => reply_under(request.mode),
    }
}

// Where a packet of the class goes.
#[tactic(auto, unfolding(model::specs::Model::place_of))]
fn place_of(class: Class, asked: Option<Request>) -> Place
    ensures { result ≡ place_of (says_class class) (says_asked asked) }
{
    match class {
        Class::Error => error_place(asked),
        Class::Reply => reply_place(asked),
        Class::Event | Class::SentEvent | Class::Generic | Class::SentGeneric => Place::Events,
    }
}

// How many descriptors a packet of the class claims.
fn claimed(class: Class, packet: &[u8], asked: Option<Request>) -> u8
    requires { (least_packet ≤ length packet.now) × (says_class class ≡ packet_class packet.now) }
    ensures { result ≡ claimed packet.now (says_asked asked) }
{
    if !packet::is_reply(class) {
        return 0;
    }
    match asked {
        None => 0,
        Some(request) => { if request.descriptors { packet[1] } else { 0 } }
    }
}

fn is_held(place: Place) -> bool
    ensures { result ≡ is_held place }
{
    !matches!(place, Place::Dropped)
}

// Whether a packet of n bytes that goes there finds no room.
fn over_room(c: Connection, place: Place, n: usize) -> bool
    requires { Fitting c × (n ≤ most_packet) }
    ensures { result ≡ over_room c place n }
{
    if !is_held(place) {
        return false;
    }
    let window = c.window;
    c.room < window.end - window.start + (held::HEADER + n)
}

// Whether a packet of the code answers what was not asked: it is numbered, and above the last written.
pub fn is_ahead(code: u8, number: u64, written: u64) -> bool
    ensures { result ≡ ahead code number written }
{
    if number <= written {
        return false;
    }
    !packet::is_unnumbered(code)
}

// What is to be done with a packet that has its number.
fn plan_by(
    c: Connection,
    requests: &[u8],
    packet: &[u8],
    number: SequenceNumber,
) -> Result<Plan, Refusal>
    requires { (least_packet ≤ length packet.now) × (0 < capacity requests.now) × (length packet.now ≤ most_packet) × Fitting c }
    ensures { says_plan result ≡ plan_by c packet.now number.0 (asked_in c requests.now number.0) }
{
    if is_ahead(packet[0], number.0, c.written) {
        return Err(Refusal::Ahead);
    }
    let request = request_of(c, requests, number.0);
    let class = packet::class_of(packet[0]);
    let place = place_of(class, request);
    let claim = claimed(class, packet, request);
    if c.counts.waiting < claim as usize {
        return Err(Refusal::FewDescriptors);
    }
    if over_room(c, place, packet.len()) {
        return Err(Refusal::NoRoom);
    }
    Ok(Plan {
        place,
        number,
        fds: claim,
        class,
    })
}

// What is to be done with a packet: by 1 and 2 for its length, by 3 at the end of the numbers, by 20
// where it answers what was not asked, by 4 where it claims more descriptors than wait, and by 5
// where it is to be held and finds no room, nothing; otherwise it is filed.
pub fn plan_of(c: Connection, requests: &[u8], packet: &[u8]) -> Result<Plan, Refusal>
    requires { (0 < capacity requests.now) × Fitting c }
    ensures { says_plan result ≡ plan_of c requests.now packet.now }
{
    if packet.len() < packet::LEAST_PACKET {
        return Err(Refusal::ShortPacket);
    }
    if packet::MOST_PACKET < packet.len() {
        return Err(Refusal::LongPacket);
    }
    let number = packet::number_after(c.order, SequenceNumber(c.read), packet)?;
    plan_by(c, requests, packet, number)
}

// The state once a packet of the code has that number.
pub fn numbered(c: Connection, code: u8, number: u64) -> Connection
    requires { c.written ≤ last_number }
    ensures { result ≡ numbered_state c code number }
{
    Connection {
        expected: raised(code, number, c.expected),
        read: number,
        first: first_after(c.first, c.written, number),
        ..c
    }
}

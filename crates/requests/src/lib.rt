// Inside: the request room, one byte for each outstanding request.
//
// The slot of number n is n mod K, so letting older requests go moves nothing and writes nothing.
// What is kept of a request is one typed value, and the layout of its byte is known here alone:
// callers see the request of a number. Which numbers are outstanding is the caller's to know; only
// their bytes are read or must be legal (01, Rooms).
#![tactic(auto)]

ghost use Rattle.std.specs.Prelude.{◌≡◌, ◌-◌, ◌≤◌, ◌<◌, ◌%◌, length};
ghost use Rattle.octets.specs.Put.{cut};
ghost use Rattle.requests.specs.Room.{capacity, bytes_for, sized, mode_of, mode_number, byte_of, request_of, request_at, put_request, put_mode, legals, legal_run};

// What happens to the answer of a request.
#[derive(Clone, Copy)]
pub enum Mode {
    // No discard mode: reply and error are kept.
    Keep,
    DiscardReply,
    DiscardReplyAndError,
}

// What is kept of an outstanding request: whether its reply has descriptors, and its mode.
#[derive(Clone, Copy)]
pub struct Request {
    pub descriptors: bool,
    pub mode: Mode,
}

// The most requests that a room can be for.
pub const MOST_REQUESTS: usize = 65536;

// The largest byte of a request.
const LAST_BYTE: u8 = 5;

// How many requests the room has bytes for.
pub fn capacity(room: &[u8]) -> usize
    ensures { result ≡ capacity room.now }
{
    room.len()
}

// How many bytes a room for k requests has.
pub fn bytes_for(k: usize) -> usize
    ensures { result ≡ bytes_for k }
{
    k
}

// Whether the room is one for k requests.
pub fn sized(room: &[u8], k: usize) -> bool
    ensures { result ≡ sized k room.now }
{
    if k < 1 {
        return false;
    }
    if MOST_REQUESTS < k {
        return false;
    }
    room.len() == k
}

// The request of a number. The room stays a lent slice, and that it has a place a clause: C lends it at
// each call.
pub fn get(room: &[u8], number: u64) -> Request
    requires { 0 < capacity room.now }
    ensures { result ≡ request_at room.now number }
{
    let at = slot(room.len(), number);
    Request::from(room[at])
}

// The request of a number, set.
pub fn put(room: &mut [u8], number: u64, request: Request)
    requires { 0 < capacity room.old }
    ensures { room.new ≡ put_request room.old number request }
{
    let at = slot(room.len(), number);
    room[at] = u8::from(request);
}

// The mode of the request of a number, set; whether it has descriptors stays.
pub fn put_mode(room: &mut [u8], number: u64, mode: Mode)
    requires { 0 < capacity room.old }
    ensures { room.new ≡ put_mode room.old number mode }
{
    let request = get(room, number);
    put(room, number, Request { mode, ..request });
}

// Whether each byte of the count requests from number first on is legal.
pub fn legal(room: &[u8], first: u64, count: usize) -> bool
    requires { (0 < capacity room.now) × (count ≤ capacity room.now) }
    ensures { result ≡ legals room.now first count }
{
    let k = room.len();
    let start = slot(k, first);
    if count <= k - start {
        return legal_run(room, start, start + count);
    }
    if !legal_run(room, start, k) {
        return false;
    }
    legal_run(room, 0, count - (k - start))
}

// Whether the bytes from lo to hi are legal: without an early exit, so that it is vectorised.
fn legal_run(room: &[u8], lo: usize, hi: usize) -> bool
    requires { (lo ≤ hi) × (hi ≤ length room.now) }
    ensures { result ≡ legal_run (cut lo (hi - lo) room.now) }
{
    let mut good = true;
    for &byte in &room[lo..hi] {
        if LAST_BYTE < byte {
            good = false;
        }
    }
    good
}

// Where a number's byte is in a room of k bytes. The largest room needs no division.
fn slot(k: usize, number: u64) -> usize
    requires { 0 < k }
    ensures { (result ≡ number % k) × (result < k) }
{
    if k == MOST_REQUESTS {
        return (number % (MOST_REQUESTS as u64)) as usize;
    }
    (number % (k as u64)) as usize
}

// The lowest bit of a byte says whether there are descriptors, the others are the mode's number.
impl From<u8> for Request {
    ghost from_gives = { λ byte request. request ≡ request_of byte };

    fn from(byte: u8) -> Request {
        Request {
            descriptors: byte % 2 == 1,
            mode: Mode::from(byte / 2),
        }
    }
}

// A number above 2 is in no legal byte.
impl From<u8> for Mode {
    ghost from_gives = { λ number mode. mode ≡ mode_of number };

    fn from(number: u8) -> Mode {
        match number {
            0 => Mode::Keep,
            1 => Mode::DiscardReply,
            _ => Mode::DiscardReplyAndError,
        }
    }
}

impl From<Request> for u8 {
    ghost from_gives = { λ request byte. byte ≡ byte_of request };

    fn from(request: Request) -> u8 {
        2 * u8::from(request.mode) + request.descriptors as u8
    }
}

impl From<Mode> for u8 {
    ghost from_gives = { λ mode number. number ≡ mode_number mode };

    fn from(mode: Mode) -> u8 {
        mode as u8
    }
}

// Inside: the descriptors inside the engine, at most 256 opaque numbers of 32 bits (01, Rooms).
//
// They stand in 256 lent slots, side by side: those to be closed, in the order in which the Rust
// would close them; those held, reply by reply; those waiting for a reply. Three counts, by value,
// say where one part ends and the next begins. A reply that is held takes its descriptors by
// moving a boundary. A descriptor is only ever moved, so each is in one place; what stands behind
// the three parts is decided, and is no state. Which reply holds which is the caller's to know.
#![tactic(auto)]

mod moves;

ghost use Rattle.std.specs.Prelude.{◌≡◌, ◌+◌, ◌≤◌, length};
ghost use Rattle.descriptors.specs.Room.{most_descriptors, total, room, Sound, sound, enqueue, hold_counts, close_waiting, close_held, hand_out, take_closed, closing, held_run, Gives};

// How many slots there are.
pub const MOST_DESCRIPTORS: usize = 256;

// How many descriptors are to be closed, held and waiting. The slots stay a parameter of their own: C
// lends them at each call, and the counts are kept by value between calls.
#[derive(Clone, Copy)]
pub struct Counts {
    pub closed: usize,
    pub held: usize,
    pub waiting: usize,
}

// Whether there are 256 slots, and at most so many descriptors.
pub fn sound(slots: &[u32], counts: Counts) -> bool
    ensures { result ≡ sound (room slots.now counts) }
{
    if slots.len() != MOST_DESCRIPTORS {
        return false;
    }
    if MOST_DESCRIPTORS < counts.closed {
        return false;
    }
    let rest = MOST_DESCRIPTORS - counts.closed;
    if rest < counts.held {
        return false;
    }
    counts.waiting <= rest - counts.held
}

// The descriptors of list come to wait, behind the others.
pub fn enqueue(slots: &mut [u32], counts: Counts, list: &[u32]) -> Counts
    requires { Sound (room slots.old counts) × (total counts + length list.now ≤ most_descriptors) }
    ensures { room slots.new result ≡ enqueue list.now (room slots.old counts) }
{
    let end = counts.closed + counts.held + counts.waiting;
    moves::copy(slots, end, list, 0, list.len());
    Counts {
        waiting: counts.waiting + list.len(),
        ..counts
    }
}

// The first n that wait are held by the newest reply.
pub fn hold(counts: Counts, n: usize) -> Counts
    requires { (total counts ≤ most_descriptors) × (n ≤ counts.waiting) }
    ensures { result ≡ hold_counts n counts }
{
    Counts {
        held: counts.held + n,
        waiting: counts.waiting - n,
        ..counts
    }
}

// The first n that wait are to be closed, behind the others.
pub fn close_waiting(slots: &mut [u32], counts: Counts, n: usize) -> Counts
    requires { Sound (room slots.old counts) × (n ≤ counts.waiting) }
    ensures { room slots.new result ≡ close_waiting n (room slots.old counts) }
{
    let start = counts.closed;
    let mid = start + counts.held;
    moves::rotate(slots, start, mid, mid + n);
    Counts {
        closed: start + n,
        waiting: counts.waiting - n,
        ..counts
    }
}

// The n that are held from place at on are to be closed, behind the others.
pub fn close_held(slots: &mut [u32], counts: Counts, at: usize, n: usize) -> Counts
    requires { Sound (room slots.old counts) × (at + n ≤ counts.held) }
    ensures { room slots.new result ≡ close_held at n (room slots.old counts) }
{
    let start = counts.closed;
    let run = start + at;
    moves::rotate(slots, start, run, run + n);
    Counts {
        closed: start + n,
        held: counts.held - n,
        ..counts
    }
}

// The n that are held from place at on go to the start of out, and leave.
pub fn hand_out(slots: &mut [u32], counts: Counts, at: usize, n: usize, out: &mut [u32]) -> Counts
    requires { Sound (room slots.old counts) × (at + n ≤ counts.held) × (n ≤ length out.old) }
    ensures { Gives (hand_out at n (room slots.old counts)) (held_run at n (room slots.old counts)) out.old (room slots.new result) out.new }
{
    let from = counts.closed + at;
    let next = from + n;
    let end = counts.closed + counts.held + counts.waiting;
    moves::copy(out, 0, slots, from, n);
    slots.copy_within(next..end, from);
    Counts {
        held: counts.held - n,
        ..counts
    }
}

// Those to be closed go to the start of out, all of them, and leave.
pub fn take_closed(slots: &mut [u32], counts: Counts, out: &mut [u32]) -> Counts
    requires { Sound (room slots.old counts) × (counts.closed ≤ length out.old) }
    ensures { Gives (take_closed (room slots.old counts)) (closing (room slots.old counts)) out.old (room slots.new result) out.new }
{
    let n = counts.closed;
    moves::copy(out, 0, slots, 0, n);
    slots.copy_within(n..n + counts.held + counts.waiting, 0);
    Counts {
        closed: 0,
        ..counts
    }
}

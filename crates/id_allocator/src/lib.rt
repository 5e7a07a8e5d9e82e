// The ids that a client gives its resources (01, Ids; id_allocator.rs).
//
// An allocator is three numbers: the next id, the last id, and the step from an id to the one after
// it. `new` makes one from the base and the mask of the setup, `generate_id` gives its next id, and
// `update_xid_range` puts it on a range that the server grants once the ids are exhausted. Past the
// last id the next stands one step on, which may be over 2^32 - 1: so the numbers have 64 bits. Where
// the Rust's 32 bits overflow, the answer is 11 after the last id and 12 for such a range.
//
// Calls in a row never give an id twice, nor one past the last. Anyone can build an `IdAllocator` of
// any three numbers, so each call first asks whether it is sound (01, Rooms). It never speaks to the
// server: who finds the ids exhausted asks XC-MISC for a range.
//
// A method takes the allocator by value and hands the next one back inside its answer; after a
// refusal the caller still has the one it gave. `generate_id` and `update_xid_range` are there as
// functions too, which are lent the allocator and update its three numbers where it stands (`lent`).
//
// `specs/Ids` says what each method answers, `specs/Lent` what that is to who lends the allocator,
// `specs/Runs` what calls in a row give, and `specs/Theorems` what follows.
#![tactic(auto)]

mod lent;

ghost use Rattle.std.specs.Prelude.{◌≡◌, ◌≤◌};
ghost use Rattle.id_allocator.specs.Ids.{bits, lowest_bit, sound, no_ids};
ghost use Rattle.id_allocator.specs.Promises.{MakesIds, GivesId, TakesRange};

pub use lent::{generate_id, update_xid_range};
use refusal::Refusal;

// Ids are below 2^32.
const LIMIT: u64 = 4294967296;

// An allocator for X11 ids: it generates them from the range that the server assigned the client.
#[derive(Clone, Copy)]
pub struct IdAllocator {
    // The id that comes next, unless it is past the last.
    pub next: u64,
    // The last id.
    pub last: u64,
    // The difference of two ids in a row, a power of two.
    pub step: u64,
}

// What `generate_id` gives: the id, and the allocator to go on with.
#[derive(Clone, Copy)]
pub struct Generated {
    pub id: u32,
    pub next: IdAllocator,
}

// The right-most set bit, as the Rust finds it: of 0b110 this is 0b010.
fn lowest_bit(mask: u32) -> u32
    requires { 1 ≤ mask }
    ensures { result ≡ lowest_bit bits mask }
{
    mask & (1 + !mask)
}

// Inside, for savepoints too: whether an allocator is sound (01, Rooms). A power of two is its own
// lowest set bit.
pub fn is_sound(a: IdAllocator) -> bool
    ensures { result ≡ sound a }
{
    if a.step == 0 {
        return false;
    }
    if a.step >= LIMIT {
        return false;
    }
    if a.last >= LIMIT {
        return false;
    }
    let step = a.step as u32;
    if lowest_bit(step) != step {
        return false;
    }
    a.next <= a.last + a.step
}

// Whether a range is without ids: (0, 1) is the server's word for that, and a count of 0 should
// never come.
fn is_none(start: u32, count: u32) -> bool
    ensures { result ≡ no_ids start count }
{
    if count == 0 {
        return true;
    }
    if start == 0 {
        return count == 1;
    }
    false
}

impl IdAllocator {
    // Create an allocator. The arguments are the `resource_id_base` and the `resource_id_mask` that
    // the server sent in its setup. Refuses a mask of 0.
    pub fn new(base: u32, mask: u32) -> Result<IdAllocator, Refusal>
        ensures { MakesIds base mask result }
    {
        if mask == 0 {
            return Err(Refusal::ZeroMask);
        }
        let next = base as u64;
        let last = (base | mask) as u64;
        let step = lowest_bit(mask) as u64;
        Ok(IdAllocator { next, last, step })
    }

    // Generate the next id. Refuses when no id is left.
    pub fn generate_id(self) -> Result<Generated, Refusal>
        ensures { GivesId self result }
    {
        if !is_sound(self) {
            return Err(Refusal::BadRoom);
        }
        if self.next > self.last {
            return Err(Refusal::IdsExhausted);
        }
        let id = self.next as u32;
        let mut next = self;
        next.next += self.step;
        Ok(Generated { id, next })
    }

    // Go on with the ids of a GetXIDRange reply, its start and its count. Refuses a range without
    // ids, and one that does not end below 2^32.
    pub fn update_xid_range(self, start: u32, count: u32) -> Result<IdAllocator, Refusal>
        ensures { TakesRange self start count result }
    {
        if !is_sound(self) {
            return Err(Refusal::BadRoom);
        }
        if is_none(start, count) {
            return Err(Refusal::IdsExhausted);
        }
        let span = (count as u64 - 1) * self.step;
        let last = start as u64 + span;
        if last >= LIMIT {
            return Err(Refusal::BadRange);
        }
        Ok(IdAllocator {
            next: start as u64,
            last,
            step: self.step,
        })
    }
}

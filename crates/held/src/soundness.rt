// Whether a state is sound: one pass over the window.
ghost use Rattle.std.specs.Prelude.{◌≡◌, ◌-◌, ◌≤◌, eqb, length};
ghost use Rattle.octets.specs.Logic.{choose};
ghost use Rattle.octets.specs.Put.{cut};
ghost use Rattle.held.specs.Head.{reply, most_store};
ghost use Rattle.held.specs.Walk.{walked, walked_on};

use crate::{Window, head};

// The most bytes of a store.
pub const MOST_STORE: usize = 16777216;

// The window lies in the store and reads as records that fit, the last ending at its end; the
// numbers of replies never fall, and no number held is above the last read. Then the answer is the
// number of descriptors that the replies have in all.
pub fn walk(store: &[u8], window: Window, last: u64) -> Option<usize>
    ensures { result ≡ walked last window store.now }
{
    if MOST_STORE < store.len() {
        return None;
    }
    if store.len() < window.end {
        return None;
    }
    if window.end < window.start {
        return None;
    }
    records(store, window.start, window.end, last)
}

// a for a reply, b for another kind
fn pick(kind: u8, a: u64, b: u64) -> u64
    ensures { result ≡ choose (eqb kind reply) a b }
{
    if kind == head::IN_REPLIES { a } else { b }
}

fn records(store: &[u8], start: usize, end: usize, last: u64) -> Option<usize>
    requires { (start ≤ end) × (end ≤ length store.now) × (length store.now ≤ most_store) }
    ensures { result ≡ walked_on 0 last 0 (cut start (end - start) store.now) }
{
    // A record says where the next one starts, which no range does, so the index is stepped by hand.
    let mut at = start;
    let mut from: u64 = 0;
    let mut sum: usize = 0;
    while at < end {
        let size = head::record_at(store, at, end)?;
        let number = head::number_at(store, at);
        if last < number {
            return None;
        }
        let next = pick(head::kind_at(store, at), number, from);
        if next < from {
            return None;
        }
        from = next;
        sum += head::count_at(store, at) as usize;
        at += size;
    }
    Some(sum)
}

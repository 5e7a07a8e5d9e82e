// The allocator lent: "then the allocator is lent and its three numbers are updated there" (01, Ids).
//
// The two calls have the Rust's names; its `&mut self` is their first argument, since a method of
// either name takes the allocator by value. Each asks the one by value and puts what it hands back
// in its place; a refusal is passed on before anything is put there.
ghost use Rattle.id_allocator.specs.Lent.{Generates, Updates};

use crate::IdAllocator;
use refusal::Refusal;

// Generate the next id. Refuses by 9 or 11, when no id is left.
pub fn generate_id(a: &mut IdAllocator) -> Result<u32, Refusal>
    ensures { Generates a.old result a.new }
{
    let generated = (*a).generate_id()?;
    *a = generated.next;
    Ok(generated.id)
}

// Go on with the ids of a GetXIDRange reply, its start and its count. Refuses by 9, by 11 a range
// without ids, and by 12 one that does not end below 2^32.
pub fn update_xid_range(a: &mut IdAllocator, start: u32, count: u32) -> Result<(), Refusal>
    ensures { Updates a.old start count result a.new }
{
    *a = (*a).update_xid_range(start, count)?;
    Ok(())
}

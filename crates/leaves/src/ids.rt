// The allocator of ids.
use id_allocator::{Generated, IdAllocator};
use refusal::Refusal;
use text::{Answer, Word};

pub(crate) fn begin(
    now: &mut Option<IdAllocator>,
    base: u32,
    mask: u32,
) -> Result<Answer, Refusal> {
    *now = Some(IdAllocator::new(base, mask)?);
    Ok(text::say(Word::Ok))
}

// Before there are any an allocator is unsound.
fn found(now: Option<IdAllocator>) -> Result<IdAllocator, Refusal> {
    now.ok_or(Refusal::BadRoom)
}

pub(crate) fn range(
    now: &mut Option<IdAllocator>,
    start: u32,
    count: u32,
) -> Result<Answer, Refusal> {
    let ids = found(*now)?;
    *now = Some(ids.update_xid_range(start, count)?);
    Ok(text::say(Word::Ok))
}

pub(crate) fn generate(now: &mut Option<IdAllocator>) -> Result<Answer, Refusal> {
    let ids = found(*now)?;
    let Generated { id, next } = ids.generate_id()?;
    *now = Some(next);
    Ok(text::count(None, u64::from(id)))
}

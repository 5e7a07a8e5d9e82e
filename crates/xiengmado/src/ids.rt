// `id_allocator`: resource ids from three lent numbers.
ghost use Rattle.answers.specs.Exported.{returned_of};
ghost use Rattle.xiengmado.specs.ExportsLeaves.{XmIdsNew, XmIdsGenerateId, XmIdsUpdateXidRange};

use id_allocator::IdAllocator;
use refusal::Refusal;

pub fn xm_ids_new(ids: &mut [u64], base: u32, mask: u32) -> Result<(), Refusal>
    ensures { XmIdsNew ids.old base mask ids.new (returned_of result) }
{
    if ids.len() != rows::THREE {
        return Err(Refusal::BadRoom);
    }
    rows::put_ids(ids, IdAllocator::new(base, mask)?);
    Ok(())
}

pub fn xm_ids_generate_id(ids: &mut [u64], id: &mut u32) -> Result<(), Refusal>
    ensures { XmIdsGenerateId ids.old id.old ids.new id.new (returned_of result) }
{
    let generated = rows::ids(ids).generate_id()?;
    rows::put_ids(ids, generated.next);
    *id = generated.id;
    Ok(())
}

pub fn xm_ids_update_xid_range(ids: &mut [u64], start: u32, count: u32) -> Result<(), Refusal>
    ensures { XmIdsUpdateXidRange ids.old start count ids.new (returned_of result) }
{
    let next = rows::ids(ids).update_xid_range(start, count)?;
    rows::put_ids(ids, next);
    Ok(())
}

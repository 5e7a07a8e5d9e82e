// `id_allocator`: resource ids from three lent numbers.
ghost use Rattle.xiengmado.specs.ExportsLeaves.{XmIdsNew, XmIdsGenerateId, XmIdsUpdateXidRange};

use answers::returned;

#[unsafe(no_mangle)]
pub extern "C" fn xm_ids_new(ids: &mut [u64], base: u32, mask: u32) -> u32
    ensures { XmIdsNew ids.old base mask ids.new result }
{
    returned(xiengmado::ids::xm_ids_new(ids, base, mask))
}

#[unsafe(no_mangle)]
pub extern "C" fn xm_ids_generate_id(ids: &mut [u64], id: &mut u32) -> u32
    ensures { XmIdsGenerateId ids.old id.old ids.new id.new result }
{
    returned(xiengmado::ids::xm_ids_generate_id(ids, id))
}

#[unsafe(no_mangle)]
pub extern "C" fn xm_ids_update_xid_range(ids: &mut [u64], start: u32, count: u32) -> u32
    ensures { XmIdsUpdateXidRange ids.old start count ids.new result }
{
    returned(xiengmado::ids::xm_ids_update_xid_range(ids, start, count))
}

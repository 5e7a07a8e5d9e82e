// `xc_misc`: three requests and three replies.
ghost use Rattle.xiengmado.specs.ExportsLeaves.{XmXcMiscGetVersionRequest, XmXcMiscGetXidRangeRequest, XmXcMiscGetXidListRequest, XmXcMiscGetVersionReply, XmXcMiscGetXidRangeReply, XmXcMiscGetXidListReply};

use answers::returned;

#[unsafe(no_mangle)]
pub extern "C" fn xm_xc_misc_get_version_request(
    order: u8,
    opcode: u8,
    major: u16,
    minor: u16,
    out: &mut [u8],
    size: &mut usize,
) -> u32
    ensures { XmXcMiscGetVersionRequest order opcode major minor out.old size.old out.new size.new result }
{
    returned(xiengmado::misc::xm_xc_misc_get_version_request(
        order, opcode, major, minor, out, size,
    ))
}

#[unsafe(no_mangle)]
pub extern "C" fn xm_xc_misc_get_xid_range_request(
    order: u8,
    opcode: u8,
    out: &mut [u8],
    size: &mut usize,
) -> u32
    ensures { XmXcMiscGetXidRangeRequest order opcode out.old size.old out.new size.new result }
{
    returned(xiengmado::misc::xm_xc_misc_get_xid_range_request(order, opcode, out, size))
}

#[unsafe(no_mangle)]
pub extern "C" fn xm_xc_misc_get_xid_list_request(
    order: u8,
    opcode: u8,
    count: u32,
    out: &mut [u8],
    size: &mut usize,
) -> u32
    ensures { XmXcMiscGetXidListRequest order opcode count out.old size.old out.new size.new result }
{
    returned(xiengmado::misc::xm_xc_misc_get_xid_list_request(order, opcode, count, out, size))
}

#[unsafe(no_mangle)]
pub extern "C" fn xm_xc_misc_get_version_reply(
    order: u8,
    packet: &[u8],
    sequence: &mut u16,
    length: &mut u32,
    major: &mut u16,
    minor: &mut u16,
) -> u32
    ensures { XmXcMiscGetVersionReply order packet.now sequence.old length.old major.old minor.old sequence.new length.new major.new minor.new result }
{
    returned(xiengmado::misc::xm_xc_misc_get_version_reply(
        order, packet, sequence, length, major, minor,
    ))
}

#[unsafe(no_mangle)]
pub extern "C" fn xm_xc_misc_get_xid_range_reply(
    order: u8,
    packet: &[u8],
    sequence: &mut u16,
    length: &mut u32,
    start: &mut u32,
    count: &mut u32,
) -> u32
    ensures { XmXcMiscGetXidRangeReply order packet.now sequence.old length.old start.old count.old sequence.new length.new start.new count.new result }
{
    returned(xiengmado::misc::xm_xc_misc_get_xid_range_reply(
        order, packet, sequence, length, start, count,
    ))
}

#[unsafe(no_mangle)]
pub extern "C" fn xm_xc_misc_get_xid_list_reply(
    order: u8,
    packet: &[u8],
    ids: &mut [u32],
    sequence: &mut u16,
    length: &mut u32,
    count: &mut u32,
) -> u32
    ensures { XmXcMiscGetXidListReply order packet.now ids.old sequence.old length.old count.old ids.new sequence.new length.new count.new result }
{
    returned(xiengmado::misc::xm_xc_misc_get_xid_list_reply(
        order, packet, ids, sequence, length, count,
    ))
}

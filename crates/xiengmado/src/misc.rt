// `xc_misc`: three requests and three replies.
ghost use Rattle.answers.specs.Exported.{returned_of};
ghost use Rattle.xiengmado.specs.ExportsLeaves.{XmXcMiscGetVersionRequest, XmXcMiscGetXidRangeRequest, XmXcMiscGetXidListRequest, XmXcMiscGetVersionReply, XmXcMiscGetXidRangeReply, XmXcMiscGetXidListReply};

use refusal::Refusal;

pub fn xm_xc_misc_get_version_request(
    order: u8,
    opcode: u8,
    major: u16,
    minor: u16,
    out: &mut [u8],
    size: &mut usize,
) -> Result<(), Refusal>
    ensures { XmXcMiscGetVersionRequest order opcode major minor out.old size.old out.new size.new (returned_of result) }
{
    *size = xc_misc::get_version_request(order, opcode, major, minor, out)?;
    Ok(())
}

pub fn xm_xc_misc_get_xid_range_request(
    order: u8,
    opcode: u8,
    out: &mut [u8],
    size: &mut usize,
) -> Result<(), Refusal>
    ensures { XmXcMiscGetXidRangeRequest order opcode out.old size.old out.new size.new (returned_of result) }
{
    *size = xc_misc::get_xid_range_request(order, opcode, out)?;
    Ok(())
}

pub fn xm_xc_misc_get_xid_list_request(
    order: u8,
    opcode: u8,
    count: u32,
    out: &mut [u8],
    size: &mut usize,
) -> Result<(), Refusal>
    ensures { XmXcMiscGetXidListRequest order opcode count out.old size.old out.new size.new (returned_of result) }
{
    *size = xc_misc::get_xid_list_request(order, opcode, count, out)?;
    Ok(())
}

pub fn xm_xc_misc_get_version_reply(
    order: u8,
    packet: &[u8],
    sequence: &mut u16,
    length: &mut u32,
    major: &mut u16,
    minor: &mut u16,
) -> Result<(), Refusal>
    ensures { XmXcMiscGetVersionReply order packet.now sequence.old length.old major.old minor.old sequence.new length.new major.new minor.new (returned_of result) }
{
    let reply = xc_misc::get_version_reply(order, packet)?;
    *sequence = reply.sequence.0;
    *length = reply.length;
    *major = reply.major;
    *minor = reply.minor;
    Ok(())
}

pub fn xm_xc_misc_get_xid_range_reply(
    order: u8,
    packet: &[u8],
    sequence: &mut u16,
    length: &mut u32,
    start: &mut u32,
    count: &mut u32,
) -> Result<(), Refusal>
    ensures { XmXcMiscGetXidRangeReply order packet.now sequence.old length.old start.old count.old sequence.new length.new start.new count.new (returned_of result) }
{
    let reply = xc_misc::get_xid_range_reply(order, packet)?;
    *sequence = reply.sequence.0;
    *length = reply.length;
    *start = reply.start;
    *count = reply.count;
    Ok(())
}

pub fn xm_xc_misc_get_xid_list_reply(
    order: u8,
    packet: &[u8],
    ids: &mut [u32],
    sequence: &mut u16,
    length: &mut u32,
    count: &mut u32,
) -> Result<(), Refusal>
    ensures { XmXcMiscGetXidListReply order packet.now ids.old sequence.old length.old count.old ids.new sequence.new length.new count.new (returned_of result) }
{
    let reply = xc_misc::get_xid_list_reply(order, packet, ids)?;
    *sequence = reply.sequence.0;
    *length = reply.length;
    *count = reply.count;
    Ok(())
}

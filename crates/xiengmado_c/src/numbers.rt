// `sequence`: the number of a packet, and that of a request.
ghost use Rattle.xiengmado.specs.ExportsLeaves.{XmFullNumber, XmSend};

use answers::returned;

#[unsafe(no_mangle)]
pub extern "C" fn xm_full_number(read: u64, wire: u16, number: &mut u64) -> u32
    ensures { XmFullNumber read wire number.old number.new result }
{
    returned(xiengmado::numbers::xm_full_number(read, wire, number))
}

#[unsafe(no_mangle)]
pub extern "C" fn xm_send(
    written: u64,
    expected: u64,
    reply: bool,
    number: &mut u64,
    next: &mut u64,
) -> u32
    ensures { XmSend written expected reply number.old next.old number.new next.new result }
{
    returned(xiengmado::numbers::xm_send(written, expected, reply, number, next))
}

// `x11_utils`: what a packet must be, and the fields of an error.
ghost use Rattle.xiengmado.specs.ExportsLeaves.{XmCheckPacket, XmError};

use answers::returned;

#[unsafe(no_mangle)]
pub extern "C" fn xm_check_packet(order: u8, packet: &[u8], first: u8) -> u32
    ensures { XmCheckPacket order packet.now first result }
{
    returned(xiengmado::packets::xm_check_packet(order, packet, first))
}

#[unsafe(no_mangle)]
pub extern "C" fn xm_error(
    order: u8,
    packet: &[u8],
    error: &mut u8,
    sequence: &mut u16,
    value: &mut u32,
    minor: &mut u16,
    major: &mut u8,
) -> u32
    ensures { XmError order packet.now error.old sequence.old value.old minor.old major.old error.new sequence.new value.new minor.new major.new result }
{
    returned(xiengmado::packets::xm_error(order, packet, error, sequence, value, minor, major))
}

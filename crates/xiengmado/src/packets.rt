// `x11_utils`: what a packet must be, and the fields of an error.
ghost use Rattle.answers.specs.Exported.{returned_of};
ghost use Rattle.xiengmado.specs.ExportsLeaves.{XmCheckPacket, XmError};

use refusal::Refusal;
use x11_utils::X11Error;

pub fn xm_check_packet(order: u8, packet: &[u8], first: u8) -> Result<(), Refusal>
    ensures { XmCheckPacket order packet.now first (returned_of result) }
{
    x11_utils::check_packet(order, packet, first)
}

pub fn xm_error(
    order: u8,
    packet: &[u8],
    error: &mut u8,
    sequence: &mut u16,
    value: &mut u32,
    minor: &mut u16,
    major: &mut u8,
) -> Result<(), Refusal>
    ensures { XmError order packet.now error.old sequence.old value.old minor.old major.old error.new sequence.new value.new minor.new major.new (returned_of result) }
{
    let fields = X11Error::try_parse(order, packet)?;
    *error = fields.code;
    *sequence = fields.sequence.0;
    *value = fields.value;
    *minor = fields.minor;
    *major = fields.major;
    Ok(())
}

// `sequence`: the number of a packet, and that of a request.
ghost use Rattle.answers.specs.Exported.{returned_of};
ghost use Rattle.xiengmado.specs.ExportsLeaves.{XmFullNumber, XmSend};

use refusal::Refusal;
use sequence::{SequenceNumber, WireNumber};

pub fn xm_full_number(read: u64, wire: u16, number: &mut u64) -> Result<(), Refusal>
    ensures { XmFullNumber read wire number.old number.new (returned_of result) }
{
    let full = sequence::full_number(SequenceNumber(read), WireNumber(wire))?;
    *number = full.0;
    Ok(())
}

pub fn xm_send(
    written: u64,
    expected: u64,
    reply: bool,
    number: &mut u64,
    next: &mut u64,
) -> Result<(), Refusal>
    ensures { XmSend written expected reply number.old next.old number.new next.new (returned_of result) }
{
    let sent = sequence::send(SequenceNumber(written), SequenceNumber(expected), reply)?;
    *number = sent.number.0;
    *next = sent.expected.0;
    Ok(())
}

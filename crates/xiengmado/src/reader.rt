// `packet_reader`: the length and the class of a packet, and a reader in three lent numbers beside its buffer.
ghost use Rattle.answers.specs.Exported.{returned_of};
ghost use Rattle.xiengmado.specs.ExportsReader.{XmPacketLength, XmReaderNew, XmReaderRemainingCapacity, XmReaderBuffer, XmReaderAdvance};

use packet_reader::{Advanced, PacketReader};
use refusal::Refusal;

pub fn xm_packet_length(packet_code: u8, field: u32, class: &mut u8) -> usize
    ensures { XmPacketLength packet_code field class.new result }
{
    let framed = packet_reader::frame(packet_code, field);
    *class = u8::from(framed.class);
    framed.length
}

pub fn xm_reader_new(reader: &mut [u64], order: u8, buf: &[u8]) -> Result<(), Refusal>
    ensures { XmReaderNew reader.old order buf.now reader.new (returned_of result) }
{
    if reader.len() != rows::THREE {
        return Err(Refusal::BadRoom);
    }
    rows::put_reader(reader, PacketReader::new(order, buf)?);
    Ok(())
}

pub fn xm_reader_remaining_capacity(
    reader: &[u64],
    buf: &[u8],
    size: &mut usize,
) -> Result<(), Refusal>
    ensures { XmReaderRemainingCapacity reader.now buf.now size.old size.new (returned_of result) }
{
    *size = rows::reader(reader).remaining_capacity(buf)?;
    Ok(())
}

// The part that is to be filled next begins where the filled bytes end.
pub fn xm_reader_buffer(
    reader: &[u64],
    buf: &[u8],
    start: &mut usize,
    size: &mut usize,
) -> Result<(), Refusal>
    ensures { XmReaderBuffer reader.now buf.now start.old size.old start.new size.new (returned_of result) }
{
    let at = rows::reader(reader);
    *size = at.remaining_capacity(buf)?;
    *start = at.filled;
    Ok(())
}

// A packet that isn't whole yet has the length 0, and its class is shown as 0.
pub fn xm_reader_advance(
    reader: &mut [u64],
    buf: &[u8],
    amount: usize,
    size: &mut usize,
    class: &mut u8,
) -> Result<(), Refusal>
    ensures { XmReaderAdvance reader.old buf.now amount size.old class.old reader.new size.new class.new (returned_of result) }
{
    match rows::reader(reader).advance(buf, amount)? {
        Advanced::NotYet(next) => {
            rows::put_reader(reader, next);
            *size = 0;
            *class = 0;
            Ok(())
        }
        Advanced::Packet(n, of, next) => {
            rows::put_reader(reader, next);
            *size = n;
            *class = u8::from(of);
            Ok(())
        }
    }
}

// `packet_reader`: the length and the class of a packet, and a reader in three lent numbers beside its buffer.
ghost use Rattle.xiengmado.specs.ExportsReader.{XmPacketLength, XmReaderNew, XmReaderRemainingCapacity, XmReaderBuffer, XmReaderAdvance};

use answers::returned;

#[unsafe(no_mangle)]
pub extern "C" fn xm_packet_length(packet_code: u8, field: u32, class: &mut u8) -> usize
    ensures { XmPacketLength packet_code field class.new result }
{
    xiengmado::reader::xm_packet_length(packet_code, field, class)
}

#[unsafe(no_mangle)]
pub extern "C" fn xm_reader_new(reader: &mut [u64], order: u8, buf: &[u8]) -> u32
    ensures { XmReaderNew reader.old order buf.now reader.new result }
{
    returned(xiengmado::reader::xm_reader_new(reader, order, buf))
}

#[unsafe(no_mangle)]
pub extern "C" fn xm_reader_remaining_capacity(reader: &[u64], buf: &[u8], size: &mut usize) -> u32
    ensures { XmReaderRemainingCapacity reader.now buf.now size.old size.new result }
{
    returned(xiengmado::reader::xm_reader_remaining_capacity(reader, buf, size))
}

#[unsafe(no_mangle)]
pub extern "C" fn xm_reader_buffer(
    reader: &[u64],
    buf: &[u8],
    start: &mut usize,
    size: &mut usize,
) -> u32
    ensures { XmReaderBuffer reader.now buf.now start.old size.old start.new size.new result }
{
    returned(xiengmado::reader::xm_reader_buffer(reader, buf, start, size))
}

#[unsafe(no_mangle)]
pub extern "C" fn xm_reader_advance(
    reader: &mut [u64],
    buf: &[u8],
    amount: usize,
    size: &mut usize,
    class: &mut u8,
) -> u32
    ensures { XmReaderAdvance reader.old buf.now amount size.old class.old reader.new size.new class.new result }
{
    returned(xiengmado::reader::xm_reader_advance(reader, buf, amount, size, class))
}

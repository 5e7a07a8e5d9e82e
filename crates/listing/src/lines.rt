// Lines, one behind the other from the start of a lent output.
ghost use Rattle.std.specs.Prelude.{◌≡◌, ◌++◌, ◌+◌, ◌≤◌, length};
ghost use Rattle.refusal.specs.Numbers.{number_of};
ghost use Rattle.packet.specs.Packet.{least_packet};
ghost use Rattle.listing.specs.Text.{newline, item as text_item, line_of, refused_line};
ghost use Rattle.listing.specs.Call.{item_most, line_most, Wrote, ahead_of, numbered_of, says_next, Lists, closing as call_closing, closes, row_of};

use super::{Stage, Wants};
use itoa::Buffer;
use packet_reader::Begins;
use refusal::Refusal;
use sequence::SequenceNumber;

// The most bytes of a line: three numbers of 20 digits, and the byte behind each.
pub const MOST_LINE: usize = 63;

// What bytes come to: so many are used and so many of text written.
#[derive(Clone, Copy)]
pub struct Listed {
    pub used: usize,
    pub written: usize,
    pub place: Stage,
    pub wants: Wants,
}

// n in decimal, and a byte behind it, from index at on; where they end.
fn item(out: &mut [u8], at: usize, n: u64, behind: u8) -> usize
    requires { at + item_most ≤ length out.old }
    ensures { Wrote item_most out.old at (text_item n behind) result out.new }
{
    let mut digits = Buffer::new();
    let text = digits.format(n).as_bytes();
    octets::copy_in(out, at, text);
    let end = at + text.len();
    out[end] = behind;
    end + 1
}

// The line of a packet.
fn line(out: &mut [u8], at: usize, code: u8, size: usize, number: u64) -> usize
    requires { at + line_most ≤ length out.old }
    ensures { Wrote line_most out.old at (line_of code size number) result out.new }
{
    let a = item(out, at, code as u64, b' ');
    let b = item(out, a, size as u64, b' ');
    item(out, b, number, b'\n')
}

// A last line: a word, and a number behind it.
fn last(out: &mut [u8], at: usize, word: &[u8], n: u64) -> usize
    requires { at + length word.now + item_most ≤ length out.old }
    ensures { Wrote (length word.now + item_most) out.old at (word.now ++ text_item n newline) result out.new }
{
    octets::copy_in(out, at, word);
    item(out, at + word.len(), n, b'\n')
}

// A packet: so many bytes, and its number.
#[derive(Clone, Copy)]
pub struct Next {
    pub size: usize,
    pub number: SequenceNumber,
}

// A whole packet.
fn numbered(read: SequenceNumber, packet: &[u8]) -> Result<Option<Next>, Refusal>
    requires { least_packet ≤ length packet.now }
    ensures { says_next result ≡ numbered_of read.0 packet.now }
{
    let number = packet::number_after(octets::LITTLE, read, packet)?;
    Ok(Some(Next {
        size: packet.len(),
        number,
    }))
}

// What bytes begin with after a last read, if it is a whole packet.
fn ahead(read: SequenceNumber, bytes: &[u8]) -> Result<Option<Next>, Refusal>
    ensures { says_next result ≡ ahead_of read.0 bytes.now }
{
    match packet_reader::front(octets::LITTLE, bytes) {
        Begins::Nothing => Ok(None),
        Begins::Part => Ok(None),
        Begins::Long => Err(Refusal::LongPacket),
        Begins::Whole(n, _) => numbered(read, &bytes[..n]),
    }
}

// No whole packet is left: the last line if the stream is over.
fn closing(
    read: SequenceNumber,
    left: usize,
    over: bool,
    out: &mut [u8],
    used: usize,
    at: usize,
) -> Listed
    requires { at + line_most ≤ length out.old }
    ensures { Lists (call_closing over read.0 left) used at out.old result out.new }
{
    if over {
        let end = last(out, at, b"end ", left as u64);
        return Listed {
            used,
            written: end,
            place: Stage::Ended,
            wants: Wants::Nothing,
        };
    }
    Listed {
        used,
        written: at,
        place: Stage::After(read),
        wants: Wants::Bytes,
    }
}

// The last line for a refusal.
fn refused(refusal: Refusal, out: &mut [u8], used: usize, at: usize) -> Listed
    requires { at + line_most ≤ length out.old }
    ensures { Lists (closes (refused_line (number_of refusal))) used at out.old result out.new }
{
    let end = last(out, at, b"refused ", refusal.number() as u64);
    Listed {
        used,
        written: end,
        place: Stage::Ended,
        wants: Wants::Nothing,
    }
}

// Lines of as many packets as are there and find room, and the last line where it is due. The loop
// stays a `while`: it counts no index, and goes on by the room that is left.
pub fn lines(start: SequenceNumber, bytes: &[u8], over: bool, out: &mut [u8]) -> Listed
    ensures { Lists (row_of over (length out.old) start.0 bytes.now) 0 0 out.old result out.new }
{
    let mut read = start;
    let mut used = 0;
    let mut end = 0;
    while MOST_LINE <= out.len() - end {
        match ahead(read, &bytes[used..]) {
            Ok(Some(Next { size, number })) => {
                end = line(out, end, bytes[used], size, number.0);
                used += size;
                read = number;
            }
            Ok(None) => return closing(read, bytes.len() - used, over, out, used, end),
            Err(refusal) => return refused(refusal, out, used, end),
        }
    }
    Listed {
        used,
        written: end,
        place: Stage::After(read),
        wants: Wants::Room,
    }
}

// The three requests.
ghost use Rattle.std.specs.Prelude.{◌≡◌, ◌≤◌, length};
ghost use Rattle.octets.specs.Put.{put};
ghost use Rattle.xc_misc.specs.Requests.{header, get_version, get_xid_range, get_xid_list, room_for, says_written, Writes};

use refusal::Refusal;

// XC-MISC, Encoding: the opcodes of the requests.
const GET_VERSION: u8 = 0;

const GET_XID_RANGE: u8 = 1;

const GET_XID_LIST: u8 = 2;

// GetVersion with the version that the client wants. opcode is the extension's own. Refused by 8
// where out has under eight bytes, then by 13 for another byte order; bytes past the eighth stay.
pub fn get_version_request(
    order: u8,
    opcode: u8,
    major: u16,
    minor: u16,
    out: &mut [u8],
) -> Result<usize, Refusal>
    ensures { Writes order (get_version order opcode major minor) out.old (says_written result) out.new }
{
    let n = room_for(order, out.len(), 8)?;
    put_version(order, opcode, major, minor, out);
    Ok(n)
}

// GetXIDRange. Refused as get_version_request, where out has under four bytes.
pub fn get_xid_range_request(order: u8, opcode: u8, out: &mut [u8]) -> Result<usize, Refusal>
    ensures { Writes order (get_xid_range order opcode) out.old (says_written result) out.new }
{
    let n = room_for(order, out.len(), 4)?;
    put_header(order, opcode, GET_XID_RANGE, 1, out);
    Ok(n)
}

// GetXIDList for count ids. Refused as get_version_request.
pub fn get_xid_list_request(
    order: u8,
    opcode: u8,
    count: u32,
    out: &mut [u8],
) -> Result<usize, Refusal>
    ensures { Writes order (get_xid_list order opcode count) out.old (says_written result) out.new }
{
    let n = room_for(order, out.len(), 8)?;
    put_list(order, opcode, count, out);
    Ok(n)
}

fn room_for(order: u8, have: usize, need: usize) -> Result<usize, Refusal>
    ensures { says_written result ≡ room_for order have need }
{
    if have < need {
        return Err(Refusal::OutShort);
    }
    if !octets::is_legal(order) {
        return Err(Refusal::BadOrder);
    }
    Ok(need)
}

fn put_header(order: u8, opcode: u8, minor: u8, units: u16, out: &mut [u8])
    requires { 4 ≤ length out.old }
    ensures { out.new ≡ put out.old 0 (header order opcode minor units) }
{
    out[0] = opcode;
    out[1] = minor;
    octets::put_u16(order, out, 2, units);
}

fn put_version(order: u8, opcode: u8, major: u16, minor: u16, out: &mut [u8])
    requires { 8 ≤ length out.old }
    ensures { out.new ≡ put out.old 0 (get_version order opcode major minor) }
{
    put_header(order, opcode, GET_VERSION, 2, out);
    octets::put_u16(order, out, 4, major);
    octets::put_u16(order, out, 6, minor);
}

fn put_list(order: u8, opcode: u8, count: u32, out: &mut [u8])
    requires { 8 ≤ length out.old }
    ensures { out.new ≡ put out.old 0 (get_xid_list order opcode count) }
{
    put_header(order, opcode, GET_XID_LIST, 2, out);
    octets::put_u32(order, out, 4, count);
}

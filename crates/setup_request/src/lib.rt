// The setup request: the bytes that open a connection (Core, Connection Setup).
//
// A client sends them before all else: its byte order, the version of the protocol that it speaks,
// and the name and data of an authorization, each padded to a multiple of four bytes. They are
// written to the start of an output that the caller lends; a refusal leaves it as it was. Nothing
// is kept. The server's reply is the business of `connect`.
#![tactic(auto)]

ghost use Rattle.std.specs.Prelude.{◌≡◌, ◌+◌, ◌≤◌, [], ◌∷◌, length};
ghost use Rattle.octets.specs.Put.{put};
ghost use Rattle.setup_request.specs.Pad.{pad as pad_pad, zeros, padded};
ghost use Rattle.setup_request.specs.Request.{opening, setup_request, size as request_size, name_at, most_text, room_for, says_written, Writes, RoomThere};

use refusal::Refusal;

// The version of the protocol that the client speaks.
const MAJOR_VERSION: u16 = 11;

const MINOR_VERSION: u16 = 0;

// Where the name starts, and the most bytes that the name or the data may have.
const NAME_AT: usize = 12;

pub const MOST_TEXT: usize = 65535;

// The request that opens a connection (`with_authorization` of the Rust), with the authorization's
// protocol name and data, both empty for none. Refused by 13 for another byte order, then by 16 for
// a name or data over 65,535 bytes, then by 8 where out is too small; bytes of out past the request
// stay.
pub fn setup_request(order: u8, name: &[u8], data: &[u8], out: &mut [u8]) -> Result<usize, Refusal>
    ensures { Writes order name.now «data».now out.old (says_written result) out.new }
{
    let n = room_for(order, name.len(), data.len(), out.len())?;
    put_request(order, name, data, out);
    Ok(n)
}

fn room_for(order: u8, name: usize, data: usize, have: usize) -> Result<usize, Refusal>
    ensures { says_written result ≡ room_for order name «data» have (request_size name «data») }
{
    if !octets::is_legal(order) {
        return Err(Refusal::BadOrder);
    }
    if MOST_TEXT < name {
        return Err(Refusal::LongAuth);
    }
    if MOST_TEXT < data {
        return Err(Refusal::LongAuth);
    }
    let need = size(name, data);
    if have < need {
        return Err(Refusal::OutShort);
    }
    Ok(need)
}

// How many bytes the request has for a name and data of so many bytes.
fn size(name: usize, data: usize) -> usize
    requires { (name ≤ most_text) × («data» ≤ most_text) }
    ensures { result ≡ request_size name «data» }
{
    NAME_AT + (name + pad(name)) + (data + pad(data))
}

// How many bytes round n up to a multiple of four.
fn pad(n: usize) -> usize
    ensures { result ≡ pad_pad n }
{
    (4 - n % 4) % 4
}

fn put_request(order: u8, name: &[u8], data: &[u8], out: &mut [u8])
    requires { RoomThere (length name.now) (length «data».now) (length out.old) (request_size (length name.now) (length «data».now)) }
    ensures { out.new ≡ put out.old 0 (setup_request order name.now «data».now) }
{
    put_head(order, name.len() as u16, data.len() as u16, out);
    put_padded(out, NAME_AT, name);
    put_padded(out, NAME_AT + name.len() + pad(name.len()), data);
}

fn put_head(order: u8, name: u16, data: u16, out: &mut [u8])
    requires { name_at ≤ length out.old }
    ensures { out.new ≡ put out.old 0 (opening order name «data») }
{
    put_order(order, out);
    octets::put_u16(order, out, 2, MAJOR_VERSION);
    octets::put_u16(order, out, 4, MINOR_VERSION);
    octets::put_u16(order, out, 6, name);
    octets::put_u16(order, out, 8, data);
    put_zeros(out, 10, 2);
}

fn put_order(order: u8, out: &mut [u8])
    requires { 2 ≤ length out.old }
    ensures { out.new ≡ put out.old 0 (order ∷ 0 ∷ []) }
{
    out[0] = order;
    out[1] = 0;
}

// All of text from index at on, and zeros up to a multiple of four bytes.
fn put_padded(out: &mut [u8], at: usize, text: &[u8])
    requires { at + (length text.now + pad_pad (length text.now)) ≤ length out.old }
    ensures { out.new ≡ put out.old at (padded text.now) }
{
    octets::copy_in(out, at, text);
    put_zeros(out, at + text.len(), pad(text.len()));
}

fn put_zeros(out: &mut [u8], at: usize, n: usize)
    requires { at + n ≤ length out.old }
    ensures { out.new ≡ put out.old at (zeros n) }
{
    out[at..at + n].fill(0);
}

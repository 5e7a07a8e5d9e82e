// What a complete reply says.
ghost use Rattle.std.specs.Prelude.{◌≡◌, ◌+◌, ◌≤◌, length};
ghost use Rattle.connect.specs.Handshake.{head};
ghost use Rattle.connect.specs.Setup.{fixed, setup_of, failed_of, authenticate_of, read_success, read_failed, read_reply, setup as setup_setup, nowhere as setup_nowhere, vendor_place, reason_place, Shown, says_setup};
ghost use Rattle.connect.specs.Promises.{ReadsSetup};

use super::handshake::{Connect, HEAD, is_sound};
use refusal::Refusal;

// The fixed bytes of a success, behind which the vendor's text stands.
pub const FIXED: usize = 40;

// The first byte of a reply.
const FAILED: u8 = 0;

const SUCCESS: u8 = 1;

const AUTHENTICATE: u8 = 2;

// The fixed fields of a success; Core's names stand above them.
#[derive(Clone, Copy)]
pub struct Setup {
    // protocol-major-version and protocol-minor-version.
    pub major: u16,
    pub minor: u16,
    // The length in units of four bytes of what stands behind the eighth byte.
    pub length: u16,
    // release-number.
    pub release: u32,
    // resource-id-base and resource-id-mask.
    pub base: u32,
    pub mask: u32,
    // motion-buffer-size.
    pub motion: u32,
    // The length of vendor.
    pub vendor: u16,
    // maximum-request-length.
    pub request: u16,
    // How many screens are in roots, and how many formats in pixmap-formats.
    pub roots: u8,
    pub formats: u8,
    // image-byte-order.
    pub image: u8,
    // bitmap-format-bit-order, bitmap-format-scanline-unit and bitmap-format-scanline-pad.
    pub bitmap: u8,
    pub unit: u8,
    pub pad: u8,
    // min-keycode and max-keycode.
    pub first: u8,
    pub last: u8,
}

// The connection is refused: the length of the reason, the server's version, and the length in
// units of four bytes of what stands behind the eighth byte.
#[derive(Clone, Copy)]
pub struct SetupFailed {
    pub reason: u8,
    pub major: u16,
    pub minor: u16,
    pub length: u16,
}

// Further authentication is required: the length in units of four bytes of the reason, which is all
// that stands behind the eighth byte.
#[derive(Clone, Copy)]
pub struct SetupAuthenticate {
    pub length: u16,
}

#[derive(Clone, Copy)]
pub enum SetupAnswer {
    Success(Setup),
    Failed(SetupFailed),
    Authenticate(SetupAuthenticate),
}

// Where a text stands in the buffer.
#[derive(Clone, Copy)]
struct TextAt {
    start: usize,
    size: usize,
}

impl Connect {
    // What the reply says (`into_setup` of the Rust). Refused by 9 for an unsound handshake, 15 for
    // one that isn't complete yet, 14 for another first byte or a text that passes the reply's end.
    pub fn setup(self, buf: &[u8]) -> Result<SetupAnswer, Refusal>
        ensures { ReadsSetup self buf.now result }
    {
        if !is_sound(self, buf) {
            return Err(Refusal::BadRoom);
        }
        if self.filled != self.target {
            return Err(Refusal::Incomplete);
        }
        let end = self.target;
        read_reply(self.order, &buf[..end])
    }

    // The vendor's text of a success, empty for any other reply and where `setup` refuses.
    pub fn vendor<'a>(self, buf: &'a [u8]) -> &'a [u8]
        ensures { Shown (vendor_place (setup_setup self buf.now)) buf.entry result }
    {
        part(buf, vendor_place(self.setup(buf)))
    }

    // Why the connection is refused or further authentication is required, empty for a success and
    // where `setup` refuses.
    pub fn reason<'a>(self, buf: &'a [u8]) -> &'a [u8]
        ensures { Shown (reason_place (setup_setup self buf.now)) buf.entry result }
    {
        part(buf, reason_place(self.setup(buf)))
    }
}

fn read_reply(order: u8, reply: &[u8]) -> Result<SetupAnswer, Refusal>
    requires { head ≤ length reply.now }
    ensures { says_setup result ≡ read_reply order reply.now }
{
    let status = reply[0];
    if status == FAILED {
        return read_failed(order, reply);
    }
    if status == SUCCESS {
        return read_success(order, reply);
    }
    if status == AUTHENTICATE {
        return Ok(SetupAnswer::Authenticate(authenticate_fields(order, reply)));
    }
    Err(Refusal::BadContent)
}

fn read_failed(order: u8, reply: &[u8]) -> Result<SetupAnswer, Refusal>
    requires { head ≤ length reply.now }
    ensures { says_setup result ≡ read_failed order reply.now }
{
    let failed = failed_fields(order, reply);
    let end = HEAD + failed.reason as usize;
    if reply.len() < end {
        return Err(Refusal::BadContent);
    }
    Ok(SetupAnswer::Failed(failed))
}

fn read_success(order: u8, reply: &[u8]) -> Result<SetupAnswer, Refusal>
    ensures { says_setup result ≡ read_success order reply.now }
{
    if reply.len() < FIXED {
        return Err(Refusal::BadContent);
    }
    let setup = success_fields(order, reply);
    let end = FIXED + setup.vendor as usize;
    if reply.len() < end {
        return Err(Refusal::BadContent);
    }
    Ok(SetupAnswer::Success(setup))
}

fn failed_fields(order: u8, reply: &[u8]) -> SetupFailed
    requires { head ≤ length reply.now }
    ensures { result ≡ failed_of order reply.now }
{
    SetupFailed {
        reason: reply[1],
        major: octets::get_u16(order, reply, 2),
        minor: octets::get_u16(order, reply, 4),
        length: octets::get_u16(order, reply, 6),
    }
}

fn authenticate_fields(order: u8, reply: &[u8]) -> SetupAuthenticate
    requires { head ≤ length reply.now }
    ensures { result ≡ authenticate_of order reply.now }
{
    SetupAuthenticate {
        length: octets::get_u16(order, reply, 6),
    }
}

fn success_fields(order: u8, reply: &[u8]) -> Setup
    requires { fixed ≤ length reply.now }
    ensures { result ≡ setup_of order reply.now }
{
    Setup {
        major: octets::get_u16(order, reply, 2),
        minor: octets::get_u16(order, reply, 4),
        length: octets::get_u16(order, reply, 6),
        release: octets::get_u32(order, reply, 8),
        base: octets::get_u32(order, reply, 12),
        mask: octets::get_u32(order, reply, 16),
        motion: octets::get_u32(order, reply, 20),
        vendor: octets::get_u16(order, reply, 24),
        request: octets::get_u16(order, reply, 26),
        roots: reply[28],
        formats: reply[29],
        image: reply[30],
        bitmap: reply[31],
        unit: reply[32],
        pad: reply[33],
        first: reply[34],
        last: reply[35],
    }
}

// A place of no bytes, as in the definitions of the two places; so it is no option.
fn nowhere() -> TextAt
    ensures { result ≡ setup_nowhere }
{
    TextAt { start: 0, size: 0 }
}

fn vendor_place(answer: Result<SetupAnswer, Refusal>) -> TextAt
    ensures { result ≡ vendor_place (says_setup answer) }
{
    match answer {
        Ok(SetupAnswer::Success(setup)) => TextAt {
            start: FIXED,
            size: setup.vendor as usize,
        },
        _ => nowhere(),
    }
}

fn reason_place(answer: Result<SetupAnswer, Refusal>) -> TextAt
    ensures { result ≡ reason_place (says_setup answer) }
{
    match answer {
        Ok(SetupAnswer::Failed(failed)) => TextAt {
            start: HEAD,
            size: failed.reason as usize,
        },
        Ok(SetupAnswer::Authenticate(authenticate)) => TextAt {
            start: HEAD,
            size: 4 * (authenticate.length as usize),
        },
        _ => nowhere(),
    }
}

fn part<'a>(buf: &'a [u8], place: TextAt) -> &'a [u8]
    requires { place.start + place.size ≤ length buf.now }
    ensures { Shown place buf.entry result }
{
    let start = place.start;
    let end = place.start + place.size;
    &buf[start..end]
}

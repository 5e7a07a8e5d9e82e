// `setup_request`, and `connect`: a handshake in three lent numbers beside its buffer.
ghost use Rattle.answers.specs.Exported.{returned_of};
ghost use Rattle.xiengmado.specs.ExportsHandshake.{XmSetupRequest, XmConnectNew, XmConnectRemainingCapacity, XmConnectBuffer, XmConnectAdvance, XmConnectSetup, XmConnectVendor, XmConnectReason};

use answers::give_setup;
use connect::{Advanced, Connect, SetupAnswer};
use refusal::Refusal;

pub fn xm_setup_request(
    order: u8,
    name: &[u8],
    auth: &[u8],
    out: &mut [u8],
    size: &mut usize,
) -> Result<(), Refusal>
    ensures { XmSetupRequest order name.now auth.now out.old size.old out.new size.new (returned_of result) }
{
    *size = setup_request::setup_request(order, name, auth, out)?;
    Ok(())
}

pub fn xm_connect_new(connect: &mut [u64], order: u8, buf: &[u8]) -> Result<(), Refusal>
    ensures { XmConnectNew connect.old order buf.now connect.new (returned_of result) }
{
    if connect.len() != rows::THREE {
        return Err(Refusal::BadRoom);
    }
    rows::put_handshake(connect, Connect::new(order, buf)?);
    Ok(())
}

pub fn xm_connect_remaining_capacity(
    connect: &[u64],
    buf: &[u8],
    size: &mut usize,
) -> Result<(), Refusal>
    ensures { XmConnectRemainingCapacity connect.now buf.now size.old size.new (returned_of result) }
{
    *size = rows::handshake(connect).remaining_capacity(buf)?;
    Ok(())
}

// The part that is to be filled next begins where the filled bytes end.
pub fn xm_connect_buffer(
    connect: &[u64],
    buf: &[u8],
    start: &mut usize,
    size: &mut usize,
) -> Result<(), Refusal>
    ensures { XmConnectBuffer connect.now buf.now start.old size.old start.new size.new (returned_of result) }
{
    let at = rows::handshake(connect);
    *size = at.remaining_capacity(buf)?;
    *start = at.filled;
    Ok(())
}

pub fn xm_connect_advance(
    connect: &mut [u64],
    buf: &[u8],
    amount: usize,
    complete: &mut u8,
) -> Result<(), Refusal>
    ensures { XmConnectAdvance connect.old buf.now amount complete.old connect.new complete.new (returned_of result) }
{
    match rows::handshake(connect).advance(buf, amount)? {
        Advanced::NotYet(next) => {
            rows::put_handshake(connect, next);
            *complete = 0;
            Ok(())
        }
        Advanced::Complete(next) => {
            rows::put_handshake(connect, next);
            *complete = 1;
            Ok(())
        }
    }
}

// A success fills all seventeen fields, a failure the first four, and further authentication the
// third alone, its length.
pub fn xm_connect_setup(
    connect: &[u64],
    buf: &[u8],
    status: &mut u8,
    fields: &mut [u32],
) -> Result<(), Refusal>
    ensures { XmConnectSetup connect.now buf.now status.old fields.old status.new fields.new (returned_of result) }
{
    give_setup(rows::handshake(connect).setup(buf), status, fields)
}

// The vendor's text of a success; of any other reply no text, at 0.
pub fn xm_connect_vendor(
    connect: &[u64],
    buf: &[u8],
    start: &mut usize,
    size: &mut usize,
) -> Result<(), Refusal>
    ensures { XmConnectVendor connect.now buf.now start.old size.old start.new size.new (returned_of result) }
{
    match rows::handshake(connect).setup(buf)? {
        SetupAnswer::Success(setup) => {
            *start = connect::FIXED;
            *size = setup.vendor as usize;
            Ok(())
        }
        SetupAnswer::Failed(_) | SetupAnswer::Authenticate(_) => {
            *start = 0;
            *size = 0;
            Ok(())
        }
    }
}

// The reason of a failure or of further authentication; of a success no text, at 0.
pub fn xm_connect_reason(
    connect: &[u64],
    buf: &[u8],
    start: &mut usize,
    size: &mut usize,
) -> Result<(), Refusal>
    ensures { XmConnectReason connect.now buf.now start.old size.old start.new size.new (returned_of result) }
{
    match rows::handshake(connect).setup(buf)? {
        SetupAnswer::Success(_) => {
            *start = 0;
            *size = 0;
            Ok(())
        }
        SetupAnswer::Failed(failed) => {
            *start = connect::HEAD;
            *size = failed.reason as usize;
            Ok(())
        }
        SetupAnswer::Authenticate(more) => {
            *start = connect::HEAD;
            *size = 4 * (more.length as usize);
            Ok(())
        }
    }
}

// `setup_request`, and `connect`: a handshake in three lent numbers beside its buffer.
ghost use Rattle.xiengmado.specs.ExportsHandshake.{XmSetupRequest, XmConnectNew, XmConnectRemainingCapacity, XmConnectBuffer, XmConnectAdvance, XmConnectSetup, XmConnectVendor, XmConnectReason};

use answers::returned;

#[unsafe(no_mangle)]
pub extern "C" fn xm_setup_request(
    order: u8,
    name: &[u8],
    auth: &[u8],
    out: &mut [u8],
    size: &mut usize,
) -> u32
    ensures { XmSetupRequest order name.now auth.now out.old size.old out.new size.new result }
{
    returned(xiengmado::handshake::xm_setup_request(order, name, auth, out, size))
}

#[unsafe(no_mangle)]
pub extern "C" fn xm_connect_new(connect: &mut [u64], order: u8, buf: &[u8]) -> u32
    ensures { XmConnectNew connect.old order buf.now connect.new result }
{
    returned(xiengmado::handshake::xm_connect_new(connect, order, buf))
}

#[unsafe(no_mangle)]
pub extern "C" fn xm_connect_remaining_capacity(
    connect: &[u64],
    buf: &[u8],
    size: &mut usize,
) -> u32
    ensures { XmConnectRemainingCapacity connect.now buf.now size.old size.new result }
{
    returned(xiengmado::handshake::xm_connect_remaining_capacity(connect, buf, size))
}

#[unsafe(no_mangle)]
pub extern "C" fn xm_connect_buffer(
    connect: &[u64],
    buf: &[u8],
    start: &mut usize,
    size: &mut usize,
) -> u32
    ensures { XmConnectBuffer connect.now buf.now start.old size.old start.new size.new result }
{
    returned(xiengmado::handshake::xm_connect_buffer(connect, buf, start, size))
}

#[unsafe(no_mangle)]
pub extern "C" fn xm_connect_advance(
    connect: &mut [u64],
    buf: &[u8],
    amount: usize,
    complete: &mut u8,
) -> u32
    ensures { XmConnectAdvance connect.old buf.now amount complete.old connect.new complete.new result }
{
    returned(xiengmado::handshake::xm_connect_advance(connect, buf, amount, complete))
}

#[unsafe(no_mangle)]
pub extern "C" fn xm_connect_setup(
    connect: &[u64],
    buf: &[u8],
    status: &mut u8,
    fields: &mut [u32],
) -> u32
    ensures { XmConnectSetup connect.now buf.now status.old fields.old status.new fields.new result }
{
    returned(xiengmado::handshake::xm_connect_setup(connect, buf, status, fields))
}

#[unsafe(no_mangle)]
pub extern "C" fn xm_connect_vendor(
    connect: &[u64],
    buf: &[u8],
    start: &mut usize,
    size: &mut usize,
) -> u32
    ensures { XmConnectVendor connect.now buf.now start.old size.old start.new size.new result }
{
    returned(xiengmado::handshake::xm_connect_vendor(connect, buf, start, size))
}

#[unsafe(no_mangle)]
pub extern "C" fn xm_connect_reason(
    connect: &[u64],
    buf: &[u8],
    start: &mut usize,
    size: &mut usize,
) -> u32
    ensures { XmConnectReason connect.now buf.now start.old size.old start.new size.new result }
{
    returned(xiengmado::handshake::xm_connect_reason(connect, buf, start, size))
}

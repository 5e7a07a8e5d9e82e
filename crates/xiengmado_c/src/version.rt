// Which version of the library this is.
ghost use Rattle.xiengmado.specs.ExportsLeaves.{XmVersion};

#[unsafe(no_mangle)]
pub extern "C" fn xm_version() -> u32
    ensures { XmVersion result }
{
    xiengmado::version::xm_version()
}

// Which version of the library this is, so that a program can hold its header against its archive.
ghost use Rattle.xiengmado.specs.ExportsLeaves.{XmVersion};

// 0.2.0: 65,536 for each major, 256 for each minor, 1 for each patch.
const VERSION: u32 = 512;

pub fn xm_version() -> u32
    ensures { XmVersion result }
{
    VERSION
}

ghost use Rattle.std.specs.Prelude.{◌≡◌, ◌≤◌, ◌<◌, ◌++◌, drop, length};

use crate::refusal_name::put_text;

/// The version that `xbrlmerge --version` prints.
const VERSION: &str = "0.3.0-dev";

/// Returns the length in bytes of the library's version. Writes the version to the start of `out`;
/// if `out` is shorter, `out` does not change.
#[unsafe(no_mangle)]
pub extern "C" fn xbrlmerge_version(out: &mut [u8]) -> usize
    ensures length { result ≡ length VERSION.now }
    ensures fits { result ≤ length out.old → out.new ≡ VERSION.now ++ drop result out.old }
    ensures short { length out.old < result → out.new ≡ out.old }
{
    put_text(VERSION, out)
}

//! `--version`: which version of the program it is, and which logic of the toolchain proves it.
ghost use Rattle.std.specs.Prelude.{◌≡◌, IfOk};
ghost use Rattle.coap_status.specs.declared.status.Status.TheVariants as statuses;

use coap_status::{Status, Stop};
use std::io::Write;

// The version of the program: that of the library too.
const VERSION: &str = "0.2.0";

// The logic of the toolchain by which it is proved, as `rt version` says it.
const LOGIC: &str = "dac8208d650f15bf";

/// Prints the version.
pub(crate) fn version<W: Write>(out: &mut W) -> Result<Status, Stop>
    ensures { IfOk result (λ status. status ≡ statuses.Done) }
{
    writeln!(out, "coap {VERSION} (logic {LOGIC})")?;
    Ok(Status::Done)
}

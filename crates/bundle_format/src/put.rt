//! Bytes put behind bytes.
ghost use Rattle.std.specs.Prelude.{◌≡◌, ◌++◌, OnOk};

use std::alloc::AllocError;

/// Puts bytes last.
pub(crate) fn put(out: &mut Vec<u8>, bytes: &[u8]) -> Result<(), AllocError>
    ensures { OnOk result (out.new.items ≡ out.old.items ++ bytes.now) }
{
    match out.extend_from_slice(bytes) {
        Ok(()) => Ok(()),
        Err(_) => Err(AllocError),
    }
}

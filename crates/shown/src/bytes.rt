//! Bytes and names as text.
ghost use Rattle.std.specs.Prelude.{◌≡◌, ◌++◌, OnOk};
ghost use Rattle.shown.specs.Shown.{shown, shown_name};

use crate::code::code_of;
use std::alloc::AllocError;

/// Adds what bytes are shown as, each for itself (own).
pub fn add_shown(text: &mut Vec<u8>, bytes: &[u8]) -> Result<(), AllocError>
    ensures { OnOk result (text.new.items ≡ text.old.items ++ shown bytes.now) }
{
    for byte in bytes {
        text.extend_from_slice(code_of(*byte).as_slice())?;
    }
    Ok(())
}

/// Adds what a name is shown as (own): letters outside ASCII stay as they are.
pub fn add_name(text: &mut Vec<u8>, name: &str) -> Result<(), AllocError>
    ensures { OnOk result (text.new.items ≡ text.old.items ++ shown_name name.now) }
{
    for byte in name.as_bytes() {
        if *byte < 128 {
            text.extend_from_slice(code_of(*byte).as_slice())?;
        } else {
            text.push(*byte)?;
        }
    }
    Ok(())
}

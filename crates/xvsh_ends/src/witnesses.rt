//! A folder of schedules.
ghost use Rattle.std.specs.Prelude.{◌≡◌, ◌++◌, IfErr, IfOk, codes, string_bytes};
ghost use Rattle.std.specs.Fmt.{decimal};
ghost use Rattle.xvsh_ends.specs.Witnesses.{IsWitnessFault};
ghost use Rattle.xvsh_ends.specs.Filing.{IsFilingFault};

use std::alloc::{AllocError, Global};
use xvsh_read::{Traces, Unwritten};

// Why there is no folder of schedules.
#[derive(Drop)]
pub(crate) enum WitnessFault {
    // What is at this path can't be written.
    Unwritten(String),
    Memory,
}

impl From<AllocError> for WitnessFault {
    ghost use Rattle.std.specs.Prelude.{◌≡◌};
    ghost use Rattle.xvsh_ends.specs.declared.witnesses.WitnessFault.TheVariants.{Memory};

    ghost from_gives = { λ _ fault. fault ≡ Memory };

    fn from(_error: AllocError) -> WitnessFault {
        WitnessFault::Memory
    }
}

// The path of the schedule of this number.
fn path_of(alloc: Global, folder: &str, number: usize) -> Result<String, AllocError>
    ensures { IfOk result (λ path. string_bytes path ≡ folder.now ++ (codes "/" ++ (decimal number ++ codes ".schedule"))) }
{
    format!(in alloc; "{folder}/{number}.schedule")
}

// Writes a file at a path that holds these bytes.
pub(crate) fn write_file<T: Traces>(
    traces: &mut T,
    path: &str,
    bytes: &[u8],
) -> Result<(), Unwritten> {
    traces.begin_trace(path)?;
    traces.write_trace(bytes)
}

// Makes the folder.
pub(crate) fn make_folder<T: Traces>(
    alloc: Global,
    traces: &mut T,
    folder: &str,
) -> Result<(), WitnessFault>
    ensures witness { IfErr result (IsWitnessFault folder.now) }
    ensures filing { IfErr result (IsFilingFault folder.now) }
{
    match traces.make_folder(folder) {
        Ok(()) => Ok(()),
        Err(Unwritten) => Err(WitnessFault::Unwritten(String::from_str(alloc, folder)?)),
    }
}

// Writes the schedule of this number.
fn write_schedule<T: Traces>(
    alloc: Global,
    traces: &mut T,
    folder: &str,
    number: usize,
    schedule: &[u8],
) -> Result<(), WitnessFault>
    ensures { IfErr result (IsWitnessFault folder.now) }
{
    let path = path_of(alloc, folder, number)?;
    match write_file(traces, path.as_str(), schedule) {
        Ok(()) => Ok(()),
        Err(Unwritten) => Err(WitnessFault::Unwritten(path)),
    }
}

// Writes each schedule in the folder, which is made if it isn't there: `1.schedule`, `2.schedule`, and so on.
pub(crate) fn write_schedules<T: Traces>(
    alloc: Global,
    traces: &mut T,
    folder: &str,
    schedules: &[Vec<u8>],
) -> Result<(), WitnessFault>
    ensures { IfErr result (IsWitnessFault folder.now) }
{
    make_folder(alloc, traces, folder)?;
    let mut number: usize = 0;
    for schedule in schedules {
        number = number.saturating_add(1);
        write_schedule(alloc, traces, folder, number, schedule.as_slice())?;
    }
    Ok(())
}

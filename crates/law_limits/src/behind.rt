//! Laws: each function's contract is the law, and its body is empty. Each is of both profiles.

ghost use Rattle.std.specs.Prelude.{◌≡◌, ◌≤◌, Some, count_by, is_some};
ghost use Rattle.fd_table.specs.declared.descriptors.TheConstants.{DESCRIPTORS};
ghost use Rattle.fd_table.specs.declared.entries.TheConstants.{ENTRIES};
ghost use Rattle.proc_table.specs.declared.pid.TheConstants.{PROCS};
ghost use Rattle.kernel_model.specs.declared.events.Full.TheVariants.{Fds, Open, Procs};
ghost use Rattle.run_model.specs.ScriptRun.{ScriptRun};
ghost use Rattle.room_model.specs.Descriptors.{script_descriptors};
ghost use Rattle.room_model.specs.BehindOpens.{opens_in_all};
ghost use Rattle.room_model.specs.BehindProcesses.{processes_at_once};

/// No run of a script whose processes are at most 64 by their bound is ever out of processes, also where commands run behind `&`:
/// whatever the schedule, and whether memory is refused or not, it isn't that a fork found no free slot that was full first.
pub fn no_run_is_out_of_processes()
    ensures { (r : ScriptRun) → processes_at_once r.lines ≤ PROCS → r.last.full ≡ Some Procs → ⊥ }
{}

/// Nor is one whose descriptors are at most 16 by their bound ever out of descriptors: each open, dup and pipe of each process finds
/// as many free as it wants.
pub fn no_run_is_out_of_descriptors()
    ensures { (r : ScriptRun) → script_descriptors r.lines ≤ DESCRIPTORS → r.last.full ≡ Some Fds → ⊥ }
{}

/// At no time has a run of a script more open-file entries in use than the three that are open from the start and all that the script
/// opens in all, also where commands run behind `&`: whatever the schedule, and whether anything was full or not.
pub fn no_run_has_more_files_open_than_its_script_opens()
    ensures { (r : ScriptRun) → count_by is_some r.last.entries ≤ opens_in_all r.lines }
{}

/// So no run of a script that opens at most 97 in all is ever out of open-file entries: each open and each pipe finds as many free as it
/// wants.
pub fn no_run_is_out_of_open_files()
    ensures { (r : ScriptRun) → opens_in_all r.lines ≤ ENTRIES → r.last.full ≡ Some Open → ⊥ }
{}

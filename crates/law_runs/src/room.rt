//! Laws: each function's contract is the law, and its body is empty. Each is of both profiles.

ghost use Rattle.std.specs.Prelude.{◌≡◌, ◌<◌, ◌≤◌, ◌⊎◌, Some, None, length};
ghost use Rattle.fd_table.specs.declared.entries.TheConstants.{ENTRIES};
ghost use Rattle.fd_table.specs.declared.descriptors.TheConstants.{DESCRIPTORS};
ghost use Rattle.proc_table.specs.declared.pid.TheConstants.{PROCS};
ghost use Rattle.kernel_model.specs.declared.events.Full.TheVariants.{Fds, Files, Memory, Open, Procs, Size};
ghost use Rattle.run_model.specs.ScriptRun.{HasNoBack, IsSettledRun, ScriptRun};
ghost use Rattle.mem_files.specs.Listing.{max_files};
ghost use Rattle.meaning_model.specs.Meaning.{script_tree};
ghost use Rattle.tree_model.specs.Tidy.{HasShortCommands, IsClearScript};
ghost use Rattle.room_model.specs.Bytes.{FilesStaySmall};
ghost use Rattle.room_model.specs.Descriptors.{script_descriptors};
ghost use Rattle.room_model.specs.Entries.{script_entries};
ghost use Rattle.room_model.specs.Files.{script_files};
ghost use Rattle.room_model.specs.Processes.{script_processes};
ghost use Rattle.room_model.specs.Roomy.{IsRoomyScript};
ghost use Rattle.kernel_model.specs.Events.{IsFinished};
ghost use Rattle.law_runs.specs.Leaving.{HasMeaning};
ghost use Rattle.law_runs.specs.GoingOn.{CanGoOn, most_of};

/// No run of a script without `&` whose processes are at most 64 by their bound is ever out of processes: whatever the schedule, and
/// whether memory is refused or not, it isn't that a fork found no free slot that was full first.
pub fn no_run_is_out_of_processes()
    ensures { (r : ScriptRun) → HasNoBack r → script_processes r.lines ≤ PROCS → r.last.full ≡ Some Procs → ⊥ }
{}

/// Nor is one whose open-file entries are at most 100 by their bound ever out of entries: each open and each pipe finds as many free
/// as it wants.
pub fn no_run_is_out_of_entries()
    ensures { (r : ScriptRun) → HasNoBack r → script_entries r.lines ≤ ENTRIES → r.last.full ≡ Some Open → ⊥ }
{}

/// Nor is one whose descriptors are at most 16 by their bound ever out of descriptors: each open, dup and pipe of each process finds
/// as many free as it wants.
pub fn no_run_is_out_of_descriptors()
    ensures { (r : ScriptRun) → HasNoBack r → script_descriptors r.lines ≤ DESCRIPTORS → r.last.full ≡ Some Fds → ⊥ }
{}

/// No file gets too large in a run of a clear script, where the bytes that each file has and all that the script writes at most are no
/// more than a file can have.
pub fn no_file_gets_too_large()
    ensures { (r : ScriptRun) → IsClearScript r.lines → FilesStaySmall r.lines r.input r.files → r.last.full ≡ Some Size → ⊥ }
{}

/// Nor are there ever too many files: those that were there and one for each name that the script writes are fewer than there can be.
pub fn no_file_is_one_too_many()
    ensures { (r : ScriptRun) → IsClearScript r.lines → script_files r.lines r.files < max_files → r.last.full ≡ Some Files → ⊥ }
{}

/// So in a run of a clear script that is roomy, whatever its schedule, nothing but memory is ever full.
pub fn nothing_but_memory_is_full()
    ensures { (r : ScriptRun) → IsClearScript r.lines → IsRoomyScript r.lines r.input r.files → (r.last.full ≡ None) ⊎ (r.last.full ≡ Some Memory) }
{}

/// And every run of a settled script that is roomy and goes on is finished after at most one event more than `most_events`, and has
/// then left what the script means: its output, its files but for soft names, and what it leaves of the input unless that is loose.
/// Or some call was refused for want of memory.
pub fn every_run_of_a_roomy_script_ends_with_the_meaning()
    ensures finished { (r : ScriptRun) → IsSettledRun r → HasShortCommands (script_tree r.lines) → IsRoomyScript r.lines r.input r.files → most_of r < length r.schedule
        → (IsFinished r.last × HasMeaning r) ⊎ (r.last.full ≡ Some Memory) }
    ensures goes_on { (r : ScriptRun) → IsSettledRun r → HasShortCommands (script_tree r.lines) → IsRoomyScript r.lines r.input r.files
        → ((IsFinished r.last × HasMeaning r) ⊎ ((length r.schedule ≤ most_of r) × CanGoOn r.last)) ⊎ (r.last.full ≡ Some Memory) }
{}

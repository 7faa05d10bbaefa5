//! Laws: each function's contract is the law, and its body is empty. Each is of both profiles.

ghost use Rattle.std.specs.Prelude.{◌≡◌, ◌⊎◌, ◌<◌, ◌≤◌, None, Some};
ghost use Rattle.mem_files.specs.Name.{Name};
ghost use Rattle.mem_files.specs.Files.{files};
ghost use Rattle.mem_files.specs.Listing.{max_files, max_size};
ghost use Rattle.kernel_model.specs.declared.events.Full.TheVariants.{Files, Memory, Size};
ghost use Rattle.tree_model.specs.FilesAhead.{Sizes, sizes};
ghost use Rattle.run_model.specs.ScriptRun.{IsRoomy, ScriptRun};
ghost use Rattle.room_model.specs.Files.{script_files};
ghost use Rattle.room_model.specs.Sizes.{KeepsWithin};
ghost use Rattle.law_limits.specs.Room.{HasRoomInAnyOrder};

/// In no run of a script, with `&` or without, does a file exceed these sizes, if the script keeps within them: whatever the schedule,
/// as long as nothing was full.
pub fn no_file_exceeds_its_size()
    ensures { (r : ScriptRun) (L : Sizes) → KeepsWithin r.lines r.input (files r.files) L → IsRoomy r → (name : Name) → sizes (files r.last.files) name ≤ L name }
{}

/// So where these are no larger than a file can be, it isn't that a file got too large that was full first.
pub fn no_run_makes_a_file_too_large()
    ensures { (r : ScriptRun) (L : Sizes) → KeepsWithin r.lines r.input (files r.files) L → ((name : Name) → L name ≤ max_size) → r.last.full ≡ Some Size → ⊥ }
{}

/// Nor is it that there were too many files, where those that are there and the names that the script writes are fewer than there can be.
pub fn no_run_makes_too_many_files()
    ensures { (r : ScriptRun) (L : Sizes) → KeepsWithin r.lines r.input (files r.files) L → script_files r.lines r.files < max_files → r.last.full ≡ Some Files → ⊥ }
{}

/// So in a run of a script that has room, with `&` or without, whatever its schedule, nothing but memory is ever full.
pub fn nothing_but_memory_is_full_in_any_order()
    ensures { (r : ScriptRun) → HasRoomInAnyOrder r.lines r.input r.files → (r.last.full ≡ None) ⊎ (r.last.full ≡ Some Memory) }
{}

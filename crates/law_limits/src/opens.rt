//! Laws: each function's contract is the law, and its body is empty. It is of both profiles.

ghost use Rattle.std.specs.Prelude.{List};
ghost use Rattle.mem_files.specs.Name.{Bytes, Name};
ghost use Rattle.mem_files.specs.Listing.{AreFiles};
ghost use Rattle.script_load.specs.Line.{ScriptLine};
ghost use Rattle.script_load.specs.declared.profile.Profile.{Profile};
ghost use Rattle.run_model.specs.ScriptRun.{script_kernel};
ghost use Rattle.sh_machine.specs.Turn.{call_of, next_of};
ghost use Rattle.kernel_model.specs.Closes.{HasRoomAhead};
ghost use Rattle.room_model.specs.Opens.{HasFewOpens};

/// Let a script, with `&` or without, come to use no more open-file entries in all than there are. Then whatever is opened, after
/// whatever turns, finds free entries: whether anything else is full or not.
pub fn a_script_of_few_opens_has_room_ahead()
    ensures { (profile : Profile) (lines : List ScriptLine) (input : Bytes) (list : List (Name × Bytes)) → AreFiles list → HasFewOpens lines
        → HasRoomAhead call_of next_of (script_kernel profile lines input list) }
{}

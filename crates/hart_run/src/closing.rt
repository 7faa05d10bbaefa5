//! What the turns of seats leave of a script.

ghost use Rattle.std.specs.Prelude.{◌≡◌, ◌≤◌, IsTrue, length, vec_len};
ghost use Rattle.script_load.specs.Line.{lines_of};
ghost use Rattle.sh_machine.specs.Codes.{user_code};
ghost use Rattle.sh_machine.specs.Turn.{call_of, next_of};
ghost use Rattle.run_model.specs.ScriptRun.{script_kernel};
ghost use Rattle.kernel_events.specs.Harts.{AreCounts};
ghost use Rattle.kernel_events.specs.Reports.{IsRunFrom};
ghost use Rattle.kernel_threads.specs.Boots.{number_of};
ghost use Rattle.kernel_threads.specs.Events.{AreOfHarts};
ghost use Rattle.kernel_threads.specs.Reports.{IsReportSoFar};
ghost use Rattle.kernel_threads.specs.Seats.{all_events};
ghost use Rattle.hart_run.specs.Answer.{IsAnswerIfRoomy, IsAnswerIfSettled};

use kernel_events::Report;
use kernel_threads::{Run, Seat, Shared};
use mem_files::Files;
use mem_files::laws::are_files;
use script_load::Script;
use sh_machine::{Naming, User};
use std::alloc::{Allocator, Global};

/// Closes a shared kernel that was booted with this script's machines on this standard input and these files, as `Shared::close`
/// does, and gives the report. All seats come back. Takes no memory, and never waits.
///
/// Where the run is finished, the script is settled and nothing was full, the report has the output and the files of the script's
/// meaning (`answer`), whatever seats took which turns. Of two reports of finished runs by one schedule, in which nothing was full,
/// `kernel_runs` has the law that they are equal (`run` is its premise).
pub fn close<'t, N: Run, L: Naming, A: Allocator, B: Allocator, C: Allocator>(
    shared: Shared<N, User<'t, A, L>>,
    seats: Vec<Seat<N>>,
    script: &Script<B>,
    stdin: &[u8],
    files: &Files<C>,
) -> Report<Global>
    requires seats { vec_len seats ≡ N.parts }
    requires boot { number_of user_code (script_kernel script.now.profile (lines_of script.now.lines) stdin.now files.now) ≡ N.boot }
    ensures so_far { IsReportSoFar user_code call_of next_of (script_kernel script.now.profile (lines_of script.now.lines) stdin.now files.now) result }
    ensures run { IsTrue result.finished → IsRunFrom (script_kernel script.now.profile (lines_of script.now.lines) stdin.now files.now) result }
    ensures answer { IsTrue result.finished → IsAnswerIfSettled script.now.profile (lines_of script.now.lines) stdin.now files.now result }
    ensures roomy { IsTrue result.finished → IsAnswerIfRoomy script.now.profile (lines_of script.now.lines) stdin.now files.now result }
    ensures events { length result.schedule ≡ all_events seats.items }
    ensures by_hart { AreCounts result.by_hart result.schedule }
    ensures harts { AreOfHarts N.harts result.schedule }
    ensures turns { length result.schedule ≤ N.turns }
{
    are_files(files);
    shared.close(seats)
}

//! Two seats take the turns of a script's kernel one after the other; what they leave of a settled script is its meaning.

ghost use Rattle.std.specs.Prelude.{◌≡◌, IfOk, IsTrue, [], length};
ghost use Rattle.script_load.specs.Line.{lines_of};
ghost use Rattle.sh_machine.specs.Codes.{user_code};
ghost use Rattle.run_model.specs.ScriptRun.{script_kernel};
ghost use Rattle.kernel_threads.specs.Boots.{number_of};
ghost use Rattle.hart_run.specs.Answer.{IsAnswerIfSettled};

use hart_run::{Kernel, OpenGate, Report, Run, RunFault, Seat, Shared, Turn, close};
use kernel_events::Setting;
use mem_files::Files;
use script_load::load;
use sh_machine::{Naming, User};
use std::alloc::{AllocError, Global};
use std::marker::Brand;
use std::process::Abort;
use std::sync::Wait;
use std::sync::ledger::Blank;
use std::test::Fail;
use user_calls::Machine;

// The turns of two seats, one after the other, up to the first that is no step.
fn take_turns<N: Run, M: Machine, R: Wait>(
    rt: &R,
    shared: &Shared<N, M>,
    seats: &mut [Seat<N>],
) -> Result<Turn, AllocError>
    requires { length seats.old ≡ 2 }
{
    for i in 0..500 {
        match shared.turn(rt, &mut seats[i % 2], &OpenGate)? {
            Turn::Stepped => {}
            turn => return Ok(turn),
        }
    }
    Ok(Turn::Idle)
}

// What two seats leave of a script's kernel in which nothing has happened.
fn run_by_seats<'t, N: Run, L: Naming, R: Wait>(
    rt: &R,
    alloc: Global,
    blank: Blank,
    kernel: Kernel<User<'t, Global, L>, Global>,
    setting: &Setting<'_, Global, Global>,
) -> Result<Report<Global>, RunFault>
    requires name { blank.name ≡ N.name }
    requires parts { (blank.parts ≡ N.parts) × (N.parts ≡ 2) }
    requires harts { 2 ≡ N.harts }
    requires turns { 1000 ≡ N.turns }
    requires boot { number_of user_code (script_kernel setting.now.script.now.profile (lines_of setting.now.script.now.lines) setting.now.stdin.now setting.now.files.now) ≡ N.boot }
    requires booted { kernel.boot ≡ script_kernel setting.now.script.now.profile (lines_of setting.now.script.now.lines) setting.now.stdin.now setting.now.files.now }
    requires fresh { kernel.schedule ≡ [] }
    ensures answer { IfOk result (λ report. IsTrue report.finished → IsAnswerIfSettled setting.now.script.now.profile (lines_of setting.now.script.now.lines) setting.now.stdin.now setting.now.files.now report) }
{
    let (shared, mut seats) = Shared::<N, User<'t, Global, L>>::start(
        alloc, blank, kernel, 2, 1_000,
    )?;
    let Ok(Turn::Finished) = take_turns(rt, &shared, seats.as_mut_slice()) else {
        return Err(RunFault::Memory);
    };
    Ok(close(shared, seats, setting.script, setting.stdin, setting.files))
}

// The same, where the run is named after the kernel.
fn run_of<'t, L: Naming, R: Wait>(
    rt: &R,
    alloc: Global,
    kernel: Kernel<User<'t, Global, L>, Global>,
    setting: &Setting<'_, Global, Global>,
) -> Result<Report<Global>, RunFault>
    requires booted { kernel.boot ≡ script_kernel setting.now.script.now.profile (lines_of setting.now.script.now.lines) setting.now.stdin.now setting.now.files.now }
    requires fresh { kernel.schedule ≡ [] }
    ensures answer { IfOk result (λ report. IsTrue report.finished → IsAnswerIfSettled setting.now.script.now.profile (lines_of setting.now.script.now.lines) setting.now.stdin.now setting.now.files.now report) }
{
    run_by_seats::<Brand, L, R>(rt, alloc, Blank::new(2), kernel, setting)
}

// The same of the script that `L` names.
fn run_named<L: Naming, R: Wait>(
    rt: &R,
    alloc: Global,
    setting: &Setting<'_, Global, Global>,
) -> Result<Report<Global>, RunFault>
    requires { lines_of setting.now.script.now.lines ≡ L.script }
    ensures answer { IfOk result (λ report. IsTrue report.finished → IsAnswerIfSettled setting.now.script.now.profile (lines_of setting.now.script.now.lines) setting.now.stdin.now setting.now.files.now report) }
{
    let init = User::<Global, L>::init();
    let shell = User::shell(setting.script);
    let Ok(kernel) = Kernel::boot(alloc, init, shell, setting.stdin, setting.files) else {
        return Err(RunFault::Memory);
    };
    run_of(rt, alloc, kernel, setting)
}

// The report is finished, and this was written.
fn gave<R: Abort>(rt: &R, report: &Report<Global>, out: &[u8]) {
    assert!(rt; report.finished);
    assert_eq!(rt; report.out.as_slice(), out);
    assert_eq!(rt; report.files.get(b"f"), Some(b"hello\n".as_slice()));
}

#[test]
fn seats_leave_the_meaning(rt: HostRuntime) -> Result<(), Fail> {
    let alloc = rt.alloc();
    let script = load(alloc, b"echo hello | cat > f; wc f".as_slice())?;
    let files = Files::new(alloc);
    let setting = Setting {
        script: &script,
        stdin: &[],
        files: &files,
    };
    let report = run_named::<Brand, HostRuntime>(&rt, alloc, &setting)?;
    gave(&rt, &report, b"1 1 6 f\n");
    Ok(())
}

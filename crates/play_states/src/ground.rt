//! Where the runs of a play begin.

ghost use Rattle.std.specs.Prelude.{◌≡◌};
ghost use Rattle.script_load.specs.Line.{lines_of};
ghost use Rattle.kernel_model.specs.Boot.{boot_kernel};
ghost use Rattle.run_model.specs.ScriptRun.{script_kernel};
ghost use Rattle.order_search.specs.Room.{HasAhead};

use every_order::{Origin, Setting, origin_of};
use mem_files::laws::are_files;
use sh_machine::{Naming, User};
use std::alloc::Allocator;
use std::marker::Model;
use user_calls::Machine;

/// Where the runs of a play begin, with what is free ahead, as contracts know. Contracts see the kernel at its boot.
#[derive(Drop)]
pub struct Ground<'t, M: Machine, C: Allocator> {
    pub(crate) origin: Origin<'t, M, C>,
}

impl<'t, M: Machine, C: Allocator> Model for Ground<'t, M, C> {
    ghost use Rattle.kernel_model.specs.KernelState.{KernelState};
    ghost use Rattle.kernel_model.specs.Boot.{boot_kernel};
    ghost use Rattle.order_search.specs.Room.{HasAhead};

    ghost Value = { KernelState M.State };

    ghost view = { λ g. boot_kernel (M.view g.origin.init) (M.view g.origin.shell) g.origin.stdin.now g.origin.files.now };

    ghost invariant = { λ g. HasAhead M.call_of M.next_of g.origin.ahead (boot_kernel (M.view g.origin.init) (M.view g.origin.shell) g.origin.stdin.now g.origin.files.now) };
}

impl<'t, M: Machine, C: Allocator> Ground<'t, M, C> {
    // Of any machines.
    fn of(origin: Origin<'t, M, C>) -> Self
        requires { HasAhead M.call_of M.next_of origin.ahead (boot_kernel (M.view origin.init) (M.view origin.shell) origin.stdin.now origin.files.now) }
        ensures { result ≡ boot_kernel (M.view origin.entry.init) (M.view origin.entry.shell) origin.entry.stdin.now origin.entry.files.now }
    {
        Ground { origin }
    }
}

impl<'t, B: Allocator, N: Naming, C: Allocator> Ground<'t, User<'t, B, N>, C> {
    /// Where the runs of the script that `N` names begin.
    pub fn of_script(setting: &Setting<'t, B, C>) -> Self
        requires { lines_of setting.now.script.now.lines ≡ N.script }
        ensures { result ≡ script_kernel setting.now.script.now.profile (lines_of setting.now.script.now.lines) setting.now.stdin.now setting.now.files.now }
    {
        Ground::of(origin_of::<N, B, C>(setting, false))
    }
}

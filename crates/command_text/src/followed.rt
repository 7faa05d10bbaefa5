//! What each process of a run carries out, from call to call.

ghost use Rattle.std.specs.Prelude.{◌≡◌, length};
ghost use Rattle.proc_table.specs.declared.pid.TheConstants.{PROCS};

use crate::doing::Doing;
use proc_table::{PROCS, Pid};
use script_load::{Line, Script};
use std::alloc::Global;
use user_calls::CallKind;

/// What each process of a run of a script carries out. It is given each call, and goes by what `user/sh.c` does.
#[derive(Drop)]
pub struct Followed<'t> {
    lines: &'t [Line<Global>],
    doing: [Doing<'t>; PROCS],
}

impl<'t> Followed<'t> {
    /// The start of a run: init, and the first shell before the first line.
    pub fn new(script: &'t Script<Global>) -> Self {
        let mut doing = [Doing::Init; PROCS];
        doing[Pid::shell().index()] = Doing::Script(1);
        Followed {
            lines: script.lines.as_slice(),
            doing,
        }
    }

    /// What the process carries out: of its next call, before that is given, and after it the next one's.
    pub fn doing(&self, pid: Pid) -> Doing<'t> {
        doing_at(&self.doing[..], pid)
    }

    /// A call of the process was over: whether it was carried out and not refused, and which child it made, if it was a
    /// fork.
    pub fn follow(&mut self, pid: Pid, call: CallKind, is_done: bool, child: Option<Pid>) {
        let doing = self.doing(pid);
        let lines = self.lines;
        let all = &mut self.doing[..];
        if let Some(child) = child {
            all[child.index()] = doing.child(lines);
        }
        all[pid.index()] = doing.after(lines, call, is_done);
    }
}

// What the process carries out.
fn doing_at<'t>(all: &[Doing<'t>], pid: Pid) -> Doing<'t>
    requires { length all.now ≡ PROCS }
{
    all[pid.index()]
}

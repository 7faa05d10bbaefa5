//! Laws: each function's contract is the law, and its body is empty.
//!
//! `g` names the entries and the pipes of a kernel, so that it is seen as a tree of processes sees it.

ghost use Rattle.std.specs.Prelude.{◌≡◌, ◌≢◌, ℕ, Bool, Some, None};
ghost use Rattle.kernel_model.specs.declared.events.Event.TheVariants.{Dispatch, Trap};
ghost use Rattle.kernel_model.specs.KernelState.{KernelState};
ghost use Rattle.kernel_model.specs.Events.{happens, run};
ghost use Rattle.sh_machine.specs.State.{User, init};
ghost use Rattle.sh_machine.specs.Turn.{call_of, next_of};
ghost use Rattle.run_model.specs.ScriptRun.{IsRoomy, ScriptRun};
ghost use Rattle.process_model.specs.Seen.{Names, view};
ghost use Rattle.process_model.specs.Shows.{ShowsIn};
ghost use Rattle.process_model.specs.Effect.{Quiet};
ghost use Rattle.law_runs.specs.Consistent.{IsConsistent};
ghost use Rattle.law_runs.specs.Seen.{IsSeen, IsInit, InitWaits};

/// Each of the ten calls does to the tree of processes what `process_model` defines of it (`Effect`), under names that are right
/// again, where nothing is refused because something is full.
pub fn each_call_is_seen_as_its_effect()
    ensures { (k l : KernelState User) (g : Names) (h p : ℕ) (refused : Bool) → p ≢ 0 → IsConsistent k → ShowsIn g k
        → happens call_of next_of k (Trap h p) refused ≡ Some l → l.full ≡ None → IsSeen g k l p }
{}

/// A dispatch changes nothing in the tree of processes.
pub fn a_dispatch_is_not_seen()
    ensures names { (k l : KernelState User) (g : Names) (h p : ℕ) (refused : Bool) → ShowsIn g k → happens call_of next_of k (Dispatch h p) refused ≡ Some l → ShowsIn g l }
    ensures quiet { (k l : KernelState User) (g : Names) (h p : ℕ) (refused : Bool) → ShowsIn g k → happens call_of next_of k (Dispatch h p) refused ≡ Some l
        → Quiet (view g k) (view g l) }
{}

/// Init's calls take away a child of init that is a zombie, or change nothing in the tree of processes.
pub fn init_takes_zombies_away()
    ensures names { (k l : KernelState User) (g : Names) (h : ℕ) (refused : Bool) → IsConsistent k → ShowsIn g k → IsInit k
        → happens call_of next_of k (Trap h 0) refused ≡ Some l → ShowsIn g l }
    ensures waits { (k l : KernelState User) (g : Names) (h : ℕ) (refused : Bool) → IsConsistent k → ShowsIn g k → IsInit k
        → happens call_of next_of k (Trap h 0) refused ≡ Some l → InitWaits (view g k) (view g l) }
{}

/// In every run of a script in which nothing was full there are right names, and init is in its slot. The kernel is consistent,
/// also where something was full.
pub fn every_run_can_be_seen()
    ensures names { (r : ScriptRun) → IsRoomy r → (g : Names) × ShowsIn g r.last }
    ensures init { (r : ScriptRun) → IsRoomy r → IsInit r.last }
    ensures consistent { (r : ScriptRun) → IsConsistent r.last }
{}

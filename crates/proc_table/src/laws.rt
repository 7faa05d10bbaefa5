//! Laws of the definitions that the contracts cite: each function's contract is the law, and its body is empty.
//!
//! They say which slots each call changes and how, whose children the processes are afterwards, and how many slots
//! are in each state. They hold of any list of slots, whatever machine the processes have.

ghost use Rattle.std.specs.Prelude.{◌≡◌, ◌≢◌, ◌+◌, ◌==◌, ◌||◌, ℕ, Bool, Some, None, true, false, count_by};
ghost use Rattle.fd_table.specs.Descriptors.{Descriptors};
ghost use Rattle.user_calls.specs.declared.calls.Reply.{Reply};
ghost use Rattle.proc_table.specs.declared.states.Channel.{Channel};
ghost use Rattle.proc_table.specs.declared.states.Status.{Status};
ghost use Rattle.proc_table.specs.declared.states.Status.TheVariants.{Runnable, Running, Asleep, Zombie};
ghost use Rattle.proc_table.specs.Slots.{Process, Slot, Table, at, has_status, is_asleep, is_asleep_on, is_child_of, is_free, is_runnable, is_running, is_zombie, is_zombie_child_of, tally};
ghost use Rattle.proc_table.specs.Calls.{all_woken, dispatched, exited, fds_set, forked, given, lowest_free, made_ready, newborn, put_to_sleep, readied, reaped, slept, wakes_at_exit, with_fds, with_status, woken, woken_by_exit, zombie_child};

use user_calls::Machine;

/// A fork puts the child into a slot that was free, and changes no other slot.
pub fn fork_changes_one_slot<M: Machine>()
    ensures was_free { (t : Table M.State) (child : ℕ) → lowest_free t ≡ Some child → at t child ≡ None }
    ensures child { (t : Table M.State) (child parent : ℕ) (machine : M.State) (fds : Descriptors) → lowest_free t ≡ Some child
        → at (forked t child parent machine fds) child ≡ Some (newborn parent machine fds) }
    ensures others { (t : Table M.State) (child parent other : ℕ) (machine : M.State) (fds : Descriptors) → other ≢ child
        → at (forked t child parent machine fds) other ≡ at t other }
{}

/// A dispatch changes the state of its process, and no other slot.
pub fn dispatch_changes_one_slot<M: Machine>()
    ensures slot { (t : Table M.State) (pid hart : ℕ) → at (dispatched t pid hart) pid ≡ with_status (Running hart) (at t pid) }
    ensures others { (t : Table M.State) (pid hart other : ℕ) → other ≢ pid → at (dispatched t pid hart) other ≡ at t other }
{}

/// A process that is made ready has its machine, its reply and nothing put; no other slot changes.
pub fn ready_changes_one_slot<M: Machine>()
    ensures slot { (t : Table M.State) (pid : ℕ) (machine : M.State) (reply : Reply) → at (readied t pid machine reply) pid ≡ made_ready machine reply (at t pid) }
    ensures others { (t : Table M.State) (pid other : ℕ) (machine : M.State) (reply : Reply) → other ≢ pid → at (readied t pid machine reply) other ≡ at t other }
{}

/// A process that falls asleep has its channel and what it put; no other slot changes.
pub fn sleep_changes_one_slot<M: Machine>()
    ensures slot { (t : Table M.State) (pid put : ℕ) (channel : Channel) → at (slept t pid channel put) pid ≡ put_to_sleep channel put (at t pid) }
    ensures others { (t : Table M.State) (pid put other : ℕ) (channel : Channel) → other ≢ pid → at (slept t pid channel put) other ≡ at t other }
{}

/// A process whose descriptors were changed has these; no other slot changes, and as many are in each state as before.
pub fn fds_mut_changes_one_slot<M: Machine>()
    ensures slot { (t : Table M.State) (pid : ℕ) (fds : Descriptors) → at (fds_set t pid fds) pid ≡ with_fds fds (at t pid) }
    ensures others { (t : Table M.State) (pid other : ℕ) (fds : Descriptors) → other ≢ pid → at (fds_set t pid fds) other ≡ at t other }
    ensures counts { (test : Status → Bool) (t : Table M.State) (pid : ℕ) (fds : Descriptors)
        → (count_by (has_status test) (fds_set t pid fds) ≡ count_by (has_status test) t) × (count_by is_free (fds_set t pid fds) ≡ count_by is_free t) }
{}

/// A wake-up wakes each slot by itself.
pub fn wakeup_changes_each_slot<M: Machine>()
    ensures { (t : Table M.State) (channel : Channel) (pid : ℕ) → at (all_woken channel t) pid ≡ woken channel (at t pid) }
{}

/// An exit makes its process a zombie; the children that were its own get another parent, and sleepers are woken.
pub fn exit_changes_each_slot<M: Machine>()
    ensures slot { (t : Table M.State) (pid : ℕ) → at (exited t pid) pid ≡ with_status Zombie (given pid (at t pid)) }
    ensures others { (t : Table M.State) (pid other : ℕ) → other ≢ pid → at (exited t pid) other ≡ woken_by_exit t pid (given pid (at t other)) }
{}

/// A wait makes the slot of the child that it reaps free, and changes no other slot; where it reaps none it changes
/// nothing. A process that is no zombie, as one that runs, is not reaped by its own wait.
pub fn wait_changes_one_slot<M: Machine>()
    ensures was_zombie { (t : Table M.State) (pid child : ℕ) → zombie_child t pid ≡ Some child → is_zombie_child_of pid (at t child) ≡ true }
    ensures slot { (t : Table M.State) (pid child : ℕ) → zombie_child t pid ≡ Some child → at (reaped t pid) child ≡ None }
    ensures others { (t : Table M.State) (pid child other : ℕ) → zombie_child t pid ≡ Some child → other ≢ child → at (reaped t pid) other ≡ at t other }
    ensures same { (t : Table M.State) (pid : ℕ) → zombie_child t pid ≡ None → reaped t pid ≡ t }
    ensures caller { (t : Table M.State) (pid : ℕ) → is_zombie (at t pid) ≡ false → at (reaped t pid) pid ≡ at t pid }
{}

/// After a fork the child has its parent, and every other process has the parent that it had.
pub fn fork_adds_one_child<M: Machine>()
    ensures child { (t : Table M.State) (child parent p : ℕ) (machine : M.State) (fds : Descriptors) → lowest_free t ≡ Some child
        → is_child_of p (at (forked t child parent machine fds) child) ≡ (p == parent) }
    ensures others { (t : Table M.State) (child parent p other : ℕ) (machine : M.State) (fds : Descriptors) → other ≢ child
        → is_child_of p (at (forked t child parent machine fds) other) ≡ is_child_of p (at t other) }
{}

/// After an exit the process has no children, init has its own and those of the process, and every other process has its
/// own.
pub fn exit_gives_the_children_to_init<M: Machine>()
    ensures gone { (t : Table M.State) (pid slot : ℕ) → pid ≢ 0 → is_child_of pid (at (exited t pid) slot) ≡ false }
    ensures init { (t : Table M.State) (pid slot : ℕ) → is_child_of 0 (at (exited t pid) slot) ≡ (is_child_of pid (at t slot) || is_child_of 0 (at t slot)) }
    ensures others { (t : Table M.State) (pid p slot : ℕ) → p ≢ pid → p ≢ 0 → is_child_of p (at (exited t pid) slot) ≡ is_child_of p (at t slot) }
{}

/// After a wait the child that was reaped has no parent, and the others have the parents that they had.
pub fn wait_takes_one_child<M: Machine>()
    ensures child { (t : Table M.State) (pid child p : ℕ) → zombie_child t pid ≡ Some child → is_child_of p (at (reaped t pid) child) ≡ false }
    ensures others { (t : Table M.State) (pid child p other : ℕ) → zombie_child t pid ≡ Some child → other ≢ child
        → is_child_of p (at (reaped t pid) other) ≡ is_child_of p (at t other) }
{}

/// A fork makes one free slot Runnable: one more process passes a test of states where Runnable passes it, and else as
/// many as before.
pub fn fork_counts<M: Machine>()
    ensures free { (t : Table M.State) (child parent : ℕ) (machine : M.State) (fds : Descriptors) → lowest_free t ≡ Some child
        → count_by is_free (forked t child parent machine fds) + 1 ≡ count_by is_free t }
    ensures states { (test : Status → Bool) (t : Table M.State) (child parent : ℕ) (machine : M.State) (fds : Descriptors) → lowest_free t ≡ Some child
        → count_by (has_status test) (forked t child parent machine fds) ≡ count_by (has_status test) t + tally (test Runnable) }
{}

/// A dispatch, a ready and a sleep take one process from the state that it is in to another; how many processes pass any
/// test of states changes by that one.
pub fn one_process_changes_state<M: Machine>()
    ensures dispatched { (test : Status → Bool) (t : Table M.State) (pid hart : ℕ) (p : Process M.State) → at t pid ≡ Some p
        → count_by (has_status test) (dispatched t pid hart) + tally (test p.status) ≡ count_by (has_status test) t + tally (test (Running hart)) }
    ensures readied { (test : Status → Bool) (t : Table M.State) (pid : ℕ) (machine : M.State) (reply : Reply) (p : Process M.State) → at t pid ≡ Some p
        → count_by (has_status test) (readied t pid machine reply) + tally (test p.status) ≡ count_by (has_status test) t + tally (test Runnable) }
    ensures slept { (test : Status → Bool) (t : Table M.State) (pid put : ℕ) (channel : Channel) (p : Process M.State) → at t pid ≡ Some p
        → count_by (has_status test) (slept t pid channel put) + tally (test p.status) ≡ count_by (has_status test) t + tally (test (Asleep channel)) }
    ensures free { (t : Table M.State) (pid put hart : ℕ) (machine : M.State) (reply : Reply) (channel : Channel)
        → (count_by is_free (dispatched t pid hart) ≡ count_by is_free t) × (count_by is_free (readied t pid machine reply) ≡ count_by is_free t) × (count_by is_free (slept t pid channel put) ≡ count_by is_free t) }
{}

/// A wake-up makes each sleeper of its channel Runnable, and no more.
pub fn wakeup_counts<M: Machine>()
    ensures asleep { (t : Table M.State) (channel : Channel) → count_by is_asleep (all_woken channel t) + count_by (is_asleep_on channel) t ≡ count_by is_asleep t }
    ensures runnable { (t : Table M.State) (channel : Channel) → count_by is_runnable (all_woken channel t) ≡ count_by is_runnable t + count_by (is_asleep_on channel) t }
    ensures others { (t : Table M.State) (channel : Channel)
        → (count_by is_free (all_woken channel t) ≡ count_by is_free t) × (count_by is_running (all_woken channel t) ≡ count_by is_running t) × (count_by is_zombie (all_woken channel t) ≡ count_by is_zombie t) }
{}

/// An exit takes its process from the state that it is in to Zombie, and wakes sleepers: how many processes pass a test of
/// states that doesn't distinguish Runnable from Asleep changes by that one process. An exit of a running process makes
/// the sleepers that it wakes Runnable, and no other.
pub fn exit_counts<M: Machine>()
    ensures states { (test : Status → Bool) (t : Table M.State) (pid : ℕ) (p : Process M.State) → ((c : Channel) → test Runnable ≡ test (Asleep c)) → at t pid ≡ Some p
        → count_by (has_status test) (exited t pid) + tally (test p.status) ≡ count_by (has_status test) t + tally (test Zombie) }
    ensures free { (t : Table M.State) (pid : ℕ) → count_by is_free (exited t pid) ≡ count_by is_free t }
    ensures runnable { (t : Table M.State) (pid : ℕ) → is_running (at t pid) ≡ true
        → count_by is_runnable (exited t pid) ≡ count_by is_runnable t + count_by (has_status (wakes_at_exit t pid)) t }
    ensures asleep { (t : Table M.State) (pid : ℕ) → is_running (at t pid) ≡ true
        → count_by is_asleep (exited t pid) + count_by (has_status (wakes_at_exit t pid)) t ≡ count_by is_asleep t }
{}

/// A wait that reaps a child makes one zombie's slot free.
pub fn wait_counts<M: Machine>()
    ensures free { (t : Table M.State) (pid child : ℕ) → zombie_child t pid ≡ Some child → count_by is_free (reaped t pid) ≡ count_by is_free t + 1 }
    ensures states { (test : Status → Bool) (t : Table M.State) (pid child : ℕ) → zombie_child t pid ≡ Some child
        → count_by (has_status test) (reaped t pid) + tally (test Zombie) ≡ count_by (has_status test) t }
{}

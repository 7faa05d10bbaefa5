//! Laws: each function's contract is the law, and its body is empty. They are of any machines.

ghost use Rattle.kernel_model.specs.KernelState.{KernelState};
ghost use Rattle.kernel_model.specs.Giving.{GivesWayBegun};
ghost use Rattle.kernel_model.specs.Linked.{CanDo};
ghost use Rattle.kernel_model.specs.Outcome.{SameOutcome};
ghost use Rattle.kernel_model.specs.Reduced.{IsFollowing, IsSafe};
ghost use Rattle.kernel_model.specs.Turns.{after_turn};

use user_calls::Machine;

/// Whatever turn a kernel of a run can take, one that differs only in who sleeps, in numbers of entries and of slots, in what is left of
/// zombies, in names of pipes and in the count of events comes to what such a turn comes to, in these same respects: by one turn, maybe
/// of the process in another slot, or by none, where that process sleeps and has nothing to do yet. The two have the same outcome.
pub fn neither_sleepers_nor_slots_are_seen<M: Machine>()
    ensures follows { IsFollowing (after_turn M.call_of M.next_of) (CanDo M.call_of M.next_of) }
    ensures back { (k m : KernelState M.State) → CanDo M.call_of M.next_of k m → CanDo M.call_of M.next_of m k }
    ensures outcome { (k m : KernelState M.State) → CanDo M.call_of M.next_of k m → SameOutcome k m }
{}

/// Private turns, closes and exits where whatever is opened later finds free entries, and forks and waits that free a zombie where
/// whoever forks later finds a free slot give way to nobody's turn, in a kernel of a run: such a turn can be taken before any other
/// process's turn or after it, and stays such a turn over that one. The first order comes to what the second one comes to, in these same
/// respects, or the turn alone does.
pub fn such_turns_give_way_to_nobody<M: Machine>()
    ensures { IsSafe (after_turn M.call_of M.next_of) (CanDo M.call_of M.next_of) (GivesWayBegun M.call_of M.next_of) }
{}

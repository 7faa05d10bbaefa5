//! Laws: each function's contract is the law, and its body is empty. They are of any machines.

ghost use Rattle.kernel_model.specs.Begun.{DoesAwake, PrivatelyBegun};
ghost use Rattle.kernel_model.specs.Reduced.{IsFollowing, IsSafe};
ghost use Rattle.kernel_model.specs.Turns.{after_turn};

use user_calls::Machine;

/// Who sleeps isn't seen: whatever turn a kernel can take, one that is alike to it but for who sleeps can take too, and does after it
/// what the other does; or it does so already, since the turn came to nothing but that its process fell asleep.
pub fn who_sleeps_is_not_seen<M: Machine>()
    ensures { IsFollowing (after_turn M.call_of M.next_of) (DoesAwake M.call_of M.next_of) }
{}

/// A private turn (an exec, a dup, a close of a descriptor whose entry the process holds by another one too) gives way to nobody's: it
/// can be taken before any other process's turn or after it, and stays private until it is taken.
pub fn a_private_turn_gives_way_to_nobody<M: Machine>()
    ensures { IsSafe (after_turn M.call_of M.next_of) (DoesAwake M.call_of M.next_of) (PrivatelyBegun M.call_of M.next_of) }
{}

//! Programs as machines.

ghost use Rattle.std.specs.Prelude.{◌≡◌, IsTrue, ◌↔◌};
ghost use Rattle.user_calls.specs.declared.calls.Call.{Call};
ghost use Rattle.user_calls.specs.declared.calls.Reply.{Reply};

use crate::{Call, CallSlot, Reply, ReplySlot};

/// A program with the state that it is in (own). It is run from one system call to the next: it takes the reply to
/// the last call and makes the next one. The same is done by two calls that move no more bytes than they need: it is
/// asked for its call and stays as it is, and then it goes on past the call.
///
/// Contracts see its state as plain data, of which both the call and the next state are functions. A state that holds
/// a reference counts as the value behind it.
pub trait Machine: Drop {
    /// The states.
    type State;

    /// The state that it is in.
    ghost view: { Self → Self.State };

    ghost use Rattle.std.specs.Coded.{Coded};

    /// A code for states, different for different states.
    ghost code: { Coded Self.State };

    /// The call that a state makes of a reply.
    ghost call_of: { Self.State → Reply → Call };

    /// The state after it.
    ghost next_of: { Self.State → Reply → Self.State };

    /// Runs on to the next call: takes the reply to the last call, and returns the next one.
    fn run(&mut self, reply: &Reply) -> Call
        ensures call { result ≡ call_of (view self.old) reply.now }
        ensures next { view self.new ≡ next_of (view self.old) reply.now };

    /// Writes the call that it makes of the reply to the last call; it stays as it is.
    fn ask(&self, reply: &ReplySlot, call: &mut CallSlot)
        ensures call { call.new ≡ call_of (view self.now) reply.now };

    /// Goes on past the call that it makes of the reply to the last call.
    fn advance(&mut self, reply: &ReplySlot)
        ensures next { view self.new ≡ next_of (view self.old) reply.now };

    /// A machine in the same state.
    fn twin(&self) -> Self
        ensures { view result ≡ view self.now };

    /// Whether the two are in the same state.
    fn same(&self, other: &Self) -> bool
        ensures { IsTrue result ↔ (view self.now ≡ view other.now) };
}

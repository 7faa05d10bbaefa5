//! One run of a machine.

ghost use Rattle.std.specs.Prelude.{◌≡◌};

use crate::{Call, Machine, Reply};
use std::marker::Model;

/// One run of a machine: the machine before it, the reply that it took, the call that it made and the machine after it
/// (own). The type keeps that these belong together, so contracts see only the first two.
#[derive(Drop)]
pub struct Ran<M: Machine> {
    before: M,
    reply: Reply,
    after: M,
    call: Call,
}

impl<M: Machine> Model for Ran<M> {
    ghost use Rattle.std.specs.Prelude.{◌≡◌};
    ghost use Rattle.user_calls.specs.RanOnce.{RanOnce};

    ghost Value = { RanOnce M.State };

    ghost view = { λ r. record { before = M.view r.before; reply = r.reply } };

    ghost invariant = { λ r. (r.call ≡ M.call_of (M.view r.before) r.reply) × (M.view r.after ≡ M.next_of (M.view r.before) r.reply) };
}

impl<M: Machine> Ran<M> {
    /// Runs the machine once, with this reply (own).
    pub fn make(machine: M, reply: Reply) -> Self
        ensures before { result.before ≡ M.view machine }
        ensures reply { result.reply ≡ reply }
    {
        let mut after = machine.twin();
        let call = after.run(&reply);
        Ran {
            before: machine,
            reply,
            after,
            call,
        }
    }

    /// The machine before the run (own).
    pub fn before(&self) -> &M
        ensures { M.view result.now ≡ self.now.before }
    {
        &self.before
    }

    /// The reply that the machine took (own).
    pub fn reply(&self) -> &Reply
        ensures { result.now ≡ self.now.reply }
    {
        &self.reply
    }

    /// The call that the machine made (own).
    pub fn call(&self) -> &Call
        ensures { result.now ≡ M.call_of self.now.before self.now.reply }
    {
        &self.call
    }

    /// The machine after the run (own).
    pub fn into_after(self) -> M
        ensures { M.view result ≡ M.next_of self.before self.reply }
    {
        self.after
    }

    /// The call that the machine made, and the machine after the run (own).
    pub fn into_parts(self) -> (Call, M)
        ensures call { result.0 ≡ M.call_of self.before self.reply }
        ensures after { M.view result.1 ≡ M.next_of self.before self.reply }
    {
        (self.call, self.after)
    }
}

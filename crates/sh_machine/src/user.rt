//! Init, shells and programs as machines.

ghost use Rattle.std.specs.Prelude.{◌≡◌};
ghost use Rattle.script_load.specs.Line.{lines_of};
ghost use Rattle.sh_machine.specs.declared.state.Phase.TheVariants.{Starts};
ghost use Rattle.sh_machine.specs.State.{init, shell, top};
ghost use Rattle.sh_machine.specs.View.{user_of};

use crate::naming::Naming;
use crate::rest::Rest;
use crate::state::{At, Next, Phase};
use crate::turns::turn;
use script_load::{Profile, Script};
use std::alloc::Allocator;
use std::marker::Model;
use user_calls::{Call, CallSlot, Machine, Reply, ReplySlot};
use user_progs::Prog;

/// The type whose model is the states of users as plain data, whatever the lifetime and the allocator. No value of it is made.
#[derive(Drop)]
pub struct UserState {
    nothing: (),
}

impl Model for UserState {
    ghost use Rattle.sh_machine.specs.Codes.{user_code};
    ghost use Rattle.sh_machine.specs.State.{User, init};

    ghost Value = { User };

    ghost coded = { user_code };

    ghost view = { λ s. init };
}

#[derive(Drop)]
enum Kind<'t, A: Allocator, N: Naming> {
    Init,
    Shell(Profile, At<'t, A, N>),
    Program(Prog<'t, A>),
}

/// Init, a shell or a program. A shell borrows the script that `N` names, and a shell or a program the tree that it runs;
/// a twin copies references and small state, and takes no memory.
#[derive(Drop)]
pub struct User<'t, A: Allocator, N: Naming> {
    kind: Kind<'t, A, N>,
}

impl<'t, A: Allocator, N: Naming> User<'t, A, N> {
    /// The first process, which waits for ever (`user/init.c`; it doesn't start the shell, own).
    pub fn init() -> Self
        ensures { user_of result ≡ init }
    {
        User { kind: Kind::Init }
    }

    /// The top shell before the first line of its script.
    pub fn shell(script: &'t Script<A>) -> Self
        requires { lines_of script.now.lines ≡ N.script }
        ensures { user_of result ≡ shell script.now.profile (top Starts (lines_of script.now.lines)) }
    {
        User {
            kind: Kind::Shell(script.profile, At::Top(Phase::Starts, Rest::whole(script))),
        }
    }
}

impl<'t, A: Allocator, N: Naming> Machine for User<'t, A, N> {
    ghost use Rattle.sh_machine.specs.Codes.{user_code};
    ghost use Rattle.sh_machine.specs.Turn.{call_of, next_of};
    ghost use Rattle.sh_machine.specs.View.{user_of};

    type State = UserState;

    ghost code = { user_code };

    ghost view = { λ user. user_of user };

    ghost call_of = { call_of };

    ghost next_of = { next_of };

    fn run(&mut self, reply: &Reply) -> Call {
        let mut slot = ReplySlot::new();
        slot.set(reply);
        let mut call = CallSlot::new();
        self.ask(&slot, &mut call);
        self.advance(&slot);
        call.to_call()
    }

    fn ask(&self, reply: &ReplySlot, call: &mut CallSlot) {
        match &self.kind {
            Kind::Init => call.wait(),
            Kind::Shell(profile, at) => turn(*profile, at, reply).call.put(call),
            Kind::Program(found) => found.ask(reply, call),
        }
    }

    fn advance(&mut self, reply: &ReplySlot) {
        if let Kind::Program(found) = &mut self.kind {
            found.advance(reply);
            return;
        }
        let Kind::Shell(profile, at) = &self.kind else {
            return;
        };
        match turn(*profile, at, reply).next {
            Next::Stays(next) => {
                if let Kind::Shell(_, at) = &mut self.kind {
                    *at = next;
                }
            }
            Next::Becomes(start) => self.kind = Kind::Program(start.begin()),
        }
    }

    fn twin(&self) -> Self {
        let kind = match &self.kind {
            Kind::Init => Kind::Init,
            Kind::Shell(profile, at) => Kind::Shell(*profile, at.twin()),
            Kind::Program(found) => Kind::Program(found.twin()),
        };
        User { kind }
    }

    fn same(&self, other: &Self) -> bool {
        match (&self.kind, &other.kind) {
            (Kind::Init, Kind::Init) => true,
            (Kind::Shell(profile, at), Kind::Shell(other_profile, other_at)) => {
                profile == other_profile && at.same(other_at)
            }
            (Kind::Program(found), Kind::Program(other_found)) => found.same(other_found),
            _ => false,
        }
    }
}

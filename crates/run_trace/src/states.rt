//! Tests of the state of a slot.

ghost use Rattle.std.specs.Prelude.{◌≡◌};
ghost use Rattle.run_trace.specs.States.{is_asleep_state, is_free_state, is_runnable_state};

use proc_table::State;

pub(crate) fn is_asleep(state: State) -> bool
    ensures { result ≡ is_asleep_state state }
{
    matches!(state, State::Asleep(_))
}

pub(crate) fn is_runnable(state: State) -> bool
    ensures { result ≡ is_runnable_state state }
{
    matches!(state, State::Runnable)
}

pub(crate) fn is_free(state: State) -> bool
    ensures { result ≡ is_free_state state }
{
    matches!(state, State::Free)
}

//! Laws of schedules as text: each function's contract is the law, and its body is empty.

ghost use Rattle.std.specs.Prelude.{◌≡◌, ℕ, All, List};
ghost use Rattle.kernel_model.specs.declared.events.Event.{Event};
ghost use Rattle.schedule_lines.specs.EventLines.{schedule_text, AreLinesOf, IsHeld, IsNoEventAt};

/// The text of a schedule is read back as that schedule: its lines are those of its events and of no others, and none of
/// them is no event.
pub fn a_schedule_is_read_back()
    ensures lines { (events : List Event) → All IsHeld events → AreLinesOf (schedule_text events) events }
    ensures one { (events others : List Event) → All IsHeld events → All IsHeld others → AreLinesOf (schedule_text events) others → others ≡ events }
    ensures no_fault { (events : List Event) (number : ℕ) → All IsHeld events → IsNoEventAt (schedule_text events) number → ⊥ }
{}

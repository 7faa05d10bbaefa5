//! What a command costs.
ghost use Rattle.std.specs.Prelude.{◌≤◌};
ghost use Rattle.step_bounds.specs.declared.capped.TheConstants.{MAX_STEPS};

/// How many bytes a command writes at most, and how many steps it makes.
#[derive(Clone, Copy)]
pub struct Cost {
    pub bytes: u64,
    pub steps: u64,
    ghost few: { bytes ≤ steps },
    ghost within: { steps ≤ MAX_STEPS },
}

//! Which events are drawn.
ghost use Rattle.std.specs.Prelude.{◌≡◌, ◌↔◌, ℕ, ◌<◌, ◌≤◌, ◌^◌, ◌-◌};
ghost use Rattle.figure_strips.specs.Spans.{IsIn, IsDrawn};

/// How many events are drawn at most.
pub const MOST_EVENTS: usize = 10_000;

/// Which events are drawn: from the first on, and up to the last, by their numbers; all where there is none.
#[derive(Clone, Copy, Debug)]
pub struct Bounds {
    pub from: Option<usize>,
    pub to: Option<usize>,
}

/// Events that are drawn: the number of the first, and of the one behind the last.
#[derive(Clone, Copy)]
pub struct Span {
    pub first: usize,
    pub past: usize,
}

impl Span {
    /// How many events it has.
    pub fn count(self) -> usize
        ensures { result ≡ self.past - self.first }
    {
        self.past.saturating_sub(self.first)
    }

    /// The events of it before an event.
    pub fn before(self, at: usize) -> Span
        ensures { (number : ℕ) → IsIn result number ↔ (IsIn self number × number < at) }
    {
        Span {
            past: at.max(self.first).min(self.past),
            ..self
        }
    }

    /// The events of it from an event on.
    pub fn from(self, at: usize) -> Span
        ensures { (number : ℕ) → IsIn result number ↔ (IsIn self number × at ≤ number) }
    {
        Span {
            first: at.max(self.first).min(self.past),
            ..self
        }
    }
}

impl Bounds {
    /// The events of a run of so many, of which at most `MOST_EVENTS` are drawn.
    pub fn span(self, events: usize) -> Span
        ensures { (number : ℕ) → number < 2 ^ 64 - 1 → IsIn result number ↔ IsDrawn MOST_EVENTS self events number }
    {
        let first = self.from.unwrap_or(1).max(1);
        let last = self
            .to
            .unwrap_or(events)
            .min(events)
            .min(first.saturating_add(MOST_EVENTS - 1));
        Span {
            first,
            past: last.saturating_add(1).max(first),
        }
    }
}

//! Where things are in a strip, in whole pixels.

use figure_words::Life;

/// How wide the time of a strip is.
pub const TIME: usize = 1122;

/// How wide the names beside a strip are.
pub const NAMES: usize = 222;

/// How far below a strip of a picture the next one is.
pub const GAP: usize = 12;

/// How wide a letter is.
pub const LETTER: usize = 6;

/// How high the numbers of events above a strip are.
pub const AXIS: usize = 24;

/// How high a band is.
pub const BAND: usize = 76;

/// How high a pipe that is full is drawn.
pub const FILL: usize = 36;

/// How high a line of output is.
pub const OUTPUT: usize = 24;

/// How high the name of a hart on a box is.
pub const CAP: usize = 12;

/// How many columns folded events take together.
pub const FOLD_COLUMNS: usize = 4;

/// How high the band of a file is.
pub const FILE: usize = 30;

/// Events that are drawn as one: the number of the first, and of the one behind the last.
#[derive(Clone, Copy)]
pub struct Fold {
    pub first: usize,
    pub past: usize,
}

impl Fold {
    /// How many events it has.
    pub fn count(self) -> usize {
        self.past.saturating_sub(self.first)
    }

    /// Whether the event is in it.
    pub fn has(self, event: usize) -> bool {
        self.first <= event && event < self.past
    }
}

/// A part of the run: the numbers of its first event, and of the one behind its last, how wide the column of an event is, and
/// which events of it are folded, in order.
#[derive(Clone, Copy)]
pub struct Window<'f> {
    pub first: usize,
    pub past: usize,
    pub column: usize,
    pub folds: &'f [Fold],
}

impl<'f> Window<'f> {
    /// These events, with those of the folds, which lie in it, folded.
    pub fn new(first: usize, past: usize, folds: &'f [Fold]) -> Window<'f> {
        let mut window = Window {
            first,
            past,
            column: 1,
            folds,
        };
        window.column = match window.end() {
            0..=56 => 20,
            57..=62 => 18,
            63..=66 => 17,
            _ => 18,
        };
        window
    }

    /// How many columns of it a strip has.
    pub fn strip_columns(self) -> usize {
        TIME / self.column.max(1)
    }

    // How many columns there are before that of an event: before the columns of its fold, where it is folded.
    fn columns_before(self, event: usize) -> usize {
        let mut columns = event.saturating_sub(self.first);
        for fold in self.folds {
            if fold.first < event {
                let folded = event.min(fold.past).saturating_sub(fold.first);
                let shown = if event < fold.past { 0 } else { FOLD_COLUMNS };
                columns = columns.saturating_sub(folded).saturating_add(shown);
            }
        }
        columns
    }

    /// The fold that an event is in.
    pub fn fold_of(self, event: usize) -> Option<Fold> {
        for fold in self.folds {
            if fold.has(event) {
                return Some(*fold);
            }
        }
        None
    }

    /// Where the column of an event begins.
    pub fn left(self, event: usize) -> usize {
        let event = event.max(self.first).min(self.past);
        self.columns_before(event).saturating_mul(self.column)
    }

    /// Where the column of an event ends.
    pub fn right(self, event: usize) -> usize {
        match self.fold_of(event) {
            Some(fold) => self.left(fold.past),
            None => self.left(event.saturating_add(1)),
        }
    }

    /// Where the edges of an event are.
    pub fn middle(self, event: usize) -> usize {
        self.left(event).saturating_add(self.right(event)) / 2
    }

    /// Where the last column ends.
    pub fn end(self) -> usize {
        self.left(self.past)
    }

    /// Whether the event is in the strip.
    pub fn has(self, event: usize) -> bool {
        self.first <= event && event < self.past
    }

    /// Whether something that lasts from an event to another is seen in the strip.
    pub fn meets(self, from: usize, to: usize) -> bool {
        from < self.past && self.first <= to
    }
}

/// A lane in a strip.
#[derive(Clone, Copy)]
pub struct Row {
    pub life: Life,
    /// Whether its process runs in the strip.
    pub is_busy: bool,
    /// How far below the strip's top it is, and how high.
    pub top: usize,
    pub height: usize,
}

impl Row {
    /// The middle line.
    pub fn middle(&self) -> usize {
        self.top.saturating_add(self.height / 2)
    }
}

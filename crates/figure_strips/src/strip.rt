//! One strip of the figure: the lanes, the bands and the output of some events.

use crate::files::touched_files;
use crate::geometry::{AXIS, BAND, FILE, OUTPUT, Row, Window};
use figure_words::{Run, events_of};
use run_figure::Band;
use std::alloc::{AllocError, Allocator};
use trace_read::{Part, PipeState, Process};

/// What is drawn in a strip.
#[derive(Drop)]
pub struct Strip<'f, A: Allocator> {
    pub window: Window<'f>,
    pub rows: Vec<Row, A>,
    pub bands: Vec<Band, A>,
    /// The names of the files that have a band.
    pub files: Vec<Part, A>,
    /// How far below its top the first band is.
    pub below: usize,
    /// Whether something is printed in it, and whether there are diagnostics.
    pub has_output: bool,
    pub has_messages: bool,
    pub height: usize,
}

// How high the lane is of a process that does nothing in the strip.
const QUIET: usize = 20;

// How high a lane is on one hart, and on several.
const LANE: usize = 36;

const LANE_OF_HARTS: usize = 48;

// The rows of the lanes that are seen in the strip.
fn rows_of<A: Allocator + Copy>(
    alloc: A,
    run: &Run<'_, A>,
    window: Window<'_>,
) -> Result<Vec<Row, A>, AllocError> {
    let mut rows: Vec<Row, A> = Vec::new(alloc);
    for life in run.lives.as_slice() {
        if window.meets(life.lane.process.born, life.gone) {
            rows.push(Row {
                life: *life,
                is_busy: false,
                top: 0,
                height: QUIET,
            })?;
        }
    }
    Ok(rows)
}

/// The row of a process.
pub fn row_of(rows: &[Row], process: Process) -> Option<&Row> {
    for row in rows {
        if row.life.lane.process == process {
            return Some(row);
        }
    }
    None
}

// Marks the rows of processes that run in the strip.
fn mark_busy<A: Allocator>(run: &Run<'_, A>, window: Window<'_>, rows: &mut [Row]) {
    for event in events_of(run.trace, window.first, window.past) {
        for row in rows.iter_mut() {
            if row.life.lane.process == event.process {
                row.is_busy = true;
            }
        }
    }
}

// Sets the rows below each other, and returns where the last ends.
fn set_rows(rows: &mut [Row], lane: usize) -> usize {
    let mut top = AXIS;
    for row in rows.iter_mut() {
        row.top = top;
        if row.is_busy {
            row.height = lane;
        }
        top = top.saturating_add(row.height);
    }
    top.saturating_add(6)
}

/// The states of a pipe that are seen in the strip: the last one before it, and those in it.
pub fn states_of<A: Allocator + Copy>(
    alloc: A,
    run: &Run<'_, A>,
    window: Window<'_>,
    pipe: usize,
) -> Result<Vec<PipeState, A>, AllocError> {
    let mut states: Vec<PipeState, A> = Vec::new(alloc);
    for state in run.trace.pipes.as_slice() {
        if state.pipe == pipe && state.event < window.past {
            if state.event < window.first {
                states.clear();
            }
            states.push(*state)?;
        }
    }
    Ok(states)
}

// The bands of the pipes that are seen in the strip.
fn bands_of<A: Allocator + Copy>(
    alloc: A,
    run: &Run<'_, A>,
    window: Window<'_>,
) -> Result<Vec<Band, A>, AllocError> {
    let mut bands: Vec<Band, A> = Vec::new(alloc);
    for (band, closed) in run.bands.as_slice().iter().zip(run.closed.as_slice()) {
        if window.meets(band.pipe, *closed) {
            bands.push(*band)?;
        }
    }
    Ok(bands)
}

// Whether an event of the strip writes to the output, and to the diagnostics.
fn writes<A: Allocator>(run: &Run<'_, A>, window: Window<'_>) -> (bool, bool) {
    let mut has_output = false;
    let mut has_messages = false;
    for event in events_of(run.trace, window.first, window.past) {
        if let Some(trap) = &event.trap {
            has_output = has_output || trap.out.is_some();
            has_messages = has_messages || trap.diag.is_some();
        }
    }
    (has_output, has_messages)
}

// How high a line is, if it is there.
fn line_height(is_there: bool) -> usize {
    if is_there { OUTPUT } else { 0 }
}

impl<'f, A: Allocator + Copy> Strip<'f, A> {
    /// The strip of these events.
    pub fn new(alloc: A, run: &Run<'_, A>, window: Window<'f>) -> Result<Self, AllocError> {
        let (has_output, has_messages) = writes(run, window);
        let mut strip = Strip {
            window,
            rows: rows_of(alloc, run, window)?,
            bands: bands_of(alloc, run, window)?,
            files: touched_files(alloc, run, window)?,
            below: 0,
            has_output,
            has_messages,
            height: 0,
        };
        strip.place(run);
        Ok(strip)
    }
}

impl<A: Allocator> Strip<'_, A> {
    // Sets the rows below each other, and then the others.
    fn place(&mut self, run: &Run<'_, A>) {
        let lane = if run.trace.head.harts > 1 {
            LANE_OF_HARTS
        } else {
            LANE
        };
        mark_busy(run, self.window, self.rows.as_mut_slice());
        self.below = set_rows(self.rows.as_mut_slice(), lane);
        let last = line_height(self.has_messages);
        self.height = self.message_top().saturating_add(last);
    }

    /// How far below its top the first file is.
    pub fn file_top(&self) -> usize {
        self.below
            .saturating_add(self.bands.len().saturating_mul(BAND))
    }

    /// How far below its top the line of the output is, and that of the diagnostics.
    pub fn output_top(&self) -> usize {
        self.file_top()
            .saturating_add(self.files.len().saturating_mul(FILE))
    }

    pub fn message_top(&self) -> usize {
        self.output_top()
            .saturating_add(line_height(self.has_output))
    }
}

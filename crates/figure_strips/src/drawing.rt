//! A strip as a picture: its names at the left, and its time beside them.

use crate::axis::add_axis;
use crate::bands::add_bands;
use crate::files::add_files;
use crate::folds::{first_strip, rest_of};
use crate::geometry::Window;
use crate::lanes::add_lanes;
use crate::names::add_names;
use crate::sheet::{Sheet, begin_time, end_strip};
use crate::strip::Strip;
use crate::written::{add_fold_outputs, add_written};
use figure_words::{Page, Run};
use std::alloc::{AllocError, Allocator};

// What a strip's events wrote.
fn add_output<A: Allocator>(page: &mut Page<A>, run: &Run<'_, A>, strip: &Strip<'_, A>) {
    let top = strip.output_top();
    if strip.has_output {
        add_fold_outputs(page, run, strip.window, top);
    }
    add_written(page, run, strip.window, top, true);
    add_written(page, run, strip.window, strip.message_top(), false);
}

// The time of a strip.
fn add_time<A: Allocator + Copy>(
    alloc: A,
    page: &mut Page<A>,
    run: &Run<'_, A>,
    strip: &Strip<'_, A>,
    sheet: Sheet,
) -> Result<(), AllocError> {
    begin_time(page, sheet, strip.window, strip.height);
    add_axis(page, strip.window, strip.height);
    add_lanes(page, run, strip.window, strip.rows.as_slice());
    add_bands(alloc, page, run, strip)?;
    add_files(alloc, page, run, strip)?;
    add_output(page, run, strip);
    Ok(())
}

// The strip of these events; returns what is left of the sheet.
fn add_strip<A: Allocator + Copy>(
    alloc: A,
    page: &mut Page<A>,
    run: &mut Run<'_, A>,
    window: Window<'_>,
    sheet: Sheet,
) -> Result<Sheet, AllocError> {
    run.pass(window.first, window.past);
    let strip = Strip::new(alloc, run, window)?;
    add_names(page, run, &strip, sheet);
    add_time(alloc, page, run, &strip, sheet)?;
    end_strip(page, sheet);
    Ok(sheet.below(strip.height))
}

/// Adds these events to the page, in as many strips as they need; the run passes them. Each strip has the lanes of the processes
/// that are there, their boxes, sleeps and edges, the bands of pipes and of files, the output and the diagnostics. Returns what is
/// left of the sheet below them. Own.
///
/// `AllocError` where memory is refused.
pub fn add_strips<A: Allocator + Copy>(
    alloc: A,
    page: &mut Page<A>,
    run: &mut Run<'_, A>,
    window: Window<'_>,
    sheet: Sheet,
) -> Result<Sheet, AllocError> {
    let mut left = sheet;
    let mut rest = window;
    for _strip in window.first..window.past {
        if rest.first >= rest.past {
            return Ok(left);
        }
        let strip = first_strip(rest);
        left = add_strip(alloc, page, run, strip, left)?;
        rest = rest_of(rest, strip);
    }
    Ok(left)
}

/// Adds strips of these events to the page, as `add_strips`, as long as it has at most so many bytes with them; returns the number of
/// the first event that isn't drawn. Own.
///
/// `AllocError` where memory is refused.
pub fn add_strips_within<A: Allocator + Copy>(
    alloc: A,
    page: &mut Page<A>,
    run: &mut Run<'_, A>,
    window: Window<'_>,
    most: usize,
) -> Result<usize, AllocError> {
    let mut rest = window;
    for _strip in window.first..window.past {
        if rest.first >= rest.past {
            return Ok(rest.first);
        }
        let strip = first_strip(rest);
        let mut drawn = Page::new(alloc);
        let _sheet = add_strip(alloc, &mut drawn, run, strip, Sheet::Page)?;
        if page.size().saturating_add(drawn.size()) > most {
            return Ok(rest.first);
        }
        page.append(drawn);
        rest = rest_of(rest, strip);
    }
    Ok(rest.first)
}

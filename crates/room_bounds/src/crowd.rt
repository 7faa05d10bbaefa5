//! The first line of a script with which it may need more processes, open files or descriptors than there are.
ghost use Rattle.std.specs.Prelude.{[], ◌∷◌, ◌++◌, List, map, IfNone, IfSome};
ghost use Rattle.script_load.specs.Line.{ScriptLine, line_of, lines_of};
ghost use Rattle.meaning_model.specs.Meaning.{script_tree};
ghost use Rattle.room_bounds.specs.Crowd.{AreHeld, HasSlots, IsFirstCrowded, IsSlotNeed};
ghost use Rattle.room_bounds.specs.Needs.{AreNeeds};
ghost use Rattle.room_bounds.specs.Room.{IsTooMuch};

use crate::capped::{one_more, sum_with};
use crate::lack::{Lack, is_within};
use crate::needs::{Needs, line_needs, of_list, of_nothing};
use crate::table::Table;
use script_load::{Line, Script};
use std::alloc::Allocator;

/// What a script needs of the tables that its text alone decides; each `None` where it is more than is reported.
#[derive(Clone, Copy)]
pub struct Held {
    pub processes: Option<u64>,
    pub entries: Option<u64>,
    pub descriptors: Option<u64>,
}

// What a script of some lines needs of them, by what its lines need.
fn held_of(needs: Needs) -> Held
    ensures { (lines : List ScriptLine) → AreNeeds (script_tree lines) needs → AreHeld lines result }
{
    Held {
        processes: one_more(needs.processes),
        entries: sum_with(3, Some(0), needs.entries),
        descriptors: needs.descriptors,
    }
}

/// What some lines need with one more.
pub(crate) fn needs_after<A: Allocator>(before: Needs, line: &Line<A>) -> Needs
    ensures { (lines : List ScriptLine) → AreNeeds (script_tree lines) before → AreNeeds (script_tree (lines ++ line_of line.now ∷ [])) result }
{
    of_list(line_needs(line), before)
}

// The first of the tables of which this is too much, with the need of it.
fn first_full(held: &Held) -> Option<(Table, Option<u64>)>
    ensures none { (lines : List ScriptLine) → AreHeld lines held.now → IfNone result (HasSlots lines) }
    ensures need { (lines : List ScriptLine) → AreHeld lines held.now → IfSome result (λ over. IsSlotNeed over.0 lines over.1) }
    ensures much { IfSome result (λ over. IsTooMuch over.0 over.1) }
{
    if !is_within(held.processes, Table::Processes) {
        Some((Table::Processes, held.processes))
    } else if !is_within(held.entries, Table::Entries) {
        Some((Table::Entries, held.entries))
    } else if !is_within(held.descriptors, Table::Descriptors) {
        Some((Table::Descriptors, held.descriptors))
    } else {
        None
    }
}

// The first of these lines with which something may not have room.
fn first_crowded_line<A: Allocator>(lines: &[Line<A>]) -> Option<Lack>
    ensures none { IfNone result (HasSlots (map line_of lines.now)) }
    ensures some { IfSome result (IsFirstCrowded (map line_of lines.now)) }
{
    let mut so_far = of_nothing();
    for (i, line) in lines.iter().enumerate() {
        match first_full(&held_of(so_far)) {
            Some((table, need)) => {
                return Some(Lack {
                    line: i,
                    table,
                    need,
                });
            }
            None => so_far = needs_after(so_far, line),
        }
    }
    match first_full(&held_of(so_far)) {
        Some((table, need)) => Some(Lack {
            line: lines.len(),
            table,
            need,
        }),
        None => None,
    }
}

/// The first line of a script with which it may need more processes, open-file entries or descriptors than there are, whatever its
/// standard input and its files, and of what; `None` where it needs no more. Where with one line several may be too few, it is the
/// first in the order of `Table`.
///
/// Takes no memory, and time linear in the script. It recurses as deep as the highest tree of the script is high.
pub fn first_crowded<A: Allocator>(script: &Script<A>) -> Option<Lack>
    ensures none { IfNone result (HasSlots (lines_of script.now.lines)) }
    ensures some { IfSome result (IsFirstCrowded (lines_of script.now.lines)) }
{
    first_crowded_line(script.lines.as_slice())
}

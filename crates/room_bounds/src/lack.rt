//! Whether a script has room, and the first of its lines with which it may not.
ghost use Rattle.std.specs.Prelude.{◌≡◌, ◌≤◌, ◌↔◌, [], ℕ, List, false, map, IfNone, IfSome, IsTrue};
ghost use Rattle.mem_files.specs.Name.{Name, Bytes};
ghost use Rattle.script_load.specs.Line.{ScriptLine, line_of, lines_of};
ghost use Rattle.room_model.specs.Roomy.{IsRoomyScript};
ghost use Rattle.room_bounds.specs.Capped.{IsCapped};
ghost use Rattle.room_bounds.specs.Room.{IsFirstLack, IsNeedOf, IsRoom, IsTooMuch, most_of};

use crate::beginning::{no_lines, with_line};
use crate::given::given_of;
use crate::room::{Room, room_with};
use crate::table::Table;
use mem_files::Files;
use script_load::{Line, Script};
use std::alloc::Allocator;

/// What a script may lack (own).
#[derive(Clone, Copy, Debug)]
pub struct Lack {
    /// With this line, counted from 1; 0 where the files that are there are too many already.
    pub line: usize,
    pub table: Table,
    /// How much of it the script needs at most, up to this line; `None` where it is more than 1,000,000.
    pub need: Option<u64>,
}

/// Whether a need is within a table.
pub(crate) fn is_within(need: Option<u64>, table: Table) -> bool
    ensures within { (n : ℕ) → IsCapped n need → IsTrue result → n ≤ most_of table }
    ensures much { result ≡ false → IsTooMuch table need }
{
    match need {
        Some(need) => need <= table.most(),
        None => false,
    }
}

// The first table of which this is too much, with the need of it.
fn first_over(room: &Room) -> Option<(Table, Option<u64>)>
    ensures none { (lines : List ScriptLine) (input : Bytes) (files : List (Name × Bytes)) → IsRoom lines input files room.now → IfNone result (IsRoomyScript lines input files) }
    ensures need { (lines : List ScriptLine) (input : Bytes) (files : List (Name × Bytes)) → IsRoom lines input files room.now → IfSome result (λ over. IsNeedOf over.0 lines input files over.1) }
    ensures much { IfSome result (λ over. IsTooMuch over.0 over.1) }
{
    if !is_within(room.processes, Table::Processes) {
        Some((Table::Processes, room.processes))
    } else if !is_within(room.entries, Table::Entries) {
        Some((Table::Entries, room.entries))
    } else if !is_within(room.descriptors, Table::Descriptors) {
        Some((Table::Descriptors, room.descriptors))
    } else if !is_within(room.files, Table::Files) {
        Some((Table::Files, room.files))
    } else if !is_within(room.size, Table::Size) {
        Some((Table::Size, room.size))
    } else {
        None
    }
}

/// Whether a script that needs this has room: it needs of nothing more than there is.
pub fn is_roomy(room: &Room) -> bool
    ensures { (lines : List ScriptLine) (input : Bytes) (files : List (Name × Bytes)) → IsRoom lines input files room.now → IsTrue result ↔ IsRoomyScript lines input files }
{
    match first_over(room) {
        None => true,
        Some(_) => false,
    }
}

// The first of these lines with which something may not have room.
fn first_lack<A: Allocator, B: Allocator>(
    lines: &[Line<A>],
    stdin: &[u8],
    store: &Files<B>,
) -> Option<Lack>
    ensures none { IfNone result (IsRoomyScript (map line_of lines.now) stdin.now store.now) }
    ensures some { IfSome result (IsFirstLack (map line_of lines.now) stdin.now store.now) }
{
    let given = given_of(store);
    let mut so_far = no_lines();
    for (i, line) in lines.iter().enumerate() {
        match first_over(&room_with(so_far, given)) {
            Some((table, need)) => {
                return Some(Lack {
                    line: i,
                    table,
                    need,
                });
            }
            None => so_far = with_line(so_far, line, stdin, store),
        }
    }
    match first_over(&room_with(so_far, given)) {
        Some((table, need)) => Some(Lack {
            line: lines.len(),
            table,
            need,
        }),
        None => None,
    }
}

/// The first line of a script with which it may not have room, on this standard input and these files, and of what; `None` where it
/// has room. Where with one line several things may be too few, it is the first in the order of `Table`.
///
/// Takes no memory, and time as `room_of`.
pub fn first_without_room<A: Allocator, B: Allocator>(
    script: &Script<A>,
    stdin: &[u8],
    store: &Files<B>,
) -> Option<Lack>
    ensures none { IfNone result (IsRoomyScript (lines_of script.now.lines) stdin.now store.now) }
    ensures some { IfSome result (IsFirstLack (lines_of script.now.lines) stdin.now store.now) }
{
    first_lack(script.lines.as_slice(), stdin, store)
}

//! Laws of the definitions that the contracts cite: each function's contract is the law, and its body is empty.
//!
//! The first two say how many calls find a free place. The others say that an entry's count is the number of
//! descriptors that hold it, over any list of tables of descriptors, and that each call keeps this. The table of the
//! process that makes the call stands between the tables `before` and `after`; with none before it and none after it,
//! it is the only one.

ghost use Rattle.std.specs.Prelude.{◌≡◌, ◌≤◌, ◌<◌, ◌+◌, ◌-◌, ◌*◌, ◌^◌, ◌↔◌, ℕ, List, [], ◌∷◌, ◌++◌, All, IsPermutation, IsSome, None, Some, length, replicate};
ghost use Rattle.fd_table.specs.declared.names.Object.{Object};
ghost use Rattle.fd_table.specs.declared.entries.TheConstants.{ENTRIES};
ghost use Rattle.fd_table.specs.declared.descriptors.TheConstants.{DESCRIPTORS};
ghost use Rattle.fd_table.specs.Entries.{Entries, IsInUse, entry_at, count_of, lowest_free_entry, added, held, released, advanced, moved_to, last_object, free_count};
ghost use Rattle.fd_table.specs.Descriptors.{Descriptors, entry_of, lowest_free, installed, without, dup_answer, after_dup, held_by_dup, after_close, released_by_close, all_held, HoldsInUse, CountsFit};
ghost use Rattle.fd_table.specs.Holders.{holders, CountHolders};

/// An install finds a place exactly where one is free, and leaves one free place less. So where two are free, two
/// installs in a row find theirs.
pub fn an_install_takes_one_free_place()
    ensures found { (fds : Descriptors) → IsSome (lowest_free fds) ↔ (0 < free_count fds) }
    ensures taken { (fds : Descriptors) (e : ℕ) → free_count (installed fds e) ≡ free_count fds - 1 }
    ensures two { (fds : Descriptors) (e : ℕ) → 2 ≤ free_count fds → IsSome (lowest_free fds) × IsSome (lowest_free (installed fds e)) }
{}

/// An add finds an entry exactly where one is free, and leaves one free entry less. So where two are free, two adds in
/// a row find theirs.
pub fn an_add_takes_one_free_entry()
    ensures found { (t : Entries) → IsSome (lowest_free_entry t) ↔ (0 < free_count t) }
    ensures taken { (t : Entries) (object : Object) → free_count (added t object) ≡ free_count t - 1 }
    ensures two { (t : Entries) (object : Object) → 2 ≤ free_count t → IsSome (lowest_free_entry t) × IsSome (lowest_free_entry (added t object)) }
{}

/// New entries count right: no descriptor holds them. A table with no open descriptor changes no count, and neither does the
/// order of the tables.
pub fn counts_begin_right()
    ensures new { CountHolders (replicate ENTRIES None) [] }
    ensures closed_table { (t : Entries) (before after : List Descriptors) → CountHolders t (before ++ after) ↔ CountHolders t (before ++ replicate DESCRIPTORS None ∷ after) }
    ensures order { (t : Entries) (tables others : List Descriptors) → IsPermutation tables others → CountHolders t tables → CountHolders t others }
{}

/// An object is opened, and a descriptor holds its entry.
pub fn add_and_install_keep_counts()
    ensures { (t : Entries) (e : ℕ) (object : Object) (fds : Descriptors) (before after : List Descriptors) → lowest_free_entry t ≡ Some e → IsSome (lowest_free fds)
        → CountHolders t (before ++ fds ∷ after) → CountHolders (added t object) (before ++ installed fds e ∷ after) }
{}

/// An entry in use is held once more, and one more descriptor holds it.
pub fn hold_and_install_keep_counts()
    ensures { (t : Entries) (e : ℕ) (fds : Descriptors) (before after : List Descriptors) → IsInUse t e → IsSome (lowest_free fds)
        → CountHolders t (before ++ fds ∷ after) → CountHolders (held t e) (before ++ installed fds e ∷ after) }
{}

/// An entry is released, and the descriptor that held it holds nothing.
pub fn release_keeps_counts()
    ensures { (t : Entries) (fd e : ℕ) (fds : Descriptors) (before after : List Descriptors) → entry_of fds fd ≡ Some e
        → CountHolders t (before ++ fds ∷ after) → CountHolders (released t e) (before ++ without fds fd ∷ after) }
{}

/// A dup of any descriptor, refused or not.
pub fn dup_keeps_counts()
    ensures { (t : Entries) (fd : ℕ) (fds : Descriptors) (before after : List Descriptors) → CountHolders t (before ++ fds ∷ after)
        → CountHolders (held_by_dup t (entry_of fds fd) (lowest_free fds)) (before ++ after_dup fds (entry_of fds fd) (lowest_free fds) ∷ after) }
{}

/// A close of any descriptor, refused or not.
pub fn close_keeps_counts()
    ensures { (t : Entries) (fd : ℕ) (fds : Descriptors) (before after : List Descriptors) → CountHolders t (before ++ fds ∷ after)
        → CountHolders (released_by_close t (entry_of fds fd)) (before ++ after_close fds fd (entry_of fds fd) ∷ after) }
{}

/// A copy of a table stands anywhere among the tables.
pub fn fork_copy_keeps_counts()
    ensures { (t : Entries) (fds : Descriptors) (before after : List Descriptors) → All (HoldsInUse t) fds
        → CountHolders t (before ++ after) → CountHolders (all_held t fds) (before ++ fds ∷ after) }
{}

/// Moving on in a file changes no count.
pub fn advance_keeps_counts()
    ensures { (t : Entries) (e n : ℕ) (tables : List Descriptors) → CountHolders t tables → CountHolders (advanced t e n) tables }
{}

/// Moving to another byte of a file changes no count.
pub fn move_to_keeps_counts()
    ensures { (t : Entries) (e n : ℕ) (tables : List Descriptors) → CountHolders t tables → CountHolders (moved_to t e n) tables }
{}

/// Where the counts are right, the entries that a table holds are in use, and no count is more than 16 for each table.
/// Small counts still fit after a copy of a table.
pub fn right_counts_meet_what_calls_require()
    ensures in_use { (t : Entries) (fds : Descriptors) (before after : List Descriptors) → CountHolders t (before ++ fds ∷ after) → All (HoldsInUse t) fds }
    ensures small { (t : Entries) (tables : List Descriptors) → All (λ fds. length fds ≡ DESCRIPTORS) tables → CountHolders t tables
        → (e : ℕ) → count_of (entry_at t e) ≤ DESCRIPTORS * length tables }
    ensures fit { (t : Entries) (fds : Descriptors) (most : ℕ) → ((e : ℕ) → count_of (entry_at t e) ≤ most) → most + length fds < 2 ^ 32 → CountsFit (all_held t fds) }
{}

/// Where the counts are right, a release returns the object exactly where no other descriptor holds it.
pub fn the_last_holder_gets_the_object()
    ensures { (t : Entries) (fd e : ℕ) (fds : Descriptors) (before after : List Descriptors) → entry_of fds fd ≡ Some e
        → CountHolders t (before ++ fds ∷ after) → IsSome (last_object (entry_at t e)) ↔ (holders (before ++ without fds fd ∷ after) e ≡ 0) }
{}

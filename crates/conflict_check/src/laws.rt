//! Laws of the definitions, each the contract of a function that does nothing.
ghost use Rattle.std.specs.Prelude.{◌≡◌, ◌⊎◌, ◌||◌, ℕ, List};
ghost use Rattle.std.specs.List.{list_any};
ghost use Rattle.std.specs.Str.{bytes_eq};
ghost use Rattle.sh_tree.specs.Tree.{Tree};
ghost use Rattle.conflict_check.specs.declared.conflict.ClashKind.{ClashKind};
ghost use Rattle.conflict_check.specs.Clash.{IsFirstClash};
ghost use Rattle.conflict_check.specs.Clear.{IsClear};
ghost use Rattle.conflict_check.specs.Names.{names, reads, writes};
ghost use Rattle.conflict_check.specs.Occurrences.{occurrences};

/// Every tree is clear or has a first clash, and never both.
pub fn clear_or_clash()
    ensures either { (tree : Tree) → IsClear tree ⊎ ((kind : ClashKind) × (name : List ℕ) × IsFirstClash tree kind name) }
    ensures never_both { (tree : Tree) (kind : ClashKind) (name : List ℕ) → IsFirstClash tree kind name → IsClear tree → ⊥ }
{}

/// A tree has one first clash at most.
pub fn one_first_clash()
    ensures { (tree : Tree) (kind other : ClashKind) (name another : List ℕ) → IsFirstClash tree kind name → IsFirstClash tree other another → (kind ≡ other) × (name ≡ another) }
{}

/// A tree names what it reads and what it writes, and these are the names of its occurrences.
pub fn names_occur()
    ensures parts { (tree : Tree) (name : List ℕ) → names tree name ≡ (reads tree name || writes tree name) }
    ensures listed { (tree : Tree) (name : List ℕ) → names tree name ≡ list_any (bytes_eq name) (occurrences tree) }
{}

//! Laws of the definitions, each the contract of a function that does nothing.
ghost use Rattle.std.specs.Prelude.{◌≡◌, ◌<◌, ◌≤◌, ◌^◌, ◌⊎◌, ◌++◌, ℕ, List, length};
ghost use Rattle.prog_parts.specs.Grep.{ended_lines, with_ends};
ghost use Rattle.prog_parts.specs.Head.{after_lines, first_lines};
ghost use Rattle.prog_parts.specs.Lines.{AreLines, HasNoLf, last_line};
ghost use Rattle.prog_parts.specs.Runs.{AreWords};
ghost use Rattle.prog_parts.specs.Wc.{capped, line_ends, words};

/// Bytes are cut into lines in exactly one way.
pub fn one_cut()
    ensures exists { (bytes : List ℕ) → (lines : List (List ℕ)) × AreLines bytes lines }
    ensures unique { (bytes : List ℕ) (ls ms : List (List ℕ)) → AreLines bytes ls → AreLines bytes ms → ls ≡ ms }
{}

/// The lines that `grep` looks at, those that end in LF, are the lines of the bytes but for a last one
/// without LF.
pub fn ended_lines_are_those_of_the_cut()
    ensures { (bytes : List ℕ) → (last : List ℕ) × HasNoLf last × (bytes ≡ with_ends (ended_lines bytes) ++ last) × AreLines bytes (ended_lines bytes ++ last_line last) }
{}

/// The first lines of some bytes, as many as are asked for, are their beginning with so many LFs, or all
/// where there are fewer, and no shorter beginning has so many.
pub fn first_lines_are_the_shortest_beginning()
    ensures begins { (n : ℕ) (bytes : List ℕ) → bytes ≡ first_lines n bytes ++ after_lines n bytes }
    ensures many { (n : ℕ) (bytes : List ℕ) → (line_ends (first_lines n bytes) ≡ n) ⊎ ((first_lines n bytes ≡ bytes) × (line_ends bytes < n)) }
    ensures shortest { (n : ℕ) (beginning later : List ℕ) → line_ends beginning ≡ n → length (first_lines n (beginning ++ later)) ≤ length beginning }
{}

/// The words that `wc` counts are the longest runs of bytes that are no white space.
pub fn words_are_the_longest_runs()
    ensures exist { (bytes : List ℕ) → (runs : List (List ℕ)) × AreWords bytes runs }
    ensures counted { (bytes : List ℕ) (runs : List (List ℕ)) → AreWords bytes runs → words bytes ≡ length runs }
{}

/// Of fewer than 2^128 bytes the counts of `wc` are exact.
pub fn counts_are_exact()
    ensures lines { (bytes : List ℕ) → length bytes < 2 ^ 128 → capped (line_ends bytes) ≡ line_ends bytes }
    ensures words { (bytes : List ℕ) → length bytes < 2 ^ 128 → capped (words bytes) ≡ words bytes }
    ensures bytes { (bytes : List ℕ) → length bytes < 2 ^ 128 → capped (length bytes) ≡ length bytes }
{}

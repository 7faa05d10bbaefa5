//! Names that other systems give to programs, and that no program has here.
ghost use Rattle.std.specs.Prelude.{◌≡◌};
ghost use Rattle.script_notes.specs.Others.{defining_kind, is_block_word, is_copy, is_defining_word, is_filter, is_folder, is_listing, is_printer, is_process, is_removal, is_setting_word, lacking_kind};

use crate::kind::NoteKind;

fn is_listing(word: &[u8]) -> bool
    ensures { result ≡ is_listing word.now }
{
    word == b"ls".as_slice() || word == b"dir".as_slice() || word == b"find".as_slice()
}

fn is_copy(word: &[u8]) -> bool
    ensures { result ≡ is_copy word.now }
{
    word == b"cp".as_slice() || word == b"mv".as_slice() || word == b"ln".as_slice()
}

fn is_removal(word: &[u8]) -> bool
    ensures { result ≡ is_removal word.now }
{
    word == b"rm".as_slice() || word == b"touch".as_slice()
}

fn is_folder(word: &[u8]) -> bool
    ensures { result ≡ is_folder word.now }
{
    word == b"mkdir".as_slice() || word == b"rmdir".as_slice() || word == b"pwd".as_slice()
}

fn is_filter(word: &[u8]) -> bool
    ensures { result ≡ is_filter word.now }
{
    word == b"sort".as_slice()
        || word == b"uniq".as_slice()
        || word == b"tail".as_slice()
        || word == b"cut".as_slice()
        || word == b"sed".as_slice()
        || word == b"awk".as_slice()
        || word == b"tr".as_slice()
        || word == b"diff".as_slice()
}

fn is_process(word: &[u8]) -> bool
    ensures { result ≡ is_process word.now }
{
    word == b"kill".as_slice()
        || word == b"ps".as_slice()
        || word == b"jobs".as_slice()
        || word == b"sleep".as_slice()
        || word == b"wait".as_slice()
        || word == b"time".as_slice()
}

fn is_printer(word: &[u8]) -> bool
    ensures { result ≡ is_printer word.now }
{
    word == b"printf".as_slice()
        || word == b"seq".as_slice()
        || word == b"yes".as_slice()
        || word == b"date".as_slice()
}

fn is_block_word(word: &[u8]) -> bool
    ensures { result ≡ is_block_word word.now }
{
    word == b"if".as_slice()
        || word == b"then".as_slice()
        || word == b"else".as_slice()
        || word == b"fi".as_slice()
        || word == b"for".as_slice()
        || word == b"while".as_slice()
        || word == b"do".as_slice()
        || word == b"done".as_slice()
}

fn is_setting_word(word: &[u8]) -> bool
    ensures { result ≡ is_setting_word word.now }
{
    word == b"test".as_slice()
        || word == b"exit".as_slice()
        || word == b"set".as_slice()
        || word == b"read".as_slice()
        || word == b"sh".as_slice()
        || word == b"bash".as_slice()
}

fn is_defining_word(word: &[u8]) -> bool
    ensures { result ≡ is_defining_word word.now }
{
    word == b"function".as_slice()
        || word == b"case".as_slice()
        || word == b"export".as_slice()
        || word == b"alias".as_slice()
}

// The kind of the note of such a word.
fn defining_kind(word: &[u8]) -> NoteKind
    ensures { result ≡ defining_kind word.now }
{
    if word == b"function".as_slice() {
        NoteKind::NoFunction
    } else if word == b"case".as_slice() {
        NoteKind::NoCase
    } else if word == b"export".as_slice() {
        NoteKind::NoExport
    } else {
        NoteKind::NoAlias
    }
}

/// The kind of the note of a command's name that no program has, by what programs of that name do on other systems.
pub fn lacking_kind(word: &[u8]) -> NoteKind
    ensures { result ≡ lacking_kind word.now }
{
    if is_listing(word) {
        NoteKind::NoListing
    } else if is_copy(word) {
        NoteKind::NoCopy
    } else if is_removal(word) {
        NoteKind::NoRemoval
    } else if is_folder(word) {
        NoteKind::NoFolder
    } else if is_filter(word) {
        NoteKind::NoFilter
    } else if is_process(word) {
        NoteKind::NoProcess
    } else if is_printer(word) {
        NoteKind::NoPrinter
    } else if is_block_word(word) || is_setting_word(word) {
        NoteKind::NoShellWord
    } else if is_defining_word(word) {
        defining_kind(word)
    } else {
        NoteKind::NoProgram
    }
}

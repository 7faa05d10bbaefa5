//! Where bytes come from.

ghost use Rattle.std.specs.Prelude.{◌≡◌, ◌≢◌, ℕ, [], Option, IfErr, IfNone, IfOk, IfSome, List, Some, codes};
ghost use Rattle.toml.specs.Data.{get_member, member, no_members, string, table};
ghost use Rattle.toml.specs.View.{table_view, view};
ghost use Rattle.suite_file.specs.Entries.{AreFiles, AreFilesOf, IsBeside, IsFileSource, IsInline, IsSource};
ghost use Rattle.suite_file.specs.Faults.{IsAt};
ghost use Rattle.suite_file.specs.declared.suite.NamedSource.{NamedSource};
ghost use Rattle.suite_file.specs.declared.suite.Source.{Source};

use crate::fault::SuiteFault;
use crate::part::Part;
use crate::suite::{NamedSource, Source};
use std::alloc::{AllocError, Global};
use toml::{Table, Value};

// This text.
fn inline(alloc: Global, text: &str) -> Result<Source, AllocError>
    ensures { IfOk result (IsInline text.now) }
{
    let bytes = Vec::from_slice(alloc, text.as_bytes())?;
    Ok(Source::Inline(bytes))
}

// The path of a table of the one key `file`.
fn file_path(inner: &Table) -> Option<&str>
    ensures some { IfSome result (λ path. table_view inner.now ≡ member (codes "file") (string path.now) no_members) }
    ensures none { IfNone result ((path : List ℕ) → table_view inner.now ≢ member (codes "file") (string path) no_members) }
{
    if inner.len() != 1 {
        return None;
    }
    match inner.get("file") {
        Some(found) => found.as_str(),
        None => None,
    }
}

// The same of a value that is such a table.
fn path_of(value: &Value) -> Option<&str>
    ensures some { IfSome result (λ path. view value.now ≡ table (member (codes "file") (string path.now) no_members)) }
    ensures none { IfNone result ((path : List ℕ) → view value.now ≢ table (member (codes "file") (string path) no_members)) }
{
    file_path(value.as_table()?)
}

// A file of this name and these bytes.
fn named(alloc: Global, name: &str, source: Source) -> Result<NamedSource, AllocError>
    ensures { IfOk result (λ file. (file.name.items ≡ name.now) × (file.source ≡ source)) }
{
    let name = Vec::from_slice(alloc, name.as_bytes())?;
    Ok(NamedSource { name, source })
}

impl Part<'_> {
    // The bytes of a file beside the suite.
    fn beside(&self, table: &str, key: &str, path: &str) -> Result<Source, SuiteFault>
        ensures ok { IfOk result (IsBeside path.now) }
        ensures refused { IfErr result (λ fault. IsAt fault → path.now ≡ []) }
    {
        if path.is_empty() {
            return Err(self.key_fault(table, key, "names no file"));
        }
        Ok(Source::Beside(String::from_str(self.alloc, path)?))
    }

    /// The bytes that stand at one key, or in the file that the other key names, if one of them is there.
    pub fn source_at(&self, key: &str, file_key: &str) -> Result<Option<Source>, SuiteFault>
        ensures ok { IfOk result (IsSource (get_member key.now (table_view self.now.table.now)) (get_member file_key.now (table_view self.now.table.now))) }
        ensures refused { IfErr result (λ fault. IsAt fault → (source : Option Source) → ¬ IsSource (get_member key.now (table_view self.now.table.now)) (get_member file_key.now (table_view self.now.table.now)) source) }
    {
        let text = self.text_at(key)?;
        let path = self.text_at(file_key)?;
        match (text, path) {
            (None, None) => Ok(None),
            (Some(text), None) => Ok(Some(inline(self.alloc, text)?)),
            (None, Some(path)) => Ok(Some(self.beside("", file_key, path)?)),
            (Some(_), Some(_)) => Err(self.both_fault(key, file_key)),
        }
    }

    // The bytes of one file of a table.
    fn file_of(&self, table: &str, name: &str, value: &Value) -> Result<Source, SuiteFault>
        ensures ok { IfOk result (IsFileSource (view value.now)) }
        ensures refused { IfErr result (λ fault. IsAt fault → (source : Source) → ¬ IsFileSource (view value.now) source) }
    {
        match (value.as_str(), path_of(value)) {
            (Some(text), _) => Ok(inline(self.alloc, text)?),
            (None, Some(path)) => self.beside(table, name, path),
            (None, None) => {
                Err(self.key_fault(table, name, "has to be a text, or { file = \"PATH\" }"))
            }
        }
    }

    // The files of a table, which is at this key.
    fn files_of(&self, key: &str, inner: &Table) -> Result<Vec<NamedSource>, SuiteFault>
        ensures ok { IfOk result (λ files. AreFilesOf (table_view inner.now) files.items) }
        ensures refused { IfErr result (λ fault. IsAt fault → (files : List NamedSource) → ¬ AreFilesOf (table_view inner.now) files) }
    {
        let mut files = Vec::new(self.alloc);
        for (name, value) in inner {
            let source = self.file_of(key, name.as_str(), value)?;
            files.push(named(self.alloc, name.as_str(), source)?)?;
        }
        Ok(files)
    }

    /// The files of the table at a key; none where it isn't there.
    pub fn files_at(&self, key: &str) -> Result<Vec<NamedSource>, SuiteFault>
        ensures ok { IfOk result (λ files. AreFiles (get_member key.now (table_view self.now.table.now)) files.items) }
        ensures refused { IfErr result (λ fault. IsAt fault → (files : List NamedSource) → ¬ AreFiles (get_member key.now (table_view self.now.table.now)) files) }
    {
        let Some(value) = self.value_at(key) else {
            return Ok(Vec::new(self.alloc));
        };
        match value.as_table() {
            Some(inner) => self.files_of(key, inner),
            None => Err(self.key_fault("", key, "is no table of files")),
        }
    }
}

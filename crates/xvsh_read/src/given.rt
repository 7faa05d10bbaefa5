//! The standard input and the script that the words of a command line give.
ghost use Rattle.std.specs.Prelude.{◌≡◌, ◌≢◌, ◌<◌, ◌≤◌, Err, None, IfOk, IfErr, length, option_map, vec_len};
ghost use Rattle.xvsh_read.specs.Given.{IsGiven, IsUngiven};

use crate::fault::Fault;
use crate::host::{Host, HostFault};
use crate::reading::{MAX_INPUT, read};
use crate::traces::Traces;
use crate::writing::Unwritten;
use closed_search::Watch;
use std::alloc::Global;

/// The path of a script that is among the words. No file has it, since a path holds no zero byte.
pub const TEXT_PATH: &str = "-c\0";

/// The word that gives no standard input: it is empty.
pub const NOTHING: &str = "none";

/// Where the words say that standard input and the script come from.
#[derive(Clone, Copy, Debug)]
pub struct Inputs<'m> {
    /// The word of the standard input: the path of a file, or `none`. Without one it is the host's.
    pub input: Option<&'m str>,
    /// The script, where it is among the words.
    pub text: Option<&'m str>,
}

/// A host with the standard input and the script of the words.
#[derive(Drop)]
pub struct Given<'h, H> {
    pub host: &'h mut H,
    pub input: Option<Vec<u8>>,
    pub text: Option<&'h str>,
}

// A copy of bytes, of which there may be as many as the limit.
fn copied(alloc: Global, bytes: &[u8], limit: usize) -> Result<Vec<u8>, HostFault>
    ensures whole { IfOk result (λ copy. copy.items ≡ bytes.now) }
    ensures within { IfOk result (λ copy. vec_len copy ≤ limit) }
    ensures too_long { result ≡ Err HostFault.TooLong → limit < length bytes.now }
    ensures readable { result ≢ Err HostFault.Unreadable }
{
    if bytes.len() > limit {
        return Err(HostFault::TooLong);
    }
    match Vec::from_slice(alloc, bytes) {
        Ok(copy) => Ok(copy),
        Err(_) => Err(HostFault::Memory),
    }
}

impl<H: Host> Host for Given<'_, H> {
    ghost use Rattle.std.specs.Prelude.{option_map};
    ghost use Rattle.xvsh_read.specs.Given.{file_by, input_by};

    ghost input = { λ g. input_by (option_map (λ bytes. bytes.items) g.input) (H.input g.host.now) };

    ghost file = { λ g. file_by g.text (H.file g.host.now) };

    fn read_input(&mut self, alloc: Global, limit: usize) -> Result<Vec<u8>, HostFault> {
        match &self.input {
            Some(bytes) => copied(alloc, bytes.as_slice(), limit),
            None => self.host.read_input(alloc, limit),
        }
    }

    fn read_path(&mut self, alloc: Global, path: &str, limit: usize) -> Result<Vec<u8>, HostFault> {
        match self.text {
            Some(text) if path == TEXT_PATH => copied(alloc, text.as_bytes(), limit),
            _ => self.host.read_path(alloc, path, limit),
        }
    }
}

impl<H: Traces> Traces for Given<'_, H> {
    fn make_folder(&mut self, path: &str) -> Result<(), Unwritten> {
        self.host.make_folder(path)
    }

    fn begin_trace(&mut self, path: &str) -> Result<(), Unwritten> {
        self.host.begin_trace(path)
    }

    fn write_trace(&mut self, bytes: &[u8]) -> Result<(), Unwritten> {
        self.host.write_trace(bytes)
    }
}

impl<H: Watch> Watch for Given<'_, H> {
    ghost stopped = { λ given. H.stopped given.host.now };

    fn found(&mut self, count: usize) -> bool {
        self.host.found(count)
    }

    fn ended(&mut self) {
        self.host.ended();
    }
}

/// The standard input that the word gives, if there is one: nothing for `none`, and for a path the bytes of its file, or why
/// these can't be read.
pub fn read_given<'a, H: Host>(
    alloc: Global,
    host: &mut H,
    word: Option<&'a str>,
) -> Result<Option<Vec<u8>>, Fault<'a>>
    ensures given { IfOk result (λ given. IsGiven (H.input host.old) (H.file host.old) word.entry (option_map (λ bytes. bytes.items) given)) }
    ensures input_stays { word.entry ≡ None → H.input host.new ≡ H.input host.old }
    ensures fault { IfErr result (IsUngiven (H.input host.old) (H.file host.old) word.entry) }
    ensures files_stay { H.file host.new ≡ H.file host.old }
{
    match word {
        None => Ok(None),
        Some(NOTHING) => Ok(Some(Vec::new(alloc))),
        Some(path) => Ok(Some(read(alloc, host, path, MAX_INPUT)?)),
    }
}

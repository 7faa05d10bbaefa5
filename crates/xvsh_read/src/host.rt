//! Where the program's input comes from.

ghost use Rattle.std.specs.Prelude.{◌≡◌, ◌<◌, ◌≤◌, Err, None, Option, List, ℕ, IfOk, IfSome, length, vec_len};

use std::alloc::Global;
use thiserror::Error;

/// Why the host returns no bytes, numbered from 1.
#[derive(Clone, Copy, Debug, PartialEq, Eq, Error)]
pub enum HostFault {
    /// A file can't be opened, or a read failed.
    #[error("unreadable")]
    Unreadable = 1,
    /// There are more bytes than the limit.
    #[error("too long")]
    TooLong,
    /// An allocation was refused.
    #[error("no memory")]
    Memory,
}

/// Where the program's input comes from: the system, or a test's memory.
pub trait Host {
    /// The bytes of standard input, where the host states them; then they can be read.
    ghost input: { Self → Option (List ℕ) };

    /// The bytes of the file at a path, where the host states them; then they can be read.
    ghost file: { Self → List ℕ → Option (List ℕ) };

    /// All bytes of standard input, of which there may be as many as the limit.
    fn read_input(&mut self, alloc: Global, limit: usize) -> Result<Vec<u8>, HostFault>
        ensures whole { IfOk result (λ bytes. IfSome (input self.old) (λ told. bytes.items ≡ told)) }
        ensures within { IfOk result (λ bytes. vec_len bytes ≤ limit) }
        ensures too_long { result ≡ Err HostFault.TooLong → IfSome (input self.old) (λ told. limit < length told) }
        ensures readable { result ≡ Err HostFault.Unreadable → input self.old ≡ None }
        ensures files_stay { file self.new ≡ file self.old };

    /// All bytes of the file at a path, of which there may be as many as the limit.
    fn read_path(&mut self, alloc: Global, path: &str, limit: usize) -> Result<Vec<u8>, HostFault>
        ensures whole { IfOk result (λ bytes. IfSome (file self.old path.now) (λ told. bytes.items ≡ told)) }
        ensures within { IfOk result (λ bytes. vec_len bytes ≤ limit) }
        ensures too_long { result ≡ Err HostFault.TooLong → IfSome (file self.old path.now) (λ told. limit < length told) }
        ensures readable { result ≡ Err HostFault.Unreadable → file self.old path.now ≡ None }
        ensures stays { (input self.new ≡ input self.old) × (file self.new ≡ file self.old) };
}

/// Whoever sits at a terminal, if somebody does.
pub trait Hints {
    /// Is shown what helps once the program wrote how it ends: a sentence, or nothing.
    fn hint(&mut self, sentence: &str);
}

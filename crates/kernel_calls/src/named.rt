//! By what a pipe is found: its name and the key under which it stands.

ghost use Rattle.std.specs.Prelude.{◌≡◌, position};
ghost use Rattle.kernel_calls.specs.Indexed.{has_name};

// The name of a pipe, and its key.
#[derive(Clone, Copy)]
pub struct Named {
    pub(crate) name: u64,
    pub(crate) key: usize,
}

// The place of the first entry of that name.
pub(crate) fn place_of(index: &[Named], name: u64) -> Option<usize>
    ensures { result ≡ position (has_name name) index.now }
{
    index.iter().position(|entry| name == entry.name)
}

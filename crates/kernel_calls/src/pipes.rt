//! All pipes of which an end is open.

ghost use Rattle.std.specs.Prelude.{◌≡◌, ℕ, ◌<◌, ◌≤◌, ◌+◌, ◌++◌, ◌||◌, if◌then◌else◌, [], ◌∷◌, IfSome, List, OnErr, OnOk, None, Some, length, option_map, remove, take};
ghost use Rattle.std.specs.Borrow.{Lends, sem};
ghost use Rattle.byte_pipe.specs.declared.Take.{Take};
ghost use Rattle.byte_pipe.specs.PipeState.{put_answer, take_answer};
ghost use Rattle.byte_pipe.specs.contracts.Pipe.{the_row as pipe_row};
ghost use Rattle.kernel_model.specs.Pipes.{pipe_of, put_into, reader_gone, taken_from, with_new, writer_gone};
ghost use Rattle.kernel_calls.specs.contracts.pipes.Pipes.{the_row as pipes_row};
ghost use Rattle.kernel_calls.specs.Placed.{IsPlaced, placed, with_placed};
ghost use Rattle.kernel_calls.specs.Status.{status_of};

use crate::PipeStatus;
use crate::named::{Named, place_of};
use crate::status::status_of;
use byte_pipe::{Pipe, Put, Take};
use slab::Slab;
use std::alloc::{AllocError, Allocator};
use std::marker::Model;

/// The pipes of which an end is open, each under its name (own).
///
/// A pipe stands in a slab, under a key that only this type sees, as long as an end of it is open; a pipe is found by an
/// index of names and keys. Contracts see the list of names and pipes in the order in which they were made, which is that
/// of the index.
#[derive(Drop)]
pub struct Pipes<A: Allocator> {
    live: Slab<Pipe<A>, A>,
    index: Vec<Named, A>,
}

impl<A: Allocator> Model for Pipes<A> {
    ghost use Rattle.kernel_model.specs.Pipes.{Pipes as Shown};

    ghost Value = { Shown };

    ghost use Rattle.kernel_calls.specs.Indexed.{AreIndexed, listed};

    ghost view = { λ p. listed p.index.items p.live };

    ghost invariant = { λ p. AreIndexed p.index.items p.live };
}

impl<A: Allocator> Pipes<A> {
    /// Puts the first of the bytes into the pipe of that name, as many as there is room for (`pipewrite`): the result of
    /// `Pipe::put`; `None` where there is no such pipe.
    pub fn put(&mut self, name: u64, bytes: &[u8]) -> Option<Put>
        ensures answer { result ≡ option_map (λ p. put_answer p bytes.now) (pipe_of self.old name) }
        ensures after { self.new ≡ put_into self.old name bytes.now (pipe_of self.old name) }
    {
        let Some(at) = self.place(name) else {
            return None;
        };
        Some(self.pipe_mut(at).put(bytes))
    }

    /// What a take of at most `count` bytes from the pipe of that name returns, and the bytes that it gives, in the two
    /// parts in which they lie; `None` where there is no such pipe (own).
    pub fn peek(&self, name: u64, count: usize) -> Option<(Take, &[u8], &[u8])>
        ensures value { option_map {U = Take × List ℕ} (λ r. (r.0, r.1.now ++ r.2.now)) result ≡ option_map (λ p. (take_answer p count, take count p.bytes)) (pipe_of self.now name) }
        ensures within { IfSome result (λ r. length r.1.now + length r.2.now ≤ count) }
    {
        let Some(at) = self.place(name) else {
            return None;
        };
        let pipe = self.pipe(at);
        let (first, second) = pipe.first_bytes(count);
        Some((pipe.would_take(count), first, second))
    }

    /// Takes at most `count` bytes from the pipe of that name, if there is one (`piperead`); `peek` gave them before.
    pub fn skip(&mut self, name: u64, count: usize)
        ensures { self.new ≡ taken_from self.old name count (pipe_of self.old name) }
    {
        let Some(at) = self.place(name) else {
            return;
        };
        self.pipe_mut(at).skip(count);
    }

    /// How full the pipe of that name is, and which of its ends are open; `None` where there is no such pipe (own).
    pub fn status(&self, name: u64) -> Option<PipeStatus>
        ensures { result ≡ option_map status_of (pipe_of self.now name) }
    {
        let Some(at) = self.place(name) else {
            return None;
        };
        Some(status_of(self.pipe(at)))
    }

    /// Closes the read end of the pipe of that name, if there is one; with the second end the pipe is freed
    /// (`pipeclose`).
    pub fn close_read(&mut self, name: u64)
        ensures { self.new ≡ reader_gone self.old name (pipe_of self.old name) }
    {
        let Some(at) = self.place(name) else {
            return;
        };
        self.pipe_mut(at).close_read();
        self.give_up_closed(at);
    }

    /// Closes the write end, likewise (`pipeclose`).
    pub fn close_write(&mut self, name: u64)
        ensures { self.new ≡ writer_gone self.old name (pipe_of self.old name) }
    {
        let Some(at) = self.place(name) else {
            return;
        };
        self.pipe_mut(at).close_write();
        self.give_up_closed(at);
    }
}

impl<A: Allocator> Pipes<A> {
    // Where the pipe of that name stands.
    fn place(&self, name: u64) -> Option<usize>
        ensures missing { result ≡ None → pipe_of self.now name ≡ None }
        ensures found { IfSome result (λ at. IsPlaced self.now name at) }
    {
        place_of(&self.index, name)
    }

    /// How many pipes there are (own).
    pub fn count(&self) -> usize
        ensures { result ≡ length self.now }
    {
        self.index.len()
    }

    /// The name of the pipe at a place, counted from 0 in the order in which the pipes were made (own).
    pub fn name(&self, at: usize) -> u64
        requires { at < length self.now }
        ensures { result ≡ (placed self.now at).0 }
    {
        self.index[at].name
    }

    // The pipe at a place.
    fn pipe(&self, at: usize) -> &Pipe<A>
        requires { at < length self.now }
        ensures { result.now ≡ (placed self.now at).1 }
    {
        &self.live[self.index[at].key]
    }

    // The pipe at a place, to be changed: what it ends as is what stands there.
    fn pipe_mut(&mut self, at: usize) -> &mut Pipe<A>
        requires { at < length self.old }
        ensures* lends { sem 𝓛 (Lends (pipes_row A.row A.Allocator) (pipe_row A.row A.Allocator) self.entry result (with_placed self.old at)) }
        ensures value { result.now ≡ (placed self.old at).1 }
    {
        let key = self.index[at].key;
        &mut self.live[key]
    }

    // The pipe at a place is given up, unless an end of it is open.
    fn give_up_closed(&mut self, at: usize)
        requires { at < length self.old }
        ensures { self.new ≡ (if (placed self.old at).1.reader || (placed self.old at).1.writer then self.old else remove self.old at) }
    {
        let pipe = self.pipe(at);
        let open = pipe.reader_open() || pipe.writer_open();
        if !open {
            self.give_up(at);
        }
    }

    // The pipe at a place is given up.
    fn give_up(&mut self, at: usize)
        requires { at < length self.old }
        ensures { self.new ≡ remove self.old at }
    {
        let entry = self.index.remove(at);
        self.live.remove(entry.key);
    }

    // All pipes are given up.
    fn give_up_all(&mut self)
        ensures { self.new ≡ [] }
    {
        let count = self.count();
        for _pipe in 0..count {
            self.give_up(0);
        }
    }
}

impl<A: Allocator + Copy> Pipes<A> {
    /// A table without pipes. Takes no memory (own).
    pub fn new(alloc: A) -> Self
        ensures { result ≡ [] }
    {
        Pipes {
            live: Slab::new(alloc),
            index: Vec::new(alloc),
        }
    }

    /// Becomes equal to the other table (own).
    ///
    /// `AllocError` where memory for a pipe is refused; what the table then holds isn't said.
    pub fn copy_from(&mut self, other: &Self) -> Result<(), AllocError>
        ensures { OnOk result (self.new ≡ other.now) }
    {
        self.give_up_all();
        for at in 0..other.count() {
            self.add_equal(other.name(at), other.pipe(at))?;
        }
        Ok(())
    }

    // Makes a pipe of that name, equal to this one.
    fn add_equal(&mut self, name: u64, pipe: &Pipe<A>) -> Result<(), AllocError>
        ensures { OnOk result (self.new ≡ self.old ++ (name, pipe.now) ∷ []) }
    {
        let at = self.count();
        self.add(name)?;
        self.pipe_mut(at).copy_from(pipe);
        Ok(())
    }

    /// Makes a pipe of that name, empty and with both ends open (`pipealloc`).
    ///
    /// `AllocError` where memory for it is refused; nothing changes then.
    pub fn add(&mut self, name: u64) -> Result<(), AllocError>
        ensures ok { OnOk result (self.new ≡ with_new self.old name) }
        ensures err { OnErr result (self.new ≡ self.old) }
    {
        let pipe = Pipe::new(*self.index.allocator())?;
        self.index.reserve(1)?;
        self.live.reserve(1)?;
        let key = self.live.insert_reserved(pipe);
        self.index.push_reserved(Named { name, key });
        Ok(())
    }
}

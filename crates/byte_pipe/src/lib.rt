//! One pipe: at most 512 bytes on their way from a writer to a reader, and which of the two ends are open.
//!
//! The behaviour is that of xv6's `kernel/pipe.c`, whose `pipewrite` and `piperead` sleep in the middle of a call.
//! Here a call never waits: it moves what it can, returns how much, and the caller decides when to try again (own).
#![tactic(auto)]

ghost use Rattle.std.specs.Prelude.{◌≡◌, ◌≤◌, ◌+◌, ◌++◌, length, take, IfOk};
ghost use Rattle.byte_pipe.specs.Limits.{pipe_size};

pub mod laws;

use circular_buffer::HeapCircularBuffer;
use std::alloc::{AllocError, Allocator};
use std::marker::Model;

/// How many bytes a pipe can hold (xv6's `PIPESIZE`).
pub const PIPE_SIZE: usize = 512;

/// The result of a put (own: xv6 sleeps in place of `Full`).
#[derive(Clone, Copy, Debug, PartialEq, Eq)]
pub enum Put {
    /// The pipe took this many bytes, the first ones of those offered.
    Took(usize),
    /// There were bytes to put and the reader is open, but there was room for none of them.
    Full,
    /// There were bytes to put, and the reader is closed.
    Closed,
}

/// The result of a take (own: xv6 sleeps in place of `Empty`).
#[derive(Clone, Copy, Debug, PartialEq, Eq)]
pub enum Take {
    /// This many bytes, the oldest ones, moved to the front of the buffer.
    Got(usize),
    /// The pipe holds nothing, and its writer is open.
    Empty,
    /// The pipe holds nothing, and its writer is closed.
    End,
}

/// A pipe (xv6's `struct pipe`).
///
/// Contracts see its bytes, the oldest first, and whether its reader and its writer are open. Only `new` takes
/// memory.
#[derive(Drop)]
pub struct Pipe<A: Allocator> {
    ring: HeapCircularBuffer<u8, A>,
    reader: bool,
    writer: bool,
}

impl<A: Allocator> Model for Pipe<A> {
    ghost use Rattle.std.specs.Prelude.{◌≡◌, ◌≤◌, length};
    ghost use Rattle.byte_pipe.specs.PipeState.{PipeState};
    ghost use Rattle.byte_pipe.specs.Limits.{pipe_size};

    ghost Value = { PipeState };

    ghost view = { λ p. record { bytes = p.ring.items; reader = p.reader; writer = p.writer } };

    ghost invariant = { λ p. (p.ring.capacity ≡ pipe_size) × (length p.ring.items ≤ pipe_size) };
}

impl<A: Allocator> Pipe<A> {
    ghost use Rattle.byte_pipe.specs.PipeState.{new_pipe, put_answer, after_put, take_answer, filled, after_take, after_close_read, after_close_write};

    /// An empty pipe with both ends open, and with room for all the bytes that it can ever hold (`pipealloc`).
    ///
    /// `AllocError` where the allocator refuses that room.
    pub fn new(alloc: A) -> Result<Self, AllocError>
        ensures { IfOk result (λ p. p ≡ new_pipe) }
    {
        let ring = HeapCircularBuffer::with_capacity(alloc, PIPE_SIZE)?;
        Ok(Pipe {
            ring,
            reader: true,
            writer: true,
        })
    }

    /// Becomes equal to the other pipe (own).
    pub fn copy_from(&mut self, other: &Self)
        ensures { self.new ≡ other.now }
    {
        let (front, back) = other.ring.as_slices();
        self.ring.clear();
        self.ring.fill_from_slice(front);
        self.ring.fill_from_slice(back);
        self.reader = other.reader;
        self.writer = other.writer;
    }

    /// Appends the first of `bytes`, as many as there is room for (`pipewrite`).
    ///
    /// Returns how many; `Closed` where the reader is closed, and else `Full` where there is room for none. A put of no
    /// bytes returns `Took(0)`, also on a full pipe and after the reader is closed.
    pub fn put(&mut self, bytes: &[u8]) -> Put
        ensures answer { result ≡ put_answer self.old bytes.now }
        ensures after { self.new ≡ after_put self.old bytes.now }
        ensures within { length self.new.bytes ≤ pipe_size }
    {
        let room = PIPE_SIZE - self.ring.len();
        if bytes.is_empty() {
            return Put::Took(0);
        }
        if !self.reader {
            return Put::Closed;
        }
        if room == 0 {
            return Put::Full;
        }
        Put::Took(self.ring.fill_from_slice(bytes))
    }

    /// Moves the oldest bytes to the front of `buffer`, as many as it can hold (`piperead`).
    ///
    /// Returns how many; of an empty pipe `Empty` where the writer is open, and else `End`. The rest of `buffer` stays as
    /// it was, and all of it where the result isn't `Got`.
    pub fn take(&mut self, buffer: &mut [u8]) -> Take
        ensures answer { result ≡ take_answer self.old (length buffer.old) }
        ensures moved { buffer.new ≡ filled self.old buffer.old }
        ensures after { self.new ≡ after_take self.old (length buffer.old) }
        ensures within { length self.new.bytes ≤ pipe_size }
    {
        let answer = self.would_take(buffer.len());
        self.ring.read_into(buffer);
        answer
    }

    /// What `take` would return of a buffer of `count` bytes (own).
    pub fn would_take(&self, count: usize) -> Take
        ensures { result ≡ take_answer self.now count }
    {
        let held = self.ring.len();
        if held == 0 {
            return if self.writer { Take::Empty } else { Take::End };
        }
        Take::Got(held.min(count))
    }

    /// The oldest `count` bytes, or all where there are fewer, where they lie, in two parts (own).
    pub fn first_bytes(&self, count: usize) -> (&[u8], &[u8])
        ensures value { result.0.now ++ result.1.now ≡ take count self.now.bytes }
        ensures within { length result.0.now + length result.1.now ≤ count }
    {
        let (front, back) = self.ring.as_slices();
        let from_front = count.min(front.len());
        let from_back = (count - from_front).min(back.len());
        (&front[..from_front], &back[..from_back])
    }

    /// Takes the oldest `count` bytes, or all where there are fewer, without moving them: `first_bytes` gave them before
    /// (`piperead`).
    pub fn skip(&mut self, count: usize)
        ensures after { self.new ≡ after_take self.old count }
        ensures within { length self.new.bytes ≤ pipe_size }
    {
        let held = self.ring.len();
        self.ring.truncate_front(held - count.min(held));
    }

    /// Closes the read end: from now on a put of bytes returns `Closed` (`pipeclose`).
    pub fn close_read(&mut self)
        ensures { self.new ≡ after_close_read self.old }
    {
        self.reader = false;
    }

    /// Closes the write end: once the pipe is empty, a take returns `End` (`pipeclose`).
    pub fn close_write(&mut self)
        ensures { self.new ≡ after_close_write self.old }
    {
        self.writer = false;
    }

    /// How many bytes the pipe holds (`nwrite` less `nread`).
    pub fn held(&self) -> usize
        ensures count { result ≡ length self.now.bytes }
        ensures within { result ≤ pipe_size }
    {
        self.ring.len()
    }

    /// Whether the read end is open (`readopen`).
    pub fn reader_open(&self) -> bool
        ensures { result ≡ self.now.reader }
    {
        self.reader
    }

    /// Whether the write end is open (`writeopen`).
    pub fn writer_open(&self) -> bool
        ensures { result ≡ self.now.writer }
    {
        self.writer
    }
}

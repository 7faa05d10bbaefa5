//! What is kept of a kernel, part by part: each is compared by its whole value. Each has its digest, which is no part of its
//! value.

ghost use Rattle.std.specs.Prelude.{◌≡◌, ◌↔◌, IsTrue, true};
ghost use Rattle.fd_table.specs.Entries.{entry_at};
ghost use Rattle.fd_table.specs.declared.names.Object.TheVariants.{PipeWrite};
ghost use Rattle.order_search.specs.Shown.{IsCloseOf, IsOpenAs};
ghost use Rattle.kernel_model.specs.Woke.{woke_status};
ghost use Rattle.kernel_model.specs.Anyhow.{bare_status};

use crate::pools::{Digest, Same};
use crate::private::{CloseOf, NextCall};
use crate::renumbering::{are_places_under, free_entries};
use fd_table::{Mode, Object};
use mem_files::Files;
use proc_table::Status;
use std::alloc::Global;
use std::marker::Model;
use user_calls::{Machine, Reply};

// A process.
#[derive(Drop)]
pub struct Held<M: Machine> {
    pub status: Status,
    pub parent: Option<u8>,
    pub machine: M,
    pub reply: Reply,
    pub places: Vec<Option<u8>>,
    pub put: usize,
    pub next: NextCall,
    pub digest: u64,
}

impl<M: Machine> Model for Held<M> {
    ghost use Rattle.proc_table.specs.Slots.{Process};
    ghost use Rattle.order_search.specs.Shown.{IsNextCall};

    ghost Value = { Process M.State };

    ghost view = { λ h. record { status = h.status; parent = h.parent; machine = M.view h.machine; reply = h.reply; fds = h.places.items; put = h.put } };

    ghost invariant = { λ h. IsNextCall h.places.items (M.call_of (M.view h.machine) h.reply) h.next };
}

// An entry that is in use.
#[derive(Drop)]
pub struct Opened {
    pub object: Object,
    pub count: u32,
    pub offset: u64,
}

impl Model for Opened {
    ghost use Rattle.fd_table.specs.Entries.{OpenFile};

    ghost Value = { OpenFile };

    ghost view = { λ f. record { object = f.object; count = f.count; offset = f.offset } };
}

// All entries. Those past the last one of these slots are free.
#[derive(Drop)]
pub struct Entries {
    pub slots: Vec<Option<Opened>>,
    pub digest: u64,
}

impl Model for Entries {
    ghost use Rattle.fd_table.specs.Entries.{Entries as Shown};
    ghost use Rattle.order_search.specs.Shown.{filled};

    ghost Value = { Shown };

    ghost view = { λ e. filled 100 e.slots.items };
}

// A pipe, named by its place.
#[derive(Drop)]
pub struct Piped {
    pub name: u64,
    pub bytes: Vec<u8>,
    pub reader: bool,
    pub writer: bool,
}

impl Model for Piped {
    ghost use Rattle.std.specs.Prelude.{ℕ};
    ghost use Rattle.byte_pipe.specs.PipeState.{PipeState};

    ghost Value = { ℕ × PipeState };

    ghost view = { λ p. (p.name, record { bytes = p.bytes.items; reader = p.reader; writer = p.writer }) };
}

// All pipes, in their order.
#[derive(Drop)]
pub struct Pipes {
    pub pipes: Vec<Piped>,
    pub digest: u64,
}

impl Model for Pipes {
    ghost use Rattle.kernel_model.specs.Pipes.{Pipes as Shown};

    ghost Value = { Shown };

    ghost view = { λ p. p.pipes.items };
}

// Bytes.
#[derive(Drop)]
pub struct Bytes {
    pub bytes: Vec<u8>,
    pub digest: u64,
}

impl Model for Bytes {
    ghost use Rattle.std.specs.Prelude.{List, ℕ};

    ghost Value = { List ℕ };

    ghost view = { λ b. b.bytes.items };
}

// All files.
#[derive(Drop)]
pub struct AllFiles {
    pub files: Files<Global>,
    pub digest: u64,
}

impl Model for AllFiles {
    ghost use Rattle.std.specs.Prelude.{List, ℕ};

    ghost Value = { List (List ℕ × List ℕ) };

    ghost view = { λ f. f.files };
}

impl Same for Bytes {
    fn same(&self, other: &Bytes) -> bool {
        self.bytes.as_slice() == other.bytes.as_slice()
    }

    fn digest(&self) -> u64 {
        self.digest
    }
}

impl Bytes {
    ghost use Rattle.std.specs.Prelude.{◌≡◌};

    // The bytes, with their digest.
    pub fn of(bytes: Vec<u8>) -> Bytes
        ensures { result ≡ bytes.items }
    {
        let mut digest = Digest::new();
        digest.add_bytes(&bytes);
        Bytes {
            bytes,
            digest: digest.so_far,
        }
    }
}

impl Same for AllFiles {
    fn same(&self, other: &AllFiles) -> bool {
        self.files.same(&other.files)
    }

    fn digest(&self) -> u64 {
        self.digest
    }
}

impl AllFiles {
    ghost use Rattle.std.specs.Prelude.{◌≡◌};

    // The files, with their digest.
    pub fn of(files: Files<Global>) -> AllFiles
        ensures { result ≡ files }
    {
        let mut digest = Digest::new();
        for place in 0..files.count() {
            if let Some(name) = files.name_at(place) {
                digest.add_bytes(name);
                digest.add_bytes(files.get(name).unwrap_or(b""));
            }
        }
        AllFiles {
            files,
            digest: digest.so_far,
        }
    }
}

impl Piped {
    ghost use Rattle.std.specs.Prelude.{◌≡◌, ◌↔◌, IsTrue};

    fn same(&self, other: &Piped) -> bool
        ensures { IsTrue result ↔ (self.now ≡ other.now) }
    {
        self.name == other.name
            && self.reader == other.reader
            && self.writer == other.writer
            && self.bytes.as_slice() == other.bytes.as_slice()
    }
}

impl Same for Pipes {
    fn same(&self, other: &Pipes) -> bool {
        if self.pipes.len() != other.pipes.len() {
            return false;
        }
        for i in 0..self.pipes.len() {
            if !self.pipes[i].same(&other.pipes[i]) {
                return false;
            }
        }
        true
    }

    fn digest(&self) -> u64 {
        self.digest
    }
}

impl Pipes {
    ghost use Rattle.std.specs.Prelude.{◌≡◌};

    // The pipes, with their digest.
    pub fn of(pipes: Vec<Piped>) -> Pipes
        ensures { result ≡ pipes.items }
    {
        let mut digest = Digest::new();
        for pipe in &pipes {
            digest.add(u64::from(pipe.reader) + 2 * u64::from(pipe.writer));
            digest.add_bytes(&pipe.bytes);
        }
        Pipes {
            pipes,
            digest: digest.so_far,
        }
    }
}

fn same_object(object: &Object, other: &Object) -> bool
    ensures { IsTrue result ↔ (object.now ≡ other.now) }
{
    match (object, other) {
        (Object::Input, Object::Input) => true,
        (Object::Out, Object::Out) => true,
        (Object::Diag, Object::Diag) => true,
        (Object::File(name, mode), Object::File(other_name, other_mode)) => {
            name.as_slice() == other_name.as_slice() && mode == other_mode
        }
        (Object::PipeRead(pipe), Object::PipeRead(other)) => pipe == other,
        (Object::PipeWrite(pipe), Object::PipeWrite(other)) => pipe == other,
        _ => false,
    }
}

impl Opened {
    ghost use Rattle.std.specs.Prelude.{◌≡◌, ◌↔◌, IsTrue, true, Some};
    ghost use Rattle.fd_table.specs.declared.names.Object.TheVariants.{PipeWrite};
    ghost use Rattle.order_search.specs.Shown.{IsCloseOf, IsOpenAs};

    fn same(&self, other: &Opened) -> bool
        ensures { IsTrue result ↔ (self.now ≡ other.now) }
    {
        same_object(&self.object, &other.object)
            && self.count == other.count
            && self.offset == other.offset
    }

    // What a close of its descriptor closes.
    fn close_of(&self) -> CloseOf
        ensures { IsCloseOf (Some self.now) result }
    {
        match &self.object {
            Object::PipeRead(pipe) => CloseOf::ReadEnd(*pipe),
            _ => CloseOf::Other,
        }
    }

    // Whether it is the write end of this pipe.
    fn is_write_end(&self, pipe: u64) -> bool
        ensures { IsTrue result ↔ IsOpenAs (λ o. o ≡ PipeWrite pipe) (Some self.now) }
    {
        match &self.object {
            Object::PipeWrite(other) => *other == pipe,
            _ => false,
        }
    }

    // Adds what is kept to a digest.
    pub fn add_to(&self, digest: &mut Digest) {
        match &self.object {
            Object::Input => digest.add(1),
            Object::Out => digest.add(2),
            Object::Diag => digest.add(3),
            Object::File(name, mode) => {
                let number = match mode {
                    Mode::Input => 4,
                    Mode::Fresh => 5,
                    Mode::Over => 6,
                    Mode::Append => 7,
                };
                digest.add(number);
                digest.add_bytes(name.as_slice());
            }
            Object::PipeRead(pipe) => {
                digest.add(8);
                digest.add(*pipe);
            }
            Object::PipeWrite(pipe) => {
                digest.add(9);
                digest.add(*pipe);
            }
        }
        digest.add(u64::from(self.count));
        digest.add(self.offset);
    }
}

// Whether both entries are equal.
pub fn same_entry(entry: &Option<Opened>, other: &Option<Opened>) -> bool
    ensures { IsTrue result ↔ (entry.now ≡ other.now) }
{
    match (entry, other) {
        (None, None) => true,
        (Some(opened), Some(other)) => opened.same(other),
        _ => false,
    }
}

// Whether the entries are equal.
fn same_entries(entries: &[Option<Opened>], others: &[Option<Opened>]) -> bool
    ensures { result ≡ true → entries.now ≡ others.now }
{
    if entries.len() != others.len() {
        return false;
    }
    for i in 0..entries.len() {
        if !same_entry(&entries[i], &others[i]) {
            return false;
        }
    }
    true
}

// What a close of a descriptor of the entry of this number closes.
fn close_in(entries: &[Option<Opened>], number: u8) -> CloseOf
    ensures { IsCloseOf (entry_at entries.now number) result }
{
    let place = usize::from(number);
    if place >= entries.len() {
        return CloseOf::Nothing;
    }
    match &entries[place] {
        Some(opened) => opened.close_of(),
        None => CloseOf::Nothing,
    }
}

// Whether the entry of this number is the write end of this pipe.
fn is_write_end_in(entries: &[Option<Opened>], number: u8, pipe: u64) -> bool
    ensures { IsTrue result ↔ IsOpenAs (λ o. o ≡ PipeWrite pipe) (entry_at entries.now number) }
{
    let place = usize::from(number);
    if place >= entries.len() {
        return false;
    }
    match &entries[place] {
        Some(opened) => opened.is_write_end(pipe),
        None => false,
    }
}

impl Entries {
    ghost use Rattle.std.specs.Prelude.{◌≡◌, ◌↔◌, IsTrue, IfSome, true};
    ghost use Rattle.fd_table.specs.Entries.{entry_at, free_count};
    ghost use Rattle.fd_table.specs.declared.names.Object.TheVariants.{PipeWrite};
    ghost use Rattle.order_search.specs.Shown.{filled, IsCloseOf, IsOpenAs};

    // Whether the two are kept alike, and so are equal.
    pub fn same(&self, other: &Entries) -> bool
        ensures { result ≡ true → self.now ≡ other.now }
    {
        same_entries(&self.slots, &other.slots)
    }

    // What a close of a descriptor of the entry of this number closes.
    pub fn close_of(&self, number: u8) -> CloseOf
        ensures { IsCloseOf (entry_at self.now number) result }
    {
        close_in(&self.slots, number)
    }

    // Whether the entry of this number is the write end of this pipe.
    fn is_write_end(&self, number: u8, pipe: u64) -> bool
        ensures { IsTrue result ↔ IsOpenAs (λ o. o ≡ PipeWrite pipe) (entry_at self.now number) }
    {
        is_write_end_in(&self.slots, number, pipe)
    }

    // How many entries are free, if that can be counted.
    pub fn free_count(&self) -> Option<usize>
        ensures { IfSome result (λ count. count ≡ free_count self.now) }
    {
        free_entries(&self.slots).checked_add(100usize.saturating_sub(self.slots.len()))
    }

    // The entries, with their digest.
    pub fn of(slots: Vec<Option<Opened>>) -> Entries
        ensures { result ≡ filled 100 slots.items }
    {
        let mut digest = Digest::new();
        for slot in &slots {
            match slot {
                None => digest.add(0),
                Some(opened) => opened.add_to(&mut digest),
            }
        }
        Entries {
            slots,
            digest: digest.so_far,
        }
    }
}

fn status_number(status: Status) -> u64 {
    match status {
        Status::Runnable | Status::Asleep(_) => 0,
        Status::Running(_) => 1,
        Status::Zombie => 2,
    }
}

fn add_reply(reply: &Reply, digest: &mut Digest) {
    match reply {
        Reply::Start => digest.add(0),
        Reply::Child => digest.add(1),
        Reply::Done => digest.add(2),
        Reply::Bytes(block) => digest.add_bytes(block.as_slice()),
        Reply::Fd(fd) => digest.add((*fd as u64 & 0xff) + 1000),
        Reply::Ends(reader, writer) => {
            digest.add(*reader as u64);
            digest.add(*writer as u64);
        }
        Reply::Refused => digest.add(3),
    }
}

fn same_places(places: &[Option<u8>], others: &[Option<u8>]) -> bool
    ensures { IsTrue result ↔ (places.now ≡ others.now) }
{
    if places.len() != others.len() {
        return false;
    }
    for i in 0..places.len() {
        if places[i] != others[i] {
            return false;
        }
    }
    true
}

// A status as if who sleeps or runs were Runnable.
fn bare(status: Status) -> Status
    ensures { result ≡ bare_status status }
{
    match status {
        Status::Zombie => Status::Zombie,
        _ => Status::Runnable,
    }
}

// A status as if who sleeps were awake.
fn awake(status: Status) -> Status
    ensures { result ≡ woke_status status }
{
    match status {
        Status::Asleep(_) => Status::Runnable,
        other => other,
    }
}

impl<M: Machine> Held<M> {
    ghost use Rattle.std.specs.Prelude.{◌≡◌, ◌↔◌, IsTrue, true, false, Some};
    ghost use Rattle.kernel_model.specs.Woke.{woke_slot};
    ghost use Rattle.kernel_model.specs.Numbers.{renumbered_slot};
    ghost use Rattle.kernel_model.specs.Anyhow.{bare_slot};
    ghost use Rattle.proc_table.specs.Slots.{is_zombie_child_of};
    ghost use Rattle.order_search.specs.Shown.{HasNoWriteEnd, IsReadyCall};
    ghost use Rattle.order_search.specs.Under.{number_under};

    // Whether the other one is this one under these numbers of entries, but for who sleeps.
    pub fn is_under(&self, to: &[u8], other: &Held<M>) -> bool
        ensures { result ≡ true → renumbered_slot (number_under to.now) (woke_slot (Some self.now)) ≡ woke_slot (Some other.now) }
    {
        awake(self.status) == awake(other.status)
            && self.parent == other.parent
            && self.put == other.put
            && are_places_under(to, &self.places, &other.places)
            && self.reply.same(&other.reply)
            && self.machine.same(&other.machine)
    }

    // Whether the two are equal, but for who sleeps.
    pub fn same_awake(&self, other: &Held<M>) -> bool
        ensures { result ≡ true → woke_slot (Some self.now) ≡ woke_slot (Some other.now) }
    {
        self.put == other.put
            && self.parent == other.parent
            && awake(self.status) == awake(other.status)
            && same_places(&self.places, &other.places)
            && self.reply.same(&other.reply)
            && self.machine.same(&other.machine)
    }

    // Whether the two are equal, but for who sleeps or runs and for what descriptors hold.
    pub fn same_bare(&self, other: &Held<M>) -> bool
        ensures { IsTrue result ↔ (bare_slot (Some self.now) ≡ bare_slot (Some other.now)) }
    {
        bare(self.status) == bare(other.status)
            && self.parent == other.parent
            && self.put == other.put
            && self.reply.same(&other.reply)
            && self.machine.same(&other.machine)
    }

    // What is known of its next call, if it is Runnable.
    pub fn ready_call(&self) -> NextCall
        ensures { IsReadyCall M.call_of (Some self.now) result }
    {
        if self.status == Status::Runnable {
            self.next
        } else {
            NextCall::Unknown
        }
    }

    // Whether it is a zombie whose parent has the slot of this number.
    pub fn is_zombie_of(&self, parent: usize) -> bool
        ensures { result ≡ true → is_zombie_child_of parent (Some self.now) ≡ true }
    {
        match self.parent {
            Some(number) => self.status == Status::Zombie && usize::from(number) == parent,
            None => false,
        }
    }

    // Whether it has a descriptor of the write end of this pipe.
    pub fn writes_to(&self, entries: &Entries, pipe: u64) -> bool
        ensures { result ≡ false → HasNoWriteEnd entries.now pipe self.now.fds }
    {
        for fd in 0..self.places.len() {
            if let Some(number) = self.places[fd] {
                if entries.is_write_end(number, pipe) {
                    return true;
                }
            }
        }
        false
    }

    // What the digest is to be: it is the same for two that are equal but for who sleeps and for numbers of entries.
    pub fn digest_of(&self) -> u64 {
        let mut digest = Digest::new();
        digest.add(status_number(self.status));
        digest.add(u64::from(self.parent.unwrap_or(64)));
        digest.add(self.put as u64);
        for place in &self.places {
            digest.add(u64::from(place.is_some()));
        }
        add_reply(&self.reply, &mut digest);
        digest.so_far
    }
}

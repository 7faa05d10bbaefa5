//! The calls of programs, with borrowed bytes.

ghost use Rattle.std.specs.Prelude.{◌≡◌, ◌++◌, ◌∷◌, [], codes};
ghost use Rattle.std.specs.Fmt.{decimal};
ghost use Rattle.user_calls.specs.declared.calls.Call.TheVariants.{Write};
ghost use Rattle.user_calls.specs.Slots.{call_longer};
ghost use Rattle.user_progs.specs.Turn.{block, counts_line};
ghost use Rattle.user_progs.specs.View.{says_of};

use crate::state::Counts;
use itoa::Buffer;
use user_calls::{CallSlot, Mode};

// A call of a program.
#[derive(Drop)]
pub enum Says<'a> {
    Exit,
    Read(usize, usize),
    Write(usize, &'a [u8]),
    OpenFile(&'a [u8], Mode),
    Close(usize),
    // The message of this program that the file of this name can't be opened.
    CannotOpen(&'static [u8], &'a [u8]),
    // The write of this line, with LF.
    Line(&'a [u8]),
    // The write of the counts of the input of this name.
    Counts(Counts, &'a [u8]),
}

impl<'a> Says<'a> {
    // Makes the call.
    pub fn put(&self, call: &mut CallSlot)
        ensures { call.new ≡ says_of self.now }
    {
        match self {
            Says::Exit => call.exit(),
            Says::Read(fd, most) => call.read(*fd, *most),
            Says::Write(fd, bytes) => call.write(*fd, bytes),
            Says::OpenFile(name, mode) => call.open_file(name, *mode),
            Says::Close(fd) => call.close(*fd),
            Says::CannotOpen(program, name) => put_cannot_open(program, name, call),
            Says::Line(line) => put_line(line, call),
            Says::Counts(counts, name) => put_counts(counts, name, call),
        }
    }
}

// The message that a file can't be opened.
fn put_cannot_open(program: &[u8], name: &[u8], call: &mut CallSlot)
    ensures { call.new ≡ Write 2 (block (program.now ++ (codes ": cannot open " ++ (name.now ++ 10 ∷ [])))) }
{
    call.write(2, program);
    call.append(b": cannot open ");
    call.append(name);
    call.append(b"\n");
}

fn put_line(line: &[u8], call: &mut CallSlot)
    ensures { call.new ≡ Write 1 (block (line.now ++ 10 ∷ [])) }
{
    call.write(1, line);
    call.append(b"\n");
}

// A count and a space are put behind what is written.
fn put_count(count: u128, call: &mut CallSlot)
    ensures { call.new ≡ call_longer call.old (decimal count ++ 32 ∷ []) }
{
    let mut digits = Buffer::new();
    call.append(digits.format(count).as_bytes());
    call.append(b" ");
}

// The counts of an input.
fn put_counts(counts: &Counts, name: &[u8], call: &mut CallSlot)
    ensures { call.new ≡ Write 1 (block (counts_line counts.now.lines counts.now.words counts.now.bytes name.now)) }
{
    call.write(1, b"");
    put_count(counts.lines, call);
    put_count(counts.words, call);
    put_count(counts.bytes, call);
    call.append(name);
    call.append(b"\n");
}

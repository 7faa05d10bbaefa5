//! The calls of a shell, with borrowed bytes.

ghost use Rattle.std.specs.Prelude.{◌≡◌, ◌++◌};
ghost use Rattle.user_calls.specs.declared.calls.Call.TheVariants.{Write};
ghost use Rattle.user_progs.specs.Turn.{block};
ghost use Rattle.sh_machine.specs.View.{says_of};

use user_calls::{CallSlot, Mode};

// A call of a shell.
#[derive(Drop)]
pub enum Says<'t> {
    Fork,
    // Of a program, with whether it was found.
    Exec(bool),
    Exit,
    Wait,
    MakePipe,
    // The write of this message to descriptor 2.
    Write(&'t [u8]),
    // And of the second of these, with the others before and after it.
    Within(&'static [u8], &'t [u8], &'static [u8]),
    OpenFile(&'t [u8], Mode),
    Close(usize),
    Dup(usize),
}

impl<'t> Says<'t> {
    // Makes the call.
    pub fn put(&self, call: &mut CallSlot)
        ensures { call.new ≡ says_of self.now }
    {
        match self {
            Says::Fork => call.fork(),
            Says::Exec(found) => call.exec(*found),
            Says::Exit => call.exit(),
            Says::Wait => call.wait(),
            Says::MakePipe => call.make_pipe(),
            Says::Write(message) => call.write(2, message),
            Says::Within(before, text, after) => put_within(before, text, after, call),
            Says::OpenFile(name, mode) => call.open_file(name, *mode),
            Says::Close(fd) => call.close(*fd),
            Says::Dup(fd) => call.dup(*fd),
        }
    }
}

// The write of a text with something before it and something after it.
fn put_within(before: &[u8], text: &[u8], after: &[u8], call: &mut CallSlot)
    ensures { call.new ≡ Write 2 (block (before.now ++ (text.now ++ after.now))) }
{
    call.write(2, before);
    call.append(text);
    call.append(after);
}

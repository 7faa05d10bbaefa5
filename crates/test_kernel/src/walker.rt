//! The machine that the tests drive: it walks along a script.

ghost use Rattle.std.specs.Prelude.{◌≡◌};
ghost use Rattle.test_kernel.specs.Walker.{letter_call};

use user_calls::{Block, Call, CallSlot, Machine, Mode, Reply, ReplySlot};

/// It makes the calls of its script one after the other, whatever it is answered (`specs/Walker.antt`).
#[derive(Drop)]
pub struct Walker {
    pub left: &'static [u8],
}

impl Machine for Walker {
    ghost use Rattle.std.specs.Coded.{coded_list, coded_ℕ};
    ghost use Rattle.test_kernel.specs.Walker.{walker_call, walker_next};

    type State = Block;

    ghost view = { λ w. w.left.now };

    ghost code = { coded_list coded_ℕ };

    ghost call_of = { λ left reply. walker_call left };

    ghost next_of = { λ left reply. walker_next left };

    fn run(&mut self, _reply: &Reply) -> Call {
        match self.left {
            [b'Z', _, ..] => Call::Wait,
            [letter, fd, rest @ ..] => {
                self.left = rest;
                call_of(*letter, (*fd % 16) as usize)
            }
            _ => {
                self.left = &[];
                Call::Exit
            }
        }
    }

    fn ask(&self, reply: &ReplySlot, call: &mut CallSlot) {
        let mut twin = self.twin();
        let made = twin.run(&reply.to_reply());
        call.set(&made);
    }

    fn advance(&mut self, reply: &ReplySlot) {
        let _ = self.run(&reply.to_reply());
    }

    fn twin(&self) -> Self {
        Walker { left: self.left }
    }

    fn same(&self, other: &Self) -> bool {
        self.left == other.left
    }
}

// The call of a letter on this descriptor.
fn call_of(letter: u8, fd: usize) -> Call
    ensures { result ≡ letter_call letter fd }
{
    match letter {
        b'Z' => Call::Wait,
        b'p' => Call::MakePipe,
        b'r' => Call::Read(fd, 512),
        b'w' => Call::Write(fd, Block::from_slice(b"x")),
        b'W' => Call::Write(fd, Block::from_slice(&[b'y'; 700])),
        b'o' => Call::OpenFile(Block::from_slice(b"p"), Mode::Input),
        _ => Call::Exit,
    }
}

//! The sentences of notes.
ghost use Rattle.std.specs.Prelude.{◌≡◌};
ghost use Rattle.note_texts.specs.Sentences.{sentence};

use script_notes::NoteKind;

/// The sentence of a note of this kind, without the line number (own).
pub fn sentence(kind: NoteKind) -> &'static [u8]
    ensures { result.now ≡ sentence kind }
{
    match kind {
        NoteKind::ByteOrderMark =>
            b"the file begins with a byte order mark, which the shell takes for a part of the first word".as_slice(),
        NoteKind::CarriageReturn =>
            b"the line ends in a carriage return, as in files from Windows: to a command it is white space".as_slice(),
        NoteKind::NoComment =>
            b"there are no comments here: this and what follows is read like the rest of the line".as_slice(),
        NoteKind::NoQuote =>
            b"quotes and backslashes mean nothing here: they are a part of the word, and white space or a sign ends it".as_slice(),
        NoteKind::NoBackQuote =>
            b"back quotes run no command here: they are a part of the word; a pipe, or a file, brings what one command writes to another".as_slice(),
        NoteKind::NoOr =>
            b"|| is no 'or' here but two pipes with an empty command between them: what the left side writes is lost".as_slice(),
        NoteKind::NoAnd =>
            b"&& is no 'and' here: each & lets the command before it run in the background, so put what comes next on a line of its own".as_slice(),
        NoteKind::NoMessagePipe =>
            b"|& is no pipe for messages here: no command stands between the pipe and the &, and messages go through no pipe".as_slice(),
        NoteKind::NoCommand => b"no command stands between this ; and the one before it".as_slice(),
        NoteKind::LastBar =>
            b"no command stands behind the last |, so what its left side writes is lost".as_slice(),
        NoteKind::NoHereText =>
            b"<< brings no lines of the script to a command here: behind each < stands a file's name, so write the lines into a file by echo and >".as_slice(),
        NoteKind::NoHereWord =>
            b"<<< brings no word to a command here: behind each < stands a file's name; echo WORD | COMMAND does it".as_slice(),
        NoteKind::NoNumber =>
            b"the number before this sign is a word of the command: its output goes to the file, and its messages don't, for there is no 2> and no 2>&1".as_slice(),
        NoteKind::NoVariable =>
            b"there are no variables here: $ is a letter like others".as_slice(),
        NoteKind::NoSubstitution =>
            b"$( runs no command here whose output stands in its place: $ is a letter, and ( begins a group; a pipe, or a file, brings what one command writes to another".as_slice(),
        NoteKind::NoPattern =>
            b"names of files have no patterns here: * and [ are letters like others".as_slice(),
        NoteKind::NoHome =>
            b"there is no home directory here: ~ is a letter like others".as_slice(),
        NoteKind::NoBraces =>
            b"braces make no words here: { , and } are letters like others, so write each word out".as_slice(),
        NoteKind::NoOption =>
            b"there is no such option here: the word is taken for a file's name".as_slice(),
        NoteKind::HeadOption =>
            b"head has the option -N, for N lines, and no other: it tells how it is used, and reads nothing".as_slice(),
        NoteKind::TeeOption => b"tee has no options: it makes a file of this name".as_slice(),
        NoteKind::GrepOption =>
            b"grep has no options: it takes this word for the pattern, and the next for a file's name".as_slice(),
        NoteKind::EchoOption => b"echo has no options: it writes this word as it is".as_slice(),
        NoteKind::NoProgram =>
            b"no program has this name: there are cat, echo, grep, head, tee and wc".as_slice(),
        NoteKind::NoFileName =>
            b"no file can have this name, so it can't be opened: a name has 1 to 14 bytes, and no slash".as_slice(),
        NoteKind::Background =>
            b"the shell doesn't wait for the command before this sign, so what comes next may run at the same time".as_slice(),
        NoteKind::WritesOver =>
            b"this sign appends only with --append: without it the output is written over the file from its beginning".as_slice(),
        NoteKind::InputUnread =>
            b"a command reads the file behind its first <: the file behind this sign is opened, and not read".as_slice(),
        NoteKind::OutputEmptied =>
            b"a command's output goes to the file behind its first > or >>: the file behind this sign is made or emptied, and not written".as_slice(),
        NoteKind::OutputUnwritten =>
            b"a command's output goes to the file behind its first > or >>: the file behind this sign is made if it is missing, and not written".as_slice(),
        NoteKind::NoDirectories =>
            b"there are no directories here: cd does nothing but tell that it can't".as_slice(),
        NoteKind::MissingName =>
            b"a file's name has to stand here: the line is no command, and nothing of it runs".as_slice(),
        NoteKind::OpenParen =>
            b"a ( is still open here, and the line can't go on or end like this: it is no command, and nothing of it runs".as_slice(),
        NoteKind::TenthWord =>
            b"this is the tenth word of a command, and a command has nine at most: the line is no command, and nothing of it runs".as_slice(),
        NoteKind::LateParen =>
            b"a ( can't stand behind a word or a file's name: the line is no command, and nothing of it runs".as_slice(),
        NoteKind::StrayParen =>
            b"this ) closes nothing: the line is no command, and nothing of it runs".as_slice(),
        NoteKind::LeftOver =>
            b"the line can't go on like this: it is no command, and nothing of it runs".as_slice(),
        NoteKind::PipeClash =>
            b"both sides of a pipe use this file and one of them writes it: what comes out may depend on which is faster".as_slice(),
        NoteKind::RedirectionClash =>
            b"a redirection opens this file and the command uses it too, so it may be emptied or changed before it is read".as_slice(),
        NoteKind::NoListing =>
            b"there is no program here that lists files: the command does nothing but tell that it can't run, and cat or wc with a file's name shows whether it is there".as_slice(),
        NoteKind::NoCopy =>
            b"there is no such program here, and no name of a file can be changed: the command does nothing but tell that it can't run, and cat FILE > COPY makes a copy".as_slice(),
        NoteKind::NoRemoval =>
            b"there is no such program here, and no file can be removed: the command does nothing but tell that it can't run, and > FILE makes a file or empties it".as_slice(),
        NoteKind::NoFolder =>
            b"there are no directories here: the command does nothing but tell that it can't run".as_slice(),
        NoteKind::NoFilter =>
            b"there is no such filter here: the command does nothing but tell that it can't run, and it reads nothing; there are cat, grep, head, tee and wc".as_slice(),
        NoteKind::NoProcess =>
            b"there is no program here for processes or time: the command does nothing but tell that it can't run, and the shell waits for each command without & by itself".as_slice(),
        NoteKind::NoPrinter =>
            b"there is no such program here: the command does nothing but tell that it can't run, and echo writes words".as_slice(),
        NoteKind::NoShellWord =>
            b"this is no word of the shell here, which has no conditions, loops or settings: it is taken for a command's name, and no program has it".as_slice(),
        NoteKind::NoFunction =>
            b"there are no functions here: the word is taken for a command's name, and no program has it".as_slice(),
        NoteKind::NoCase =>
            b"there is no choice between cases here: the word is taken for a command's name, and no program has it".as_slice(),
        NoteKind::NoExport =>
            b"there are no variables here, so none is exported: the word is taken for a command's name, and no program has it".as_slice(),
        NoteKind::NoAlias =>
            b"a command can't get another name here: the word is taken for a command's name, and no program has it".as_slice(),
    }
}

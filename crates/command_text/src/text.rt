//! Commands as text.

use sh_tree::{Cmd, Mode, Words};
use std::alloc::{AllocError, Global};

/// Adds the words, with a space between two.
pub fn append_words(words: &Words<Global>, text: &mut Vec<u8>) -> Result<(), AllocError> {
    let mut is_first = true;
    for word in words.as_slice() {
        if !is_first {
            text.push(b' ')?;
        }
        is_first = false;
        text.extend_from_slice(word.as_slice())?;
    }
    Ok(())
}

/// Adds the command as text that parses to it again: words and redirections in their order, `|`, `;` and `&`, and
/// parentheses where they are needed.
///
/// It recurses as deep as the tree is high.
pub fn append_command(tree: &Cmd<Global>, text: &mut Vec<u8>) -> Result<(), AllocError> {
    match tree {
        Cmd::Exec(words) => append_words(words, text),
        Cmd::Redir { mode, name, body } => {
            let stands = is_simple(body);
            open(stands, text)?;
            append_command(body, text)?;
            close(stands, text)?;
            text.extend_from_slice(sign(*mode))?;
            text.extend_from_slice(name.as_slice())?;
            Ok(())
        }
        Cmd::Pipe(left, right) => {
            let stands = is_simple(left);
            open(stands, text)?;
            append_command(left, text)?;
            close(stands, text)?;
            text.extend_from_slice(b" | ".as_slice())?;
            let stands = is_pipeline(right);
            open(stands, text)?;
            append_command(right, text)?;
            close(stands, text)
        }
        Cmd::List(left, right) => {
            let stands = is_pipeline(left);
            open(stands, text)?;
            append_command(left, text)?;
            close(stands, text)?;
            text.extend_from_slice(b" ; ".as_slice())?;
            append_command(right, text)
        }
        Cmd::Back(body) => {
            let stands = is_in_back(body);
            open(stands, text)?;
            append_command(body, text)?;
            close(stands, text)?;
            text.extend_from_slice(b" &".as_slice())?;
            Ok(())
        }
    }
}

// Opens a parenthesis before a part of a command, unless it stands there alone.
fn open(stands: bool, text: &mut Vec<u8>) -> Result<(), AllocError> {
    if !stands {
        text.push(b'(')?;
    }
    Ok(())
}

fn close(stands: bool, text: &mut Vec<u8>) -> Result<(), AllocError> {
    if !stands {
        text.push(b')')?;
    }
    Ok(())
}

fn sign(mode: Mode) -> &'static [u8] {
    match mode {
        Mode::Input => b" < ".as_slice(),
        Mode::Fresh => b" > ".as_slice(),
        Mode::Over => b" >> ".as_slice(),
    }
}

// Whether the command stands before a redirection, and left of `|`, without parentheses.
fn is_simple(tree: &Cmd<Global>) -> bool {
    match tree {
        Cmd::Exec(_) | Cmd::Redir { .. } => true,
        Cmd::Pipe(_, _) | Cmd::List(_, _) | Cmd::Back(_) => false,
    }
}

// Whether it stands right of `|`, and left of `;`, without parentheses.
fn is_pipeline(tree: &Cmd<Global>) -> bool {
    match tree {
        Cmd::Exec(_) | Cmd::Redir { .. } | Cmd::Pipe(_, _) => true,
        Cmd::List(_, _) | Cmd::Back(_) => false,
    }
}

// Whether it stands before `&` without parentheses.
fn is_in_back(tree: &Cmd<Global>) -> bool {
    match tree {
        Cmd::Exec(_) | Cmd::Redir { .. } | Cmd::Pipe(_, _) | Cmd::Back(_) => true,
        Cmd::List(_, _) => false,
    }
}

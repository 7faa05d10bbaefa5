//! How a schedule is replayed, and a script stepped through.

use script_load::Profile;
use std::alloc::{AllocError, Global};
use xvsh_explores::ExploreRequest;
use xvsh_read::STDIN;

// Whether a byte of a word stands for itself in a shell.
fn is_plain(byte: u8) -> bool {
    byte.is_ascii_alphanumeric() || b"_-./,:+@%=".contains(&byte)
}

// Adds a space and a word, between quotes where a shell would else read it otherwise.
fn add_word(text: &mut Vec<u8>, word: &str) -> Result<(), AllocError> {
    text.push(b' ')?;
    let bytes = word.as_bytes();
    if !bytes.is_empty() && bytes.iter().all(|byte| is_plain(*byte)) {
        return text.extend_from_slice(bytes);
    }
    text.push(b'\'')?;
    for byte in bytes {
        if *byte == b'\'' {
            text.extend_from_slice(b"'\\''".as_slice())?;
        } else {
            text.push(*byte)?;
        }
    }
    text.push(b'\'')?;
    Ok(())
}

// Adds the words of the standard input, if there are any.
fn add_input(text: &mut Vec<u8>, input: Option<&str>) -> Result<(), AllocError> {
    if let Some(word) = input {
        add_word(text, "--input")?;
        add_word(text, word)?;
    }
    Ok(())
}

// Adds a space and the path of the first schedule in the folder.
fn add_schedule(text: &mut Vec<u8>, folder: &str) -> Result<(), AllocError> {
    add_word(text, folder)?;
    text.extend_from_slice(b"/1.schedule".as_slice())
}

// Adds the words that stand before a script's own: what `>>` means, the standard input, and that the script is among the words.
fn add_flags(text: &mut Vec<u8>, request: &ExploreRequest<'_>) -> Result<(), AllocError> {
    if request.source.profile == Profile::Append {
        add_word(text, "--append")?;
    }
    add_input(text, request.input)?;
    if request.text.is_some() {
        add_word(text, "-c")?;
    }
    Ok(())
}

// Adds the words of the script and its files.
fn add_script(text: &mut Vec<u8>, request: &ExploreRequest<'_>) -> Result<(), AllocError> {
    add_word(text, request.text.unwrap_or(request.source.script))?;
    for path in request.source.files {
        add_word(text, path)?;
    }
    Ok(())
}

/// Adds a line with the command that replays the first schedule, where schedules are written.
pub fn add_replay(text: &mut Vec<u8>, request: &ExploreRequest<'_>) -> Result<(), AllocError> {
    let Some(folder) = request.witness else {
        return Ok(());
    };
    text.extend_from_slice(b"replay 1 by: xvsh replay".as_slice())?;
    add_flags(text, request)?;
    add_schedule(text, folder)?;
    add_script(text, request)?;
    text.push(b'\n')?;
    Ok(())
}

/// The words of `xvsh step` behind its schedule, by which the script is stepped through; nothing where the script came by standard input,
/// which can't be read again.
pub fn stepped(alloc: Global, request: &ExploreRequest<'_>) -> Result<Vec<u8>, AllocError> {
    let mut text = Vec::new(alloc);
    if request.text.is_none() && request.source.script == STDIN {
        return Ok(text);
    }
    add_flags(&mut text, request)?;
    add_script(&mut text, request)?;
    // without the space before its first word
    if !text.is_empty() {
        text.remove(0);
    }
    Ok(text)
}

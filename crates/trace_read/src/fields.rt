//! Fields of an object.

use crate::fault::Wrong;
use json::Value;
use std::alloc::Allocator;

// The slots of processes are 0 to 63.
const LAST_PID: usize = 63;

// The field of this name.
pub(crate) fn field<'v, 'a, A: Allocator>(
    value: &'v Value<'a, A>,
    name: &'static str,
) -> Result<&'v Value<'a, A>, Wrong> {
    match value.get(name) {
        Some(value) => Ok(value),
        None => Err(Wrong::Field(name)),
    }
}

// A number of at most so much.
pub(crate) fn within<A: Allocator>(
    value: &Value<'_, A>,
    name: &'static str,
    most: usize,
) -> Result<usize, Wrong> {
    match field(value, name)?.as_u64() {
        Some(number) if number <= most as u64 => Ok(number as usize),
        _ => Err(Wrong::Field(name)),
    }
}

// A number.
pub(crate) fn count<A: Allocator>(
    value: &Value<'_, A>,
    name: &'static str,
) -> Result<usize, Wrong> {
    within(value, name, usize::MAX)
}

// A number of at most so much, in a byte.
pub(crate) fn small<A: Allocator>(
    value: &Value<'_, A>,
    name: &'static str,
    most: u8,
) -> Result<u8, Wrong> {
    let number = within(value, name, most as usize)?;
    match u8::try_from(number) {
        Ok(number) => Ok(number),
        Err(_) => Err(Wrong::Field(name)),
    }
}

// The slot of a process.
pub(crate) fn pid<A: Allocator>(value: &Value<'_, A>, name: &'static str) -> Result<u8, Wrong> {
    small(value, name, LAST_PID as u8)
}

// A word.
pub(crate) fn word<'a, A: Allocator>(
    value: &Value<'a, A>,
    name: &'static str,
) -> Result<&'a str, Wrong> {
    match field(value, name)?.as_str() {
        Some(word) => Ok(word),
        None => Err(Wrong::Field(name)),
    }
}

// `true` or `false`.
pub(crate) fn truth<A: Allocator>(value: &Value<'_, A>, name: &'static str) -> Result<bool, Wrong> {
    match field(value, name)?.as_bool() {
        Some(truth) => Ok(truth),
        None => Err(Wrong::Field(name)),
    }
}

// Whether the field is there, which is `true` then.
pub(crate) fn is_said<A: Allocator>(
    value: &Value<'_, A>,
    name: &'static str,
) -> Result<bool, Wrong> {
    if value.get(name).is_none() {
        return Ok(false);
    }
    truth(value, name)
}

// A list; nothing where the field isn't there.
pub(crate) fn list<'v, 'a, A: Allocator>(
    value: &'v Value<'a, A>,
    name: &'static str,
) -> Result<Option<&'v Vec<Value<'a, A>, A>>, Wrong> {
    match value.get(name) {
        None => Ok(None),
        Some(Value::Array(items)) => Ok(Some(items)),
        Some(_) => Err(Wrong::Field(name)),
    }
}

// A list of processes by their slots, a bit each.
pub(crate) fn pids<A: Allocator>(value: &Value<'_, A>, name: &'static str) -> Result<u64, Wrong> {
    let Some(items) = list(value, name)? else {
        return Ok(0);
    };
    let mut bits: u64 = 0;
    for item in items.as_slice() {
        match item.as_u64() {
            Some(pid) if pid <= LAST_PID as u64 => bits |= 1u64 << pid,
            _ => return Err(Wrong::Field(name)),
        }
    }
    Ok(bits)
}

// Whether a list has this word; there is no other word in it than these two.
pub(crate) fn has_word<A: Allocator>(
    value: &Value<'_, A>,
    name: &'static str,
    wanted: &str,
    other: &str,
) -> Result<bool, Wrong> {
    let Some(items) = list(value, name)? else {
        return Ok(false);
    };
    let mut is_there = false;
    for item in items.as_slice() {
        match item.as_str() {
            Some(word) if word == wanted => is_there = true,
            Some(word) if word == other => {}
            _ => return Err(Wrong::Field(name)),
        }
    }
    Ok(is_there)
}

//! The names and the texts of faults.

// The name of a fault by its number, and its text; nothing where it is none.
fn words_of(number: u32) -> (&'static str, &'static str) {
    match number {
        2 => ("TooLong", "a file has more than 274,432 bytes"),
        3 => ("LineTooLong", "a line has more than 511 bytes"),
        4 => ("ByteZero", "a line holds a zero byte"),
        5 => ("BadName", "no file can have that name"),
        6 => ("TooManyFiles", "there are more than 200 files"),
        7 => (
            "TooLarge",
            "the script makes a file too large, or one too many",
        ),
        8 => ("Memory", "no memory"),
        9 => ("Spent", "the turns are spent"),
        10 => ("NoEvent", "a line of the schedule is no event"),
        11 => (
            "NotRunnable",
            "an event dispatches what can't be dispatched",
        ),
        12 => (
            "NotRunning",
            "an event is a call of a process that isn't running there",
        ),
        13 => ("Unfinished", "the run isn't finished"),
        15 => ("TakenName", "a file has the name of one before it"),
        64 => ("ScriptTooLong", "the script has more than 1,048,576 bytes"),
        65 => (
            "InputTooLong",
            "the standard input has more than 1,048,576 bytes",
        ),
        66 => ("BadTurns", "the turns are not 1 to 1,000,000,000"),
        67 => ("BadOrder", "there is no such order"),
        68 => ("BadStates", "the states are not 1 to 10,000,000"),
        69 => ("Null", "a pointer is null, and its length is not 0"),
        70 => ("GivenUp", "the call was given up"),
        71 => ("BadSuite", "the suite is wrong"),
        72 => ("SuiteTooLong", "the suite has more than 1,048,576 bytes"),
        73 => (
            "UnusedScript",
            "each test of the suite has a script of its own",
        ),
        74 => (
            "EveryWay",
            "a test is to run in every way, which takes threads",
        ),
        _ => ("", ""),
    }
}

/// Words of the library, which are its own for ever.
#[repr(C)]
#[derive(Clone, Copy)]
pub struct FaultWords {
    pub name: &'static [u8],
    pub text: &'static [u8],
}

/// `xvsh_fault_call`: the name and the text of the fault of this number; no bytes where there is none.
#[unsafe(no_mangle)]
pub extern "C" fn xvsh_fault_call(number: u32, words: &mut FaultWords) {
    let (name, text) = words_of(number);
    words.name = name.as_bytes();
    words.text = text.as_bytes();
}

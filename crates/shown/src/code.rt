//! What one byte is shown as.
ghost use Rattle.std.specs.Prelude.{◌≡◌, ◌<◌};
ghost use Rattle.shown.specs.Codes.{code_bytes};
ghost use Rattle.shown.specs.Shown.{digit, shown_byte};

/// What a byte is shown as: printable ASCII.
#[derive(Clone, Copy)]
pub enum Code {
    /// The byte itself.
    Plain([u8; 1]),
    /// A backslash and a letter, or another one.
    Letter([u8; 2]),
    /// A backslash, an `x` and two digits to the base 16.
    Digits([u8; 4]),
}

impl Code {
    /// Its bytes.
    pub fn as_slice(&self) -> &[u8]
        ensures { result.now ≡ code_bytes self.now }
    {
        match self {
            Code::Plain(bytes) => bytes.as_slice(),
            Code::Letter(bytes) => bytes.as_slice(),
            Code::Digits(bytes) => bytes.as_slice(),
        }
    }
}

// A digit of a number below 16.
fn digit(number: u8) -> u8
    requires { number < 16 }
    ensures { result ≡ digit number }
{
    b"0123456789abcdef"[usize::from(number)]
}

/// What a byte is shown as (own): itself where it is printable ASCII and no backslash, else `\n`, `\r`, `\t`, `\\` or `\xNN`, in lower
/// case.
pub fn code_of(byte: u8) -> Code
    ensures { code_bytes result ≡ shown_byte byte }
{
    match byte {
        b'\n' => Code::Letter([b'\\', b'n']),
        b'\r' => Code::Letter([b'\\', b'r']),
        b'\t' => Code::Letter([b'\\', b't']),
        b'\\' => Code::Letter([b'\\', b'\\']),
        b' '..=b'~' => Code::Plain([byte]),
        _ => Code::Digits([b'\\', b'x', digit(byte / 16), digit(byte % 16)]),
    }
}

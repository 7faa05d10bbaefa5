//! The words of a line.

ghost use Rattle.std.specs.Prelude.{◌≡◌, ◌≤◌, All, drop, false, length, take, true};
ghost use Rattle.step_commands.specs.Lines.{BeginsBlank, BeginsSolid, IsCut, is_blank};

// Whether a byte stands between words: a space, a tab, or a CR.
fn is_blank(byte: u8) -> bool
    ensures { result ≡ is_blank byte }
{
    byte == b' ' || byte == b'\t' || byte == b'\r'
}

// How many bytes there are before the first that is no blank.
fn blanks(line: &[u8]) -> usize
    ensures within { result ≤ length line.now }
    ensures blank { All (λ byte. is_blank byte ≡ true) (take result line.now) }
    ensures ends { BeginsSolid (drop result line.now) }
{
    let mut count = 0;
    while count < line.len() {
        if !is_blank(line[count]) {
            return count;
        }
        count += 1;
    }
    count
}

// How many bytes there are before the first blank.
fn solids(line: &[u8]) -> usize
    ensures within { result ≤ length line.now }
    ensures solid { All (λ byte. is_blank byte ≡ false) (take result line.now) }
    ensures ends { BeginsBlank (drop result line.now) }
{
    let mut count = 0;
    while count < line.len() {
        if is_blank(line[count]) {
            return count;
        }
        count += 1;
    }
    count
}

// The first word of a line, which is empty where there is none, and what stands behind it.
pub(crate) fn cut(line: &[u8]) -> (&[u8], &[u8])
    ensures { IsCut line.now result.0.now result.1.now }
{
    let (_, rest) = line.split_at(blanks(line));
    rest.split_at(solids(rest))
}

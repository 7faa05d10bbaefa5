//! The text of a page, as it is written.

ghost use Rattle.std.specs.Prelude.{◌≡◌, true, false, IfOk, IfErr};

use bstr::decode_utf8;
use itoa::Buffer;
use shown::code_of;
use std::alloc::{AllocError, Allocator};
use std::marker::Model;
use unicode::properties::GeneralCategory;
use unicode_width::UnicodeWidthChar;

/// What is written. Bytes come out as text: printable ASCII and characters in UTF-8 as they are, but what HTML gives a meaning as
/// its entity, a backslash as two, LF, CR and tab as `\n`, `\r` and `\t`, and each other byte as `\xNN`: bytes that aren't UTF-8,
/// and characters that control, format (among them those that change the direction of text) or separate lines, are private or
/// unassigned. Own.
#[derive(Clone, Copy)]
pub enum Piece<'a> {
    /// HTML of the page's own.
    Mark(&'static str),
    /// A number in decimal.
    Num(usize),
    /// How many bytes there are.
    Count(usize),
    /// Bytes on one line.
    Text(&'a [u8]),
    /// Bytes, with a new line at each LF.
    Lines(&'a [u8]),
    /// Bytes on one line, cut where they take more than so many columns, or more than `COLUMN_BYTES` bytes a column.
    Short(&'a [u8], usize),
    /// The name of the pipe with this place among the pipes.
    Pipe(usize),
    /// The numbers of the bits that are set, with a space between.
    Bits(u64),
}

// How many bytes are shown a column at most: of a letter with many marks, which have no width of their own, not all.
const COLUMN_BYTES: usize = 16;

/// A page that is being written. That memory was refused to a piece is kept, and reported at the end: so no piece needs a look at how the
/// one before it went. In a clause it stands for whether memory was refused.
#[derive(Drop)]
pub struct Page<A: Allocator> {
    text: Vec<u8, A>,
    is_refused: bool,
}

impl<A: Allocator> Model for Page<A> {
    ghost use Rattle.std.specs.Prelude.{Bool};

    ghost Value = { Bool };

    ghost view = { λ page. page.is_refused };
}

// Whether a character is shown as it is: it isn't one that controls, formats, separates lines, or has no meaning of its own.
fn is_shown(letter: char) -> bool {
    !matches!(
        GeneralCategory::for_char(letter),
        GeneralCategory::Control
            | GeneralCategory::Format
            | GeneralCategory::Surrogate
            | GeneralCategory::PrivateUse
            | GeneralCategory::Unassigned
            | GeneralCategory::LineSeparator
            | GeneralCategory::ParagraphSeparator
    )
}

// What bytes begin with: whether that is shown as it is, how many bytes it takes, and how many columns.
#[derive(Clone, Copy)]
struct Glyph {
    is_shown: bool,
    bytes: usize,
    columns: usize,
}

// What a byte of ASCII is shown as.
fn ascii_glyph(byte: u8) -> Glyph {
    Glyph {
        is_shown: false,
        bytes: 1,
        columns: code_of(byte).as_slice().len(),
    }
}

// What bytes begin with; bytes that aren't UTF-8, and characters that aren't shown, take four columns a byte.
fn glyph_of(bytes: &[u8]) -> Glyph {
    match bytes.first() {
        Some(byte) if *byte < 128 => ascii_glyph(*byte),
        _ => {
            let (letter, size) = decode_utf8(bytes);
            match letter {
                Some(letter) if is_shown(letter) => Glyph {
                    is_shown: true,
                    bytes: size.max(1),
                    columns: letter.width().unwrap_or(1),
                },
                _ => Glyph {
                    is_shown: false,
                    bytes: size.max(1),
                    columns: size.max(1).saturating_mul(4),
                },
            }
        }
    }
}

/// How many columns bytes take on one line.
pub fn shown_width(bytes: &[u8]) -> usize {
    let mut total: usize = 0;
    let mut rest = bytes;
    for _glyph in 0..bytes.len() {
        if rest.is_empty() {
            break;
        }
        let glyph = glyph_of(rest);
        total = total.saturating_add(glyph.columns);
        rest = rest.get(glyph.bytes..).unwrap_or(&[]);
    }
    total
}

/// How many columns the numbers of the bits that are set take.
pub fn bits_width(bits: u64) -> usize {
    let mut total: usize = 0;
    for number in 0..64u32 {
        if (bits >> number) % 2 == 1 {
            total = total.saturating_add(if number < 10 { 2 } else { 3 });
        }
    }
    total.saturating_sub(1)
}

impl<A: Allocator> Page<A> {
    /// An empty page.
    pub fn new(alloc: A) -> Self
        ensures { result ≡ false }
    {
        Page {
            text: Vec::new(alloc),
            is_refused: false,
        }
    }

    /// The text.
    ///
    /// `AllocError` where memory was refused to one of the pieces.
    pub fn end(self) -> Result<Vec<u8, A>, AllocError>
        ensures whole { IfOk result (λ _. self ≡ false) }
        ensures refused { IfErr result (λ _. self ≡ true) }
    {
        if self.is_refused {
            return Err(AllocError);
        }
        Ok(self.text)
    }

    /// How many bytes it has so far.
    pub fn size(&self) -> usize {
        self.text.len()
    }

    fn put(&mut self, bytes: &[u8])
        ensures kept { self.old ≡ true → self.new ≡ true }
    {
        if self.text.extend_from_slice(bytes).is_err() {
            self.is_refused = true;
        }
    }

    /// Writes all pieces, in order.
    pub fn add(&mut self, pieces: &[Piece<'_>])
        ensures kept { self.old ≡ true → self.new ≡ true }
    {
        for piece in pieces {
            self.add_one(*piece);
        }
    }

    /// Writes HTML of the page's own, with the pieces, in order, in place of each `%`.
    pub fn fill(&mut self, form: &'static str, pieces: &[Piece<'_>])
        ensures kept { self.old ≡ true → self.new ≡ true }
    {
        let mut rest = pieces;
        for part in form.split('%') {
            self.mark(part);
            if let [piece, behind @ ..] = rest {
                self.add_one(*piece);
                rest = behind;
            }
        }
    }

    /// Writes HTML of the page's own.
    pub fn mark(&mut self, mark: &'static str)
        ensures kept { self.old ≡ true → self.new ≡ true }
    {
        self.put(mark.as_bytes());
    }

    /// Writes what another page has, behind what there is.
    pub fn append(&mut self, other: Self)
        ensures kept { self.old ≡ true → self.new ≡ true }
        ensures passed_on { other ≡ true → self.new ≡ true }
    {
        let Page { text, is_refused } = other;
        if is_refused {
            self.is_refused = true;
        }
        self.put(text.as_slice());
    }

    fn add_one(&mut self, piece: Piece<'_>)
        ensures kept { self.old ≡ true → self.new ≡ true }
    {
        match piece {
            Piece::Mark(mark) => self.mark(mark),
            Piece::Num(number) => self.add_number(number),
            Piece::Count(number) => self.add_count(number),
            Piece::Text(bytes) => self.add_text(bytes),
            Piece::Lines(bytes) => self.add_lines(bytes),
            Piece::Short(bytes, room) => self.add_short(bytes, room),
            Piece::Pipe(place) => self.add_pipe(place),
            Piece::Bits(bits) => self.add_bits(bits),
        }
    }

    fn add_number(&mut self, number: usize)
        ensures kept { self.old ≡ true → self.new ≡ true }
    {
        let mut buffer = Buffer::new();
        let digits = buffer.format(number);
        self.put(digits.as_bytes());
    }

    fn add_count(&mut self, number: usize)
        ensures kept { self.old ≡ true → self.new ≡ true }
    {
        self.add_number(number);
        self.mark(if number == 1 { " byte" } else { " bytes" });
    }

    // A byte as text: what HTML gives a meaning is its entity, and any other byte what it is shown as.
    fn add_byte(&mut self, byte: u8)
        ensures kept { self.old ≡ true → self.new ≡ true }
    {
        match byte {
            b'&' => self.mark("&amp;"),
            b'<' => self.mark("&lt;"),
            b'>' => self.mark("&gt;"),
            b'"' => self.mark("&quot;"),
            b'\'' => self.mark("&#39;"),
            _ => self.put(code_of(byte).as_slice()),
        }
    }

    // What bytes begin with.
    fn add_glyph(&mut self, bytes: &[u8], glyph: Glyph)
        ensures kept { self.old ≡ true → self.new ≡ true }
    {
        let bytes = bytes.get(..glyph.bytes).unwrap_or(bytes);
        if glyph.is_shown {
            self.put(bytes);
            return;
        }
        for byte in bytes {
            self.add_byte(*byte);
        }
    }

    // The beginning of bytes that takes at most so many columns. LF are new lines or escapes.
    fn add_within(&mut self, bytes: &[u8], room: usize, has_lines: bool)
        ensures kept { self.old ≡ true → self.new ≡ true }
    {
        let mut left = room;
        let mut rest = bytes;
        for _glyph in 0..bytes.len() {
            if rest.is_empty() {
                break;
            }
            let glyph = glyph_of(rest);
            if glyph.columns > left {
                break;
            }
            left = left.saturating_sub(glyph.columns);
            if has_lines && rest.first() == Some(&b'\n') {
                self.put(b"\n");
            } else {
                self.add_glyph(rest, glyph);
            }
            rest = rest.get(glyph.bytes..).unwrap_or(&[]);
        }
    }

    fn add_text(&mut self, bytes: &[u8])
        ensures kept { self.old ≡ true → self.new ≡ true }
    {
        self.add_within(bytes, usize::MAX, false);
    }

    fn add_lines(&mut self, bytes: &[u8])
        ensures kept { self.old ≡ true → self.new ≡ true }
    {
        self.add_within(bytes, usize::MAX, true);
    }

    fn add_short(&mut self, bytes: &[u8], room: usize)
        ensures kept { self.old ≡ true → self.new ≡ true }
    {
        let most = room.saturating_mul(COLUMN_BYTES);
        if bytes.len() <= most && shown_width(bytes) <= room {
            self.add_text(bytes);
            return;
        }
        let shown = bytes.get(..most).unwrap_or(bytes);
        self.add_within(shown, room.saturating_sub(1), false);
        self.mark("…");
    }

    // A letter, and behind the first 26 a number too.
    fn add_pipe(&mut self, place: usize)
        ensures kept { self.old ≡ true → self.new ≡ true }
    {
        let letter = match u8::try_from(place % 26) {
            Ok(letter) => letter.saturating_add(b'A'),
            Err(_) => b'?',
        };
        self.put(&[letter]);
        if place < 26 {
            return;
        }
        self.add_number(place / 26);
    }

    fn add_bits(&mut self, bits: u64)
        ensures kept { self.old ≡ true → self.new ≡ true }
    {
        let mut is_first = true;
        for number in 0..64u32 {
            if (bits >> number) % 2 == 1 {
                if !is_first {
                    self.put(b" ");
                }
                self.add_number(number as usize);
                is_first = false;
            }
        }
    }
}

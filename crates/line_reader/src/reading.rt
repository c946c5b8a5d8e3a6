// A reader that holds the bytes of lines that weren't given yet.
ghost use Rattle.std.specs.Prelude.{◌≡◌, ◌≢◌, ℕ, ◌+◌, ◌*◌, ◌≤◌, min, IsTrue, List, [], ◌∷◌, ◌++◌, length, take, drop};
ghost use Rattle.std.specs.Prelude.{MatchOption, OnOk, OnErr, IfOk, vec_len};
ghost use Rattle.event_model.specs.Bytes.{feed};
ghost use Rattle.event_model.specs.Lines.{without_cr};
ghost use Rattle.line_reader.specs.Cutting.{NoFeed, IsLine};
ghost use Rattle.line_reader.specs.Keeping.{most_kept, mark_if, clipped_from, open_from, none_open, marked_length, IsFirstFeed};

use event_model::MOST_LINE_BYTES;
use std::alloc::{AllocError, Global};

// So many bytes are kept of a line that no line feed ended: the longest with its carriage return.
const MOST_KEPT: usize = MOST_LINE_BYTES + 1;

// Stands behind the bytes that are kept of a line that had more.
const PASSED_MARK: u8 = 0;

/// A line without its line feed, or that it has more than `MOST_LINE_BYTES` bytes.
#[derive(Clone, Copy)]
pub enum Line<'a> {
    Bytes(&'a [u8]),
    Long,
}

// The line that no line feed ended: how many bytes are kept of it, and whether it has more.
#[derive(Clone, Copy)]
struct OpenLine {
    kept: usize,
    passed: bool,
}

impl OpenLine {
    fn new() -> OpenLine
        ensures { result ≡ none_open }
    {
        OpenLine {
            kept: 0,
            passed: false,
        }
    }
}

/// The bytes that were fed and not yet given as lines.
#[derive(Drop)]
pub struct LineReader {
    held: Vec<u8>,
    // Bytes before this place were given.
    at: usize,
    last: OpenLine,
    ghost placed: { at ≤ vec_len held },
    ghost counted: { marked_length last ≡ open_from 0 (drop at held.items ++ mark_if last.passed) },
    ghost few: { last.kept ≤ most_kept },
    ghost full: { IsTrue last.passed → last.kept ≡ most_kept },
}

impl LineReader {
    ghost use Rattle.line_reader.specs.Holding.{Holds, MovesOn, bytes_kept, bytes_stored};
    ghost use Rattle.line_reader.specs.contracts.reading.LineReader.{the_row};
    ghost use Rattle.std.specs.Borrow.{sem};
    ghost use Rattle.std.specs.Io.BufRead.{Rests};

    /// A reader that holds nothing.
    pub fn new(alloc: Global) -> LineReader
        ensures { Holds result [] }
    {
        LineReader {
            held: Vec::new(alloc),
            at: 0,
            last: OpenLine::new(),
        }
    }

    /// Adds bytes behind those held. After an error it holds what it held.
    pub fn feed(&mut self, piece: &[u8]) -> Result<(), AllocError>
        ensures ok { (bytes : List ℕ) → Holds self.old bytes → OnOk result (Holds self.new (bytes ++ piece.now)) }
        ensures err { (bytes : List ℕ) → Holds self.old bytes → OnErr result (Holds self.new bytes) }
        ensures room { bytes_stored self.new ≤ 2 * bytes_kept self.old + length piece.now }
    {
        self.drop_given();
        let before = self.held.len();
        match keep_piece(&mut self.held, self.last, piece) {
            Ok(last) => {
                self.last = last;
                Ok(())
            }
            Err(error) => {
                self.held.truncate(before);
                Err(error)
            }
        }
    }

    // Forgets the bytes that were given where they are at least half, so that each byte is moved once on average.
    fn drop_given(&mut self)
        ensures kept { drop self.new.at self.new.held.items ≡ drop self.old.at self.old.held.items }
        ensures last { self.new.last ≡ self.old.last }
        ensures room { bytes_stored self.new + min 1 (bytes_kept self.old) ≤ 2 * bytes_kept self.old }
    {
        if self.held.len() - self.at <= self.at {
            drop_front(&mut self.held, self.at);
            self.at = 0;
        }
    }

    /// How many bytes it keeps of lines that weren't given: of a line that no line feed ended at most `MOST_LINE_BYTES` + 1, the
    /// longest with its carriage return.
    pub fn held_bytes(&self) -> usize
        ensures kept { result ≡ bytes_kept self.now }
        ensures most { (bytes : List ℕ) → Holds self.now bytes → result ≤ length bytes }
        ensures of_line { (bytes : List ℕ) → Holds self.now bytes → NoFeed bytes → result ≡ min (length bytes) most_kept }
    {
        self.held.len() - self.at
    }

    /// The first line held, without its line feed and without one carriage return before it.
    pub fn next_line(&mut self) -> Option<Line<'_>>
        ensures line { (bytes : List ℕ) → Holds self.old bytes → MatchOption result (NoFeed bytes)
            (λ line. (raw : List ℕ) × (more : List ℕ) × (bytes ≡ raw ++ feed ∷ more) × NoFeed raw × IsLine line raw) }
        ensures* after_borrow { sem 𝓛 (Rests the_row self.entry (λ new. MovesOn self.old result new)) }
    {
        let length = self.first_length()?;
        let start = self.at;
        let end = start + length;
        self.at = end + 1;
        Some(told(&self.held[start..end]))
    }

    // How many bytes stand before the first line feed held.
    fn first_length(&self) -> Option<usize>
        ensures { let items = drop self.now.at self.now.held.items in MatchOption result (NoFeed items) (λ n. IsFirstFeed n items) }
    {
        if self.last.kept == self.held.len() - self.at {
            return None;
        }
        line_end(&self.held[self.at..])
    }

    /// The last line, which no line feed ended, where there is any.
    pub fn finish(&mut self) -> Option<Line<'_>>
        requires { (bytes : List ℕ) × Holds self.old bytes × NoFeed bytes }
        ensures line { (bytes : List ℕ) → Holds self.old bytes → NoFeed bytes
            → MatchOption result (bytes ≡ []) (λ line. (bytes ≢ []) × IsLine line bytes) }
        ensures* after_borrow { sem 𝓛 (Rests the_row self.entry (λ new. Holds new [])) }
    {
        let start = self.at;
        let passed = self.last.passed;
        self.at = self.held.len();
        self.last = OpenLine::new();
        let raw = &self.held[start..];
        if passed {
            Some(Line::Long)
        } else if raw.is_empty() {
            None
        } else {
            Some(told(raw))
        }
    }
}

fn drop_front(held: &mut Vec<u8>, count: usize)
    requires { count ≤ vec_len held.old }
    ensures { held.new.items ≡ drop count held.old.items }
{
    let length = held.len();
    held.as_mut_slice().copy_within(count..length, 0);
    held.truncate(length - count);
}

// A line without the one carriage return at its end, or that it is too long.
fn told(raw: &[u8]) -> Line<'_>
    ensures { IsLine result raw.now }
{
    let line = without_cr(raw);
    if line.len() > MOST_LINE_BYTES {
        Line::Long
    } else {
        Line::Bytes(line)
    }
}

fn without_cr(raw: &[u8]) -> &[u8]
    ensures { result.now ≡ without_cr raw.now }
{
    match raw.strip_suffix(b"\r".as_slice()) {
        Some(line) => line,
        None => raw,
    }
}

// The place of the first line feed.
fn line_end(bytes: &[u8]) -> Option<usize>
    ensures { MatchOption result (NoFeed bytes.now) (λ n. IsFirstFeed n bytes.now) }
{
    bytes.iter().position(|byte| *byte == b'\n')
}

// Appends the bytes that are kept of a piece, where this stands before on its first line, and says what is kept of its last line.
fn keep_piece(held: &mut Vec<u8>, mut last: OpenLine, piece: &[u8]) -> Result<OpenLine, AllocError>
    requires few { last.kept ≤ most_kept }
    requires full { IsTrue last.passed → last.kept ≡ most_kept }
    ensures kept { IfOk result (λ line. held.new.items ++ mark_if line.passed
        ≡ (held.old.items ++ mark_if last.passed) ++ clipped_from (marked_length last) piece.now) }
    ensures counted { IfOk result (λ line. marked_length line
        ≡ open_from (marked_length last) (clipped_from (marked_length last) piece.now)) }
    ensures few { IfOk result (λ line. line.kept ≤ most_kept) }
    ensures full { IfOk result (λ line. IsTrue line.passed → line.kept ≡ most_kept) }
    ensures before { take (length held.old.items) held.new.items ≡ held.old.items }
{
    let mut rest = piece;
    while let Some(length) = line_end(rest) {
        let line = keep_part(held, last, &rest[..length])?;
        end_line(held, line.passed)?;
        last = OpenLine::new();
        rest = &rest[length + 1..];
    }
    keep_part(held, last, rest)
}

// Appends a line feed, and before it the mark of a line of which not all is kept.
fn end_line(held: &mut Vec<u8>, passed: bool) -> Result<(), AllocError>
    ensures ok { OnOk result (held.new.items ≡ (held.old.items ++ mark_if passed) ++ feed ∷ []) }
    ensures before { take (length held.old.items) held.new.items ≡ held.old.items }
{
    if passed {
        held.push(PASSED_MARK)?;
    }
    held.push(b'\n')?;
    Ok(())
}

// Appends the bytes that are kept of a part of a line, and says what is kept of the line then.
fn keep_part(held: &mut Vec<u8>, last: OpenLine, part: &[u8]) -> Result<OpenLine, AllocError>
    requires few { last.kept ≤ most_kept }
    requires full { IsTrue last.passed → last.kept ≡ most_kept }
    requires plain { NoFeed part.now }
    ensures kept { IfOk result (λ line. held.new.items ++ mark_if line.passed
        ≡ (held.old.items ++ mark_if last.passed) ++ clipped_from (marked_length last) part.now) }
    ensures counted { IfOk result (λ line. marked_length line
        ≡ open_from (marked_length last) (clipped_from (marked_length last) part.now)) }
    ensures few { IfOk result (λ line. line.kept ≤ most_kept) }
    ensures full { IfOk result (λ line. IsTrue line.passed → line.kept ≡ most_kept) }
    ensures before { take (length held.old.items) held.new.items ≡ held.old.items }
{
    let count = part.len().min(MOST_KEPT - last.kept);
    held.extend_from_slice(&part[..count])?;
    Ok(OpenLine {
        kept: last.kept + count,
        passed: last.passed || count < part.len(),
    })
}

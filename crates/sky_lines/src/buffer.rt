ghost use Rattle.std.specs.Prelude.{◌≡◌, ℕ, List, [], ◌∷◌, ◌++◌, ◌+◌, ◌-◌, ◌<◌, ◌≤◌, ◌⊎◌, true, false, IfOk, IsOk, IsUtf8, MatchOption, OnOk, OnErr, IsTrue, length, take, drop, slice_range, vec_len};
ghost use Rattle.std.specs.Str.{IsAscii};
ghost use Rattle.std.specs.Io.KnownBytes.{IsAtEnd};
ghost use Rattle.sky_io.specs.Faults.{Rose};
ghost use Rattle.sky_lines.specs.Feeds.{has_feed, is_settled, FeedsAt, IsFirstFeed, Grows};

use memchr::memchr;
use sky_io::{Failed, Source};
use sky_val::NoMemory;
use std::alloc::Global;
use std::marker::Model;
use std::str;

/// How many bytes a line may have before its line feed.
pub const MOST_IN_LINE: usize = 65_536;

/// How many bytes a read asks for.
const PIECE: usize = 65_536;

/// Room for a piece after a line that isn't complete.
const ROOM: usize = MOST_IN_LINE + PIECE;

/// The bytes that were read and not taken, and before them the line that was taken last. Each byte is moved at most
/// once, and searched once for a line feed. Whether bytes are ASCII is tested for a whole piece.
#[derive(Drop)]
pub struct Buffer {
    // `bytes[start..end]` were read and not taken, and the first line feed is at the place `feed` among them.
    bytes: Vec<u8>,
    start: usize,
    end: usize,
    feed: Option<usize>,
    // `bytes[line_start..line_end]` is the line.
    line_start: usize,
    line_end: usize,
    // If this is true, all of these bytes are ASCII.
    ascii: bool,
}

impl Model for Buffer {
    ghost use Rattle.std.specs.Prelude.{slice_range};
    ghost use Rattle.sky_lines.specs.Room.{Held, IsBuffer, KnowsAscii};

    ghost Value = { Held };

    ghost view = { λ b. record { pending = slice_range b.bytes.items b.start b.end; line = slice_range b.bytes.items b.line_start b.line_end } };

    ghost invariant = { λ b. IsBuffer b.bytes.items b.start b.end b.feed b.line_start b.line_end × KnowsAscii b.ascii (slice_range b.bytes.items b.start b.end) (slice_range b.bytes.items b.line_start b.line_end) };
}

impl Buffer {
    /// An empty buffer, with all the room that it ever needs.
    pub fn new(alloc: Global) -> Result<Buffer, NoMemory>
        ensures { IfOk result (λ buffer. buffer ≡ record { pending = []; line = [] }) }
    {
        let bytes = vec![in alloc; 0; ROOM]?;
        Ok(Buffer {
            bytes,
            start: 0,
            end: 0,
            feed: None,
            line_start: 0,
            line_end: 0,
            ascii: true,
        })
    }

    /// How many bytes were read and not taken.
    pub fn len(&self) -> usize
        ensures { result ≡ length self.now.pending }
    {
        self.end - self.start
    }

    /// How many bytes come before the first line feed, if there is one.
    pub fn line_len(&self) -> Option<usize>
        ensures { IsFirstFeed self.now.pending result }
    {
        self.feed
    }

    /// Whether the first line ends here or is too long already.
    pub fn is_settled(&self) -> bool
        ensures { result ≡ is_settled self.now.pending }
    {
        self.feed.is_some() || self.len() > MOST_IN_LINE
    }

    /// Takes the first line, of `len` bytes, and drops its line feed.
    pub fn take_line(&mut self, len: usize)
        requires { FeedsAt self.old.pending len }
        ensures parts { self.old.pending ≡ self.new.line ++ 10 ∷ self.new.pending }
        ensures line { self.new.line ≡ take len self.old.pending }
    {
        self.line_start = self.start;
        self.line_end = self.start + len;
        self.start = self.line_end + 1;
        self.feed = memchr(b'\n', &self.bytes[self.start..self.end]);
    }

    /// The line that was taken last, without its line feed. Each read drops it.
    pub fn line(&self) -> &[u8]
        ensures { result.now ≡ self.now.line }
    {
        &self.bytes[self.line_start..self.line_end]
    }

    /// The same as text, or `None` if it isn't UTF-8.
    pub fn text(&self) -> Option<&str>
        ensures { MatchOption result (¬ (IsUtf8 self.now.line)) (λ text. text.now ≡ self.now.line) }
    {
        let line = self.line();
        if self.ascii {
            // Safety: ASCII is UTF-8.
            return Some(unsafe { str::from_utf8_unchecked(line) });
        }
        str::from_utf8(line).ok()
    }

    /// Reads until the bytes are settled or the source is at its end.
    pub fn gather<S: Source>(&mut self, src: &mut S) -> Result<(), Failed>
        ensures grows { Grows self.old.pending self.new.pending (S.left src.old) (S.left src.new) }
        ensures ok { OnOk result ((is_settled self.new.pending ≡ true) ⊎ IsAtEnd (S.left src.new)) }
        ensures err { OnErr result (is_settled self.new.pending ≡ false) }
        ensures failed { OnErr result (Rose (S.faults src.old) (S.faults src.new)) }
        ensures never_falls { S.faults src.old ≤ S.faults src.new }
        ensures relied { OnErr result (¬ (S.reliable src.old)) }
        ensures stays { S.reliable src.old → S.reliable src.new }
        ensures settled { is_settled self.old.pending ≡ true → IsOk result × (self.new ≡ self.old) × (src.new ≡ src.old) }
    {
        'reads: while !self.is_settled() {
            if self.fill(src)? == 0 {
                return Ok(());
            }
        }
        Ok(())
    }

    // Reads a piece after a line that isn't complete, and drops the line that was taken.
    fn fill<S: Source>(&mut self, src: &mut S) -> Result<usize, Failed>
        requires { is_settled self.old.pending ≡ false }
        ensures grows { Grows self.old.pending self.new.pending (S.left src.old) (S.left src.new) }
        ensures count { IfOk result (λ count. length self.new.pending ≡ length self.old.pending + count) }
        ensures end { IfOk result (λ count. count ≡ 0 → IsAtEnd (S.left src.new)) }
        ensures err { OnErr result (self.new.pending ≡ self.old.pending) }
        ensures forgets { self.new.line ≡ [] }
        ensures failed { OnErr result (Rose (S.faults src.old) (S.faults src.new)) }
        ensures never_falls { S.faults src.old ≤ S.faults src.new }
        ensures relied { OnErr result (¬ (S.reliable src.old)) }
        ensures stays { S.reliable src.old → S.reliable src.new }
    {
        let len = self.end - self.start;
        self.ascii = self.has_ascii();
        move_to_front(&mut self.bytes, self.start, self.end);
        self.start = 0;
        self.end = len;
        self.line_start = 0;
        self.line_end = 0;
        let count = src.read(&mut self.bytes[len..len + PIECE])?;
        self.end = len + count;
        self.ascii = still_ascii(self.ascii, &self.bytes[..self.end], len);
        self.feed = feed_behind(&self.bytes[..self.end], len);
        Ok(count)
    }

    // Whether the bytes that were read and not taken are known to be ASCII. They are tested again once bytes before them
    // were taken, since the one that isn't ASCII may have been among those.
    fn has_ascii(&self) -> bool
        ensures { result ≡ true → IsAscii self.now.pending }
    {
        self.ascii || (self.start > 0 && self.bytes[self.start..self.end].is_ascii())
    }
}

// Moves `bytes[start..end]` to the front. Bytes that are there already aren't moved again at each read.
fn move_to_front(bytes: &mut [u8], start: usize, end: usize)
    requires in_order { start ≤ end }
    requires within { end ≤ length bytes.old }
    ensures { take (end - start) bytes.new ≡ slice_range bytes.old start end }
{
    if start > 0 {
        bytes.copy_within(start..end, 0);
    }
}

// The place of the first line feed, if there is none among the first `len` bytes.
fn feed_behind(bytes: &[u8], len: usize) -> Option<usize>
    requires within { len ≤ length bytes.now }
    requires none { has_feed (take len bytes.now) ≡ false }
    ensures { IsFirstFeed bytes.now result }
{
    let at = memchr(b'\n', &bytes[len..])?;
    Some(len + at)
}

// Whether all the bytes are ASCII, given whether the first `len` are known to be.
fn still_ascii(before: bool, bytes: &[u8], len: usize) -> bool
    requires { len ≤ length bytes.now }
    ensures { result ≡ true → (before ≡ true) × IsAscii (drop len bytes.now) }
{
    before && bytes[len..].is_ascii()
}

//! The pieces of a text.

ghost use Rattle.std.specs.Prelude.{◌≡◌, ◌+◌, ◌<◌, ◌^◌, length, option_map};
ghost use Rattle.sky_urlenc.specs.ReadRow.{sides_of, pieces_from};

use crate::cut::{first_piece, first_place};

/// What is between two `&`, and the byte place where it starts.
#[derive(Clone, Copy, Debug)]
pub(crate) struct Piece<'a> {
    pub(crate) start: usize,
    bytes: &'a [u8],
}

impl<'a> Piece<'a> {
    ghost use Rattle.sky_urlenc.specs.Pieces.{piece_view};

    /// What comes before its first `=`, and what comes after it; if there is none, only the piece.
    pub(crate) fn sides(&self) -> (&'a [u8], Option<&'a [u8]>)
        ensures name { result.0.now ≡ (sides_of (piece_view self.now)).0 }
        ensures text { option_map (λ text. text.now) result.1 ≡ (sides_of (piece_view self.now)).1 }
    {
        match first_place(b'=', self.bytes) {
            Some(place) => (&self.bytes[..place], Some(&self.bytes[place + 1..])),
            None => (self.bytes, None),
        }
    }
}

/// The pieces of a text that aren't empty.
#[derive(Clone, Copy, Debug)]
pub(crate) struct Pieces<'a> {
    start: usize,
    rest: &'a [u8],
    ghost fits: { start + length rest.now < 2 ^ 63 },
}

impl<'a> Pieces<'a> {
    ghost use Rattle.sky_urlenc.specs.Pieces.{pieces_left};

    /// Those of the whole text.
    pub(crate) fn of(text: &'a [u8]) -> Pieces<'a>
        ensures { pieces_left result ≡ pieces_from 0 text.now }
    {
        Pieces {
            start: 0,
            rest: text,
        }
    }
}

impl<'a> Iterator for Pieces<'a> {
    ghost use Rattle.std.specs.Prelude.{length};
    ghost use Rattle.std.specs.Iterator.{YieldsFirstBy, at_most};
    ghost use Rattle.sky_urlenc.specs.Pieces.{piece_view, pieces_left};

    type Item = Piece<'a>;

    ghost next_gives = { YieldsFirstBy piece_view pieces_left };

    ghost remaining = { λ it. at_most (length it.rest.now) };

    fn next(&mut self) -> Option<Piece<'a>> {
        while !self.rest.is_empty() {
            let start = self.start;
            let (bytes, behind) = first_piece(self.rest);
            self.start += self.rest.len() - behind.len();
            self.rest = behind;
            if !bytes.is_empty() {
                return Some(Piece { start, bytes });
            }
        }
        None
    }
}

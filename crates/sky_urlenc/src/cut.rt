//! Cuts in a text.

ghost use Rattle.std.specs.Prelude.{◌≡◌, ◌==◌};
ghost use Rattle.std.specs.List.{position};
ghost use Rattle.sky_urlenc.specs.Cuts.{first_piece};

/// The place of the first such byte.
pub(crate) fn first_place(byte: u8, text: &[u8]) -> Option<usize>
    ensures { result ≡ position (λ b. b == byte) text.now }
{
    text.iter().position(|other| *other == byte)
}

/// What comes before the first `&`, and what comes after it.
pub(crate) fn first_piece(text: &[u8]) -> (&[u8], &[u8])
    ensures { (result.0.now, result.1.now) ≡ first_piece text.now }
{
    match first_place(b'&', text) {
        Some(place) => (&text[..place], &text[place + 1..]),
        None => (text, &[]),
    }
}

//! The texts of SOCKS 4.
ghost use Rattle.std.specs.Prelude.{◌≡◌};
ghost use Rattle.socks_dialog.specs.Socks.{zero_in};
ghost use Rattle.socks_dialog.specs.Reads.{IsText};

/// The longest text, with the zero byte at its end.
const LONGEST_TEXT: usize = 256;

/// A text that ends at a zero byte, as far as its bytes are there.
#[derive(Clone, Copy)]
pub enum DialogText<'a> {
    Whole { text: &'a [u8], rest: &'a [u8] },
    Open,
    TooLong { rest: &'a [u8] },
}

// The first place of a zero byte.
fn first_zero(bytes: &[u8]) -> Option<usize>
    ensures { result ≡ zero_in bytes.now }
{
    bytes.iter().position(|byte| *byte == 0)
}

/// The text at the front of some bytes.
pub fn text_of(bytes: &[u8]) -> DialogText<'_>
    ensures { IsText result bytes.now }
{
    match first_zero(&bytes[..LONGEST_TEXT.min(bytes.len())]) {
        Some(n) => DialogText::Whole {
            text: &bytes[..n],
            rest: &bytes[n + 1..],
        },
        None if bytes.len() < LONGEST_TEXT => DialogText::Open,
        None => DialogText::TooLong {
            rest: &bytes[LONGEST_TEXT..],
        },
    }
}

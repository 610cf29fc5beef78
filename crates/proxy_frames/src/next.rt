ghost use Rattle.std.specs.Prelude.{◌≡◌, ◌≤◌, length, drop};
ghost use Rattle.ssh_fields.specs.Fields.{AreBytes};
ghost use Rattle.ssh_grammar.specs.Frames.{first_frame, cut_content, shortest};
ghost use Rattle.proxy_frames.specs.Fronts.{IsFrameFront};

use ssh_fields::Cursor;
use ssh_grammar::numbers::LONGEST_FRAME;
use ssh_grammar::{BadFrame, Framing};

/// What a framer has next.
#[derive(Clone, Copy, Debug, PartialEq, Eq)]
pub enum Next {
    /// A frame: its content is the current frame now.
    Frame,
    /// No whole frame is there yet.
    More,
    /// No frame can begin so. From then on nothing else is answered.
    Bad(BadFrame),
}

/// The front of some bytes.
#[derive(Clone, Copy)]
pub enum Front {
    /// A frame: so many bytes of header, and so many of content.
    Frame { header: usize, length: usize },
    More,
    Bad(BadFrame),
}

/// How many bytes a length field has.
const LENGTH: usize = 4;

/// The same, and a padding length.
const LENGTH_AND_PADDING: usize = 5;

// The least value of a length field.
fn least(framing: Framing) -> u32
    ensures { result ≡ shortest framing }
{
    match framing {
        Framing::Control => 4,
        Framing::Proxy => 2,
    }
}

// So many bytes after a header, as soon as they are there.
fn content(header: usize, size: usize, bytes: &[u8]) -> Front
    requires { header ≤ length bytes.now }
    ensures { IsFrameFront bytes.now result (cut_content size (drop header bytes.now)) }
{
    if size <= bytes.len() - header {
        Front::Frame {
            header,
            length: size,
        }
    } else {
        Front::More
    }
}

/// The front of some bytes, by their length field.
pub fn first_frame(framing: Framing, bytes: &[u8]) -> Front
    ensures front { IsFrameFront bytes.now result (first_frame framing bytes.now) }
    ensures bytes { AreBytes bytes.now }
{
    let mut fields = Cursor::new(bytes);
    let Some(length) = fields.take_u32() else {
        return Front::More;
    };
    if length < least(framing) {
        return Front::Bad(BadFrame::Short { length });
    }
    if LONGEST_FRAME < length {
        return Front::Bad(BadFrame::Long { length });
    }
    match framing {
        Framing::Control => content(LENGTH, length as usize, bytes),
        Framing::Proxy => match fields.take_u8() {
            None => Front::More,
            Some(0) => content(LENGTH_AND_PADDING, length as usize - 1, bytes),
            Some(byte) => Front::Bad(BadFrame::Padding { byte }),
        },
    }
}

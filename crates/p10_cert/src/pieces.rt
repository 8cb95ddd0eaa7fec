//! The pieces of a line: fixed texts, names and numbers.

ghost use Rattle.std.specs.Prelude.{◌≡◌};
ghost use Rattle.p10_cert.specs.Lines.{flag_number};

use crate::writing::Text;
use itoa::Buffer;
use p10_base::{Digest, ListBuf, hex};
use p10_world::{Sink, SinkFault};

/// A piece of a line.
#[derive(Clone, Copy)]
pub(crate) enum Piece<'t> {
    /// These bytes.
    Bytes(&'t [u8]),
    /// A name.
    Name(&'t ListBuf<u8>),
    /// A number of steps, calls, bytes or turns, in decimal.
    Number(u64),
    /// The rank of a function, the depth of a loop or the number of a variable, in decimal.
    Index(u32),
    /// 1 for true, 0 for false.
    Flag(bool),
    /// A number in decimal, with its sign.
    Signed(&'t i128),
    /// A digest, two hexadecimal digits a byte.
    Digest(&'t Digest),
}

impl Text for Piece<'_> {
    ghost use Rattle.p10_cert.specs.private.Pieces.{piece_text};

    ghost text = { piece_text };

    fn put<O: Sink>(&self, out: &mut O) -> Result<(), SinkFault> {
        match self {
            Piece::Bytes(bytes) => out.put(bytes),
            Piece::Name(name) => out.put(name.as_slice()),
            Piece::Number(number) => out.put(Buffer::new().format(*number).as_bytes()),
            Piece::Index(number) => out.put(Buffer::new().format(*number).as_bytes()),
            Piece::Flag(flag) => out.put(Buffer::new().format(flag_number(*flag)).as_bytes()),
            Piece::Signed(number) => out.put(Buffer::new().format(**number).as_bytes()),
            Piece::Digest(digest) => out.put(hex(&digest.0).as_slice()),
        }
    }
}

/// 1 for true, 0 for false.
fn flag_number(flag: bool) -> u64
    ensures { result ≡ flag_number flag }
{
    if flag { 1 } else { 0 }
}

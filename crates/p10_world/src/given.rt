//! Bytes in memory that are given one after the other.

ghost use Rattle.std.specs.Prelude.{◌≡◌, ◌≤◌, ◌++◌, min, take, length, vec_len};

/// Bytes in memory that are given one after the other.
#[derive(Drop)]
pub struct Given {
    bytes: Vec<u8>,
    given: usize,
    ghost within: { given ≤ vec_len bytes },
}

impl Given {
    ghost use Rattle.p10_world.specs.Given.{left_of};

    /// All bytes are left.
    pub fn new(bytes: Vec<u8>) -> Given
        ensures { left_of result ≡ bytes.items }
    {
        Given { bytes, given: 0 }
    }

    /// Takes the next bytes into the beginning of `buf`: as many as it has room for, or all that are left.
    pub fn piece(&mut self, buf: &mut [u8]) -> usize
        ensures most { result ≡ min (length buf.old) (length (left_of self.old)) }
        ensures given { left_of self.old ≡ take result buf.new ++ left_of self.new }
    {
        let rest = &self.bytes[self.given..];
        let count = rest.len().min(buf.len());
        buf[..count].copy_from_slice(&rest[..count]);
        self.given += count;
        count
    }
}

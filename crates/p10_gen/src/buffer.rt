//! The text of a source file as it is made.

ghost use Rattle.std.specs.Prelude.{◌≡◌, ◌≤◌, [], ◌++◌, length, decimal, IfErr, OnOk};
ghost use Rattle.p10_gen.specs.private.Making.{IsFaultAfter};

use crate::fault::GenFault;
use itoa::Buffer;
use p10_base::Limit;
use std::alloc::Global;
use std::marker::Model;

/// The most bytes of a source file.
const MOST_BYTES: usize = Limit::MOST_FILE_BYTES as usize;

/// The text of a source file as it is made, never longer than a source file may be. Contracts see its bytes.
#[derive(Drop)]
pub(crate) struct FileText {
    bytes: Vec<u8>,
}

impl Model for FileText {
    ghost use Rattle.std.specs.Prelude.{◌≤◌, List, ℕ, length};
    ghost use Rattle.p10_base.specs.declared.report.TheConstants.Limit.{MOST_FILE_BYTES};

    ghost Value = { List ℕ };

    ghost view = { λ t. t.bytes.items };

    ghost invariant = { λ t. length t.bytes.items ≤ MOST_FILE_BYTES };
}

impl FileText {
    /// A text without bytes.
    pub(crate) fn new(alloc: Global) -> FileText
        ensures { result ≡ [] }
    {
        FileText {
            bytes: Vec::new(alloc),
        }
    }

    /// Puts bytes after the text. On an error the text has stayed as it was.
    ///
    /// # Errors
    ///
    /// Over the limit exactly where the text would be longer than a source file may be; or out of memory.
    pub(crate) fn put(&mut self, bytes: &[u8]) -> Result<(), GenFault>
        ensures ok { OnOk result (self.new ≡ self.old ++ bytes.now) }
        ensures fault { IfErr result (IsFaultAfter self.old bytes.now) }
    {
        if bytes.len() > MOST_BYTES - self.bytes.len() {
            return Err(GenFault::Over(Limit::FILE_BYTES));
        }
        match self.bytes.extend_from_slice(bytes) {
            Ok(()) => Ok(()),
            Err(_) => Err(GenFault::Memory),
        }
    }

    /// Puts a number in decimal after the text.
    ///
    /// # Errors
    ///
    /// As [`FileText::put`].
    pub(crate) fn put_number(&mut self, number: u64) -> Result<(), GenFault>
        ensures ok { OnOk result (self.new ≡ self.old ++ decimal number) }
        ensures fault { IfErr result (IsFaultAfter self.old (decimal number)) }
    {
        self.put(Buffer::new().format(number).as_bytes())
    }

    /// The bytes of the text.
    pub(crate) fn into_bytes(self) -> Vec<u8>
        ensures text { result.items ≡ self }
        ensures most { length self ≤ Limit.MOST_FILE_BYTES }
    {
        self.bytes
    }
}

//! Memory that the rules of frame records read.
ghost use Rattle.std.specs.Prelude.{◌≡◌, List};
ghost use Rattle.cfi_eval.specs.declared.memory.MemRun.{MemRun};
ghost use Rattle.cfi_eval.specs.Bytes.{byte_at, word_at};

/// The known part of memory, byte by byte. Contracts see it as runs of bytes, of which the last
/// that contains an address counts.
pub trait ByteMemory {
    ghost runs: { Self → List MemRun };

    /// The byte at an address, if it is known.
    fn byte(&self, a: u64) -> Option<u8>
        ensures { result ≡ byte_at (runs self.now) a };
}

/// The word at an address: eight bytes, the lowest byte first, each at an address below 2^64.
pub(crate) fn read_word<M: ByteMemory>(memory: &M, a: u64) -> Option<u64>
    ensures { result ≡ word_at (M.runs memory.now) a }
{
    let mut word = 0;
    'bytes: for place in 0..8u32 {
        let byte = memory.byte(a.checked_add(u64::from(place))?)?;
        word += u64::from(byte) << (8 * place);
    }
    Some(word)
}

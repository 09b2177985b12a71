//! Bytes joined from parts.
ghost use Rattle.std.specs.Prelude.{◌≡◌, ◌++◌, OnOk, replicate};
ghost use Rattle.std.specs.List.{flat_map};

use std::alloc::Global;
use sym_edges::OutOfMemory;

/// Adds parts in their order.
pub fn put_all(bytes: &mut Vec<u8>, parts: &[&[u8]]) -> Result<(), OutOfMemory>
    ensures { OnOk result (bytes.new.items ≡ bytes.old.items ++ flat_map (λ part. part.now) parts.now) }
{
    'parts: for k in 0..parts.len() {
        bytes.extend_from_slice(parts[k])?;
    }
    Ok(())
}

/// Adds a number of zero bytes.
pub fn put_zeros(alloc: Global, bytes: &mut Vec<u8>, count: usize) -> Result<(), OutOfMemory>
    ensures { OnOk result (bytes.new.items ≡ bytes.old.items ++ replicate count 0) }
{
    let mut zeros = vec![in alloc; 0; count]?;
    bytes.append(&mut zeros)?;
    Ok(())
}

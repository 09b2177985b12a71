//! Pieces in shares, which are the jobs of workers.
ghost use Rattle.std.specs.Prelude.{◌*◌, ◌≤◌, ◌^◌, IfOk};

use sym_edges::OutOfMemory;

/// The number of pieces in one job.
pub const SHARE: usize = 512;

/// The number of shares for this number of pieces.
pub fn share_count(pieces: usize) -> Result<usize, OutOfMemory>
    ensures all { IfOk result (λ count. pieces ≤ 512 * count) }
    ensures few { IfOk result (λ count. count ≤ 2 ^ 32) }
{
    let count = pieces / SHARE + 1;
    if count as u64 > 1 << 32 {
        return Err(OutOfMemory);
    }
    Ok(count)
}

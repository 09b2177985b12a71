//! LEB128 numbers: each byte has seven bits, the lowest first, and its bit 7 says that another byte follows (DWARF 5, 7.6).
ghost use Rattle.std.specs.Prelude.{◌≡◌, ◌^◌, ◌<◌, ◌≤◌, length, pos, ◌-ℤ◌, IfOk, nat_lt, slice_index, if◌then◌else◌};
ghost use Rattle.leb_cursor.specs.Readings.{uleb_at, sleb_at};
ghost use Rattle.leb_cursor.specs.internal.Steps.{read_front};
ghost use Rattle.leb_cursor.specs.internal.Groups.{AreGroups};

use crate::fault::CursorFault;

/// The groups of a number's first nine bytes.
enum Groups {
    /// One of the bytes ends the number: the sum of the groups up to that byte, and the count of
    /// these groups.
    Ended { sum: u64, count: usize },

    /// Each of the bytes has bit 7, also if there are fewer than nine: the sum of their groups.
    Going { sum: u64 },
}

#[inline]
#[tactic(auto, using(crate::proofs::GroupLemmas::so_far_none, crate::proofs::GroupLemmas::so_far_more, crate::proofs::GroupLemmas::so_far_fits))]
fn read_groups(bytes: &[u8]) -> Groups
    ensures { AreGroups result bytes.now }
{
    let limit = bytes.len().min(9);
    let mut sum = 0;
    for index in 0..limit {
        let byte = bytes[index];
        sum += u64::from(byte % 128) << (7 * index);
        if byte < 128 {
            return Groups::Ended {
                sum,
                count: index + 1,
            };
        }
    }
    Groups::Going { sum }
}

/// The tenth byte, or the fault `Ends` if there are fewer than ten bytes.
#[inline]
fn tenth(bytes: &[u8], at: usize) -> Result<u8, CursorFault>
    ensures { result ≡ (if nat_lt (length bytes.now) 10
        then Err (CursorFault.Ends at)
        else Ok (slice_index bytes.now 9)) }
{
    if bytes.len() < 10 {
        return Err(CursorFault::Ends { at });
    }
    Ok(bytes[9])
}

/// The unsigned LEB128 at the start of `bytes`, and its length. `bytes` begin at the place `at`.
#[inline]
#[tactic(auto, using(crate::proofs::UlebLemmas::uleb_ended, crate::proofs::UlebLemmas::uleb_short, crate::proofs::UlebLemmas::uleb_zero, crate::proofs::UlebLemmas::uleb_one, crate::proofs::UlebLemmas::uleb_long))]
pub fn uleb_front(bytes: &[u8], at: usize) -> Result<(u64, usize), CursorFault>
    ensures read { read_front (record { bytes = bytes.now; at = at }) result
        ≡ uleb_at (record { bytes = bytes.now; at = at }) }
    ensures within { IfOk result (λ front. front.1 ≤ length bytes.now) }
{
    match read_groups(bytes) {
        Groups::Ended { sum, count } => Ok((sum, count)),
        Groups::Going { sum } => match tenth(bytes, at)? {
            0 => Ok((sum, 10)),
            1 => Ok((sum + (1 << 63), 10)),
            2.. => Err(CursorFault::LebLong { at }),
        },
    }
}

/// The signed LEB128 at the start of `bytes`, and its length. `bytes` begin at the place `at`.
#[inline]
#[tactic(auto, using(crate::proofs::GroupLemmas::ended_small, crate::proofs::SlebLemmas::sleb_plain, crate::proofs::SlebLemmas::sleb_lessened, crate::proofs::SlebLemmas::sleb_short, crate::proofs::SlebLemmas::sleb_zero, crate::proofs::SlebLemmas::sleb_ones, crate::proofs::SlebLemmas::sleb_long))]
pub fn sleb_front(bytes: &[u8], at: usize) -> Result<(i64, usize), CursorFault>
    ensures read { read_front (record { bytes = bytes.now; at = at }) result
        ≡ sleb_at (record { bytes = bytes.now; at = at }) }
    ensures within { IfOk result (λ front. front.1 ≤ length bytes.now) }
{
    match read_groups(bytes) {
        Groups::Ended { sum, count } => {
            if bytes[count - 1] < 64 {
                Ok((plain(sum), count))
            } else {
                Ok((lessened(sum, count), count))
            }
        }
        Groups::Going { sum } => match tenth(bytes, at)? {
            0 => Ok((plain(sum), 10)),
            127 => Ok((lessened(sum, 9), 10)),
            _ => Err(CursorFault::LebLong { at }),
        },
    }
}

/// The sum of the groups as a signed number.
fn plain(sum: u64) -> i64
    requires { sum < 2 ^ 63 }
    ensures { result ≡ pos sum }
{
    sum as i64
}

/// The sum of `count` groups, minus 128^`count`.
#[tactic(auto, using(crate::proofs::GroupLemmas::one_weight, crate::proofs::GroupLemmas::groups_fit))]
fn lessened(sum: u64, count: usize) -> i64
    requires few { count ≤ 9 }
    requires below { sum < 128 ^ count }
    ensures { result ≡ pos sum -ℤ pos (128 ^ count) }
{
    let missing = (1 << (7 * count)) - 1 - sum;
    -(missing as i64) - 1
}

/// The number of a signed LEB128 of one byte.
#[inline]
pub fn signed_byte(byte: u8) -> i64
    requires { byte < 128 }
    ensures { result ≡ pos byte -ℤ pos (if nat_lt byte 64 then 0 else 128) }
{
    if byte < 64 {
        i64::from(byte)
    } else {
        i64::from(byte) - 128
    }
}

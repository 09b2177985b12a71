//! Numbers of fixed width, the lowest byte first.
ghost use Rattle.std.specs.Prelude.{◌≡◌, ◌≤◌, length};
ghost use Rattle.leb_cursor.specs.Readings.{fixed_sum};

/// The number in the first two bytes.
#[inline]
#[tactic(auto, unfolding(crate::specs::Readings::fixed_sum))]
pub fn front_u16(bytes: &[u8]) -> u16
    requires { 2 ≤ length bytes.now }
    ensures { result ≡ fixed_sum 2 bytes.now }
{
    u16::from_le_bytes([bytes[0], bytes[1]])
}

/// The number in the first three bytes.
#[inline]
#[tactic(auto, unfolding(crate::specs::Readings::fixed_sum))]
pub fn front_u24(bytes: &[u8]) -> u32
    requires { 3 ≤ length bytes.now }
    ensures { result ≡ fixed_sum 3 bytes.now }
{
    u32::from_le_bytes([bytes[0], bytes[1], bytes[2], 0])
}

/// The number in the first four bytes.
#[inline]
#[tactic(auto, unfolding(crate::specs::Readings::fixed_sum))]
pub fn front_u32(bytes: &[u8]) -> u32
    requires { 4 ≤ length bytes.now }
    ensures { result ≡ fixed_sum 4 bytes.now }
{
    u32::from_le_bytes([bytes[0], bytes[1], bytes[2], bytes[3]])
}

/// The number in the first eight bytes.
#[inline]
#[tactic(auto, unfolding(crate::specs::Readings::fixed_sum))]
pub fn front_u64(bytes: &[u8]) -> u64
    requires { 8 ≤ length bytes.now }
    ensures { result ≡ fixed_sum 8 bytes.now }
{
    u64::from_le_bytes([
        bytes[0], bytes[1], bytes[2], bytes[3], bytes[4], bytes[5], bytes[6], bytes[7],
    ])
}

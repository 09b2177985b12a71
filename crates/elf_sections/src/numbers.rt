//! Numbers of fixed width at a place, with the lowest byte first.
ghost use Rattle.std.specs.Prelude.{◌≡◌, ◌+◌, ◌≤◌, length};
ghost use Rattle.elf_sections.specs.Numbers.{u16_at, u32_at, u64_at};

#[inline]
#[tactic(auto, unfolding(crate::specs::Numbers::u16_at, leb_cursor::specs::Readings::fixed_sum))]
pub fn read_u16(bytes: &[u8], at: usize) -> u16
    requires { at + 2 ≤ length bytes.now }
    ensures { result ≡ u16_at bytes.now at }
{
    let field = bytes.split_at(at).1.split_at(2).0;
    u16::from_le_bytes([field[0], field[1]])
}

#[inline]
#[tactic(auto, unfolding(crate::specs::Numbers::u32_at, leb_cursor::specs::Readings::fixed_sum))]
pub fn read_u32(bytes: &[u8], at: usize) -> u32
    requires { at + 4 ≤ length bytes.now }
    ensures { result ≡ u32_at bytes.now at }
{
    let field = bytes.split_at(at).1.split_at(4).0;
    u32::from_le_bytes([field[0], field[1], field[2], field[3]])
}

#[inline]
#[tactic(auto, unfolding(crate::specs::Numbers::u64_at, leb_cursor::specs::Readings::fixed_sum))]
pub fn read_u64(bytes: &[u8], at: usize) -> u64
    requires { at + 8 ≤ length bytes.now }
    ensures { result ≡ u64_at bytes.now at }
{
    let field = bytes.split_at(at).1.split_at(8).0;
    u64::from_le_bytes([
        field[0], field[1], field[2], field[3], field[4], field[5], field[6], field[7],
    ])
}

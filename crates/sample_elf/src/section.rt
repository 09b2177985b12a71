//! Section headers (ELF64, chapter 4).

/// The fields of a section header; link, info and entry size are 0.
#[derive(Clone, Copy, Debug)]
pub struct Section {
    pub name: u32,
    pub kind: u32,
    pub flags: u64,
    pub address: u64,
    pub offset: u64,
    pub size: u64,
    pub alignment: u64,
}

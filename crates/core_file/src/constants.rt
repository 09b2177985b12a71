//! Numbers of ELF64 and of Linux core files, by their names there.

pub const EI_CLASS: usize = 4;

pub const ELFCLASS64: u8 = 2;

pub const EI_DATA: usize = 5;

pub const ELFDATA2LSB: u8 = 1;

pub const EM_X86_64: u16 = 62;

pub const ET_CORE: u16 = 4;

pub const PN_XNUM: u16 = 0xffff;

pub const PT_LOAD: u32 = 1;

pub const PT_NOTE: u32 = 4;

pub const PF_X: u32 = 1;

pub const NT_PRSTATUS: u32 = 1;

pub const NT_GNU_BUILD_ID: u32 = 3;

pub const NT_FILE: u32 = 0x4649_4c45;

// The sizes in bytes of an Elf64_Ehdr and of an Elf64_Phdr.
pub const FILE_HEADER: usize = 64;

pub const PROGRAM_HEADER: usize = 56;

/// The size of a page in bytes.
pub const PAGE: u64 = 4096;

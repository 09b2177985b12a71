//! Numbers of ELF64 and of the System V ABI for AMD64, by their names there.

// Values of header fields, by their names in the System V ABI.
pub const EI_CLASS: usize = 4;

pub const ELFCLASS64: u8 = 2;

pub const EI_DATA: usize = 5;

pub const ELFDATA2LSB: u8 = 1;

pub const EM_X86_64: u16 = 62;

pub const ET_EXEC: u16 = 2;

pub const ET_DYN: u16 = 3;

pub const SHT_NULL: u32 = 0;

pub const SHT_SYMTAB: u32 = 2;

pub const SHT_STRTAB: u32 = 3;

pub const SHT_NOTE: u32 = 7;

pub const SHT_NOBITS: u32 = 8;

pub const SHT_DYNSYM: u32 = 11;

pub const SHF_ALLOC: u64 = 0x2;

pub const SHF_EXECINSTR: u64 = 0x4;

pub const SHF_COMPRESSED: u64 = 0x800;

pub const SHN_UNDEF: u16 = 0;

pub const SHN_LORESERVE: u16 = 0xff00;

pub const PT_LOAD: u32 = 1;

pub const NT_GNU_BUILD_ID: u32 = 3;

pub const STT_FUNC: u8 = 2;

pub const STT_GNU_IFUNC: u8 = 10;

// The sizes in bytes of an Elf64_Ehdr, an Elf64_Shdr, an Elf64_Phdr and an Elf64_Sym.
pub const FILE_HEADER: usize = 64;

pub const SECTION_HEADER: usize = 64;

pub const PROGRAM_HEADER: usize = 56;

pub const SYMBOL: usize = 24;

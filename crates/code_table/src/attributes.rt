//! The attributes of entries that are read (DWARF 5, table 7.5, and `DW_AT_MIPS_linkage_name` of
//! older compilers), by the standard's names.

pub const DW_AT_name: u64 = 0x03;

pub const DW_AT_stmt_list: u64 = 0x10;

pub const DW_AT_low_pc: u64 = 0x11;

pub const DW_AT_high_pc: u64 = 0x12;

pub const DW_AT_comp_dir: u64 = 0x1b;

pub const DW_AT_abstract_origin: u64 = 0x31;

pub const DW_AT_declaration: u64 = 0x3c;

pub const DW_AT_specification: u64 = 0x47;

pub const DW_AT_ranges: u64 = 0x55;

pub const DW_AT_call_file: u64 = 0x58;

pub const DW_AT_call_line: u64 = 0x59;

pub const DW_AT_linkage_name: u64 = 0x6e;

pub const DW_AT_str_offsets_base: u64 = 0x72;

pub const DW_AT_addr_base: u64 = 0x73;

pub const DW_AT_rnglists_base: u64 = 0x74;

pub const DW_AT_MIPS_linkage_name: u64 = 0x2007;

//! The tags of entries that are read (DWARF 5, table 7.3), by the standard's names.

pub const DW_TAG_class_type: u64 = 0x02;

pub const DW_TAG_structure_type: u64 = 0x13;

pub const DW_TAG_union_type: u64 = 0x17;

pub const DW_TAG_inlined_subroutine: u64 = 0x1d;

pub const DW_TAG_subprogram: u64 = 0x2e;

pub const DW_TAG_namespace: u64 = 0x39;

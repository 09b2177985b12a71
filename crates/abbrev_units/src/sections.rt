//! The sections of debugging information.
use std::marker::Model;
use text_table::TextTable;

/// The bytes of `.debug_info` and of the sections that it refers to; a missing section has no bytes. `sup_strs` is the `.debug_str` of the
/// supplementary file (DWARF 5, 7.3.6), if that file was read too. `is_sup` says that these are the sections of the supplementary file itself.
#[derive(Drop)]
pub struct Sections<'a> {
    pub info: &'a [u8],
    pub abbrevs: &'a [u8],
    pub line: &'a [u8],
    pub line_str: TextTable<'a>,
    pub strs: TextTable<'a>,
    pub str_offsets: &'a [u8],
    pub addr: &'a [u8],
    pub ranges: &'a [u8],
    pub rnglists: &'a [u8],
    pub sup_strs: Option<TextTable<'a>>,
    pub is_sup: bool,
}

impl<'a> Model for Sections<'a> {
    ghost use Rattle.abbrev_units.specs.DebugSections.{DebugSections};

    ghost Value = { DebugSections };

    ghost view = { λ s. record {
      info = s.info.now;
      abbrevs = s.abbrevs.now;
      line = s.line.now;
      line_str = s.line_str;
      strs = s.strs;
      str_offsets = s.str_offsets.now;
      addr = s.addr.now;
      ranges = s.ranges.now;
      rnglists = s.rnglists.now;
      sup_strs = s.sup_strs;
      is_sup = s.is_sup;
    } };
}

//! The image: what the rest of the program uses of an ELF file.
ghost use Rattle.std.specs.Prelude.{◌≡◌, ◌≤◌, [], length, unwrap_or, map};
ghost use Rattle.std.specs.Option.{option_copied, option_map};
ghost use Rattle.range_set.specs.Starts.{AllFrom};
ghost use Rattle.elf_sections.specs.Symbols.{symbol_view};
ghost use Rattle.elf_sections.specs.Image.{part_view, section_of, with_sections};
ghost use Rattle.elf_sections.specs.DebugView.{debug_view};
ghost use Rattle.elf_sections.specs.SupLinks.{link_view};
ghost use Rattle.elf_sections.specs.Supplement.{debug_sections_of, with_sup};

use crate::links::LinkSection;
use crate::symbols::Symbol;
use std::marker::Model;
use sym_edges::{Part, Sect, Span};

/// What is read of an ELF file. The sections and names are slices of the file.
#[derive(Drop)]
pub struct Image<'a> {
    pub(crate) info: Part<'a>,
    pub(crate) abbrevs: Part<'a>,
    pub(crate) line: Part<'a>,
    pub(crate) line_str: Part<'a>,
    pub(crate) strs: Part<'a>,
    pub(crate) str_offsets: Part<'a>,
    pub(crate) addr: Part<'a>,
    pub(crate) ranges: Part<'a>,
    pub(crate) rnglists: Part<'a>,
    pub(crate) debug_frame: Part<'a>,
    pub(crate) eh_frame: Part<'a>,
    pub(crate) text: Part<'a>,
    pub(crate) base: u64,
    pub(crate) code: Vec<Span>,
    pub(crate) build_id: Option<&'a [u8]>,
    pub(crate) identity: [u8; 16],
    pub(crate) symbols: Vec<Symbol<'a>>,
    pub(crate) altlink: LinkSection<'a>,
    pub(crate) debug_sup: LinkSection<'a>,
    pub(crate) sup: Option<DebugParts<'a>>,
}

impl<'a> Model for Image<'a> {
    ghost use Rattle.std.specs.Prelude.{◌≤◌, [], length, map, unwrap_or};
    ghost use Rattle.std.specs.Option.{option_copied, option_map};
    ghost use Rattle.range_set.specs.Starts.{AllFrom};
    ghost use Rattle.elf_sections.specs.Symbols.{symbol_view};
    ghost use Rattle.elf_sections.specs.SupLinks.{link_view};
    ghost use Rattle.elf_sections.specs.Image.{ImageParts, part_view};
    ghost use Rattle.elf_sections.specs.DebugView.{debug_view};

    ghost Value = { ImageParts };

    ghost view = { λ i. record {
      info = part_view i.info;
      abbrevs = part_view i.abbrevs;
      line = part_view i.line;
      line_str = part_view i.line_str;
      str = part_view i.strs;
      str_offsets = part_view i.str_offsets;
      addr = part_view i.addr;
      ranges = part_view i.ranges;
      rnglists = part_view i.rnglists;
      debug_frame = part_view i.debug_frame;
      eh_frame = part_view i.eh_frame;
      text = part_view i.text;
      base = i.base;
      code = i.code.items;
      build_id = option_copied i.build_id;
      identity = i.identity;
      symbols = map symbol_view i.symbols.items;
      altlink = link_view i.altlink;
      debug_sup = link_view i.debug_sup;
      sup = option_map debug_view i.sup;
    } };

    ghost invariant = { λ i. (length (unwrap_or (option_copied i.build_id) []) ≤ 64) × AllFrom i.base i.code.items };
}

/// The sections of debugging information.
#[derive(Clone, Copy, Debug)]
pub struct DebugParts<'a> {
    pub info: Part<'a>,
    pub abbrevs: Part<'a>,
    pub line: Part<'a>,
    pub line_str: Part<'a>,
    pub strs: Part<'a>,
    pub str_offsets: Part<'a>,
    pub addr: Part<'a>,
    pub ranges: Part<'a>,
    pub rnglists: Part<'a>,
    pub debug_frame: Part<'a>,
}

impl<'a> Image<'a> {
    /// The same image with these sections of debugging information in place of its own.
    #[tactic(auto, unfolding(crate::specs::Image::with_sections))]
    pub fn with_sections(self, debug: DebugParts<'a>) -> Image<'a>
        ensures { result ≡ with_sections (debug_view debug.entry) self.entry }
    {
        Image {
            info: debug.info,
            abbrevs: debug.abbrevs,
            line: debug.line,
            line_str: debug.line_str,
            strs: debug.strs,
            str_offsets: debug.str_offsets,
            addr: debug.addr,
            ranges: debug.ranges,
            rnglists: debug.rnglists,
            debug_frame: debug.debug_frame,
            eh_frame: self.eh_frame,
            text: self.text,
            base: self.base,
            code: self.code,
            build_id: self.build_id,
            identity: self.identity,
            symbols: self.symbols,
            altlink: self.altlink,
            debug_sup: self.debug_sup,
            sup: self.sup,
        }
    }

    /// The same image with this base, code, identity and symbols in place of its own.
    pub(crate) fn with_loaded(
        mut self,
        base: u64,
        code: Vec<Span>,
        identity: [u8; 16],
        symbols: Vec<Symbol<'a>>,
    ) -> Image<'a>
        requires { AllFrom base code.items }
        ensures { result ≡ record self.entry { base = base; code = code.items; identity = identity; symbols = map symbol_view symbols.entry.items } }
    {
        self.base = base;
        self.code = code;
        self.identity = identity;
        self.symbols = symbols;
        self
    }

    /// The same image with the sections of debugging information of its supplementary file.
    #[tactic(auto, unfolding(crate::specs::Supplement::with_sup))]
    pub fn with_sup(mut self, sup: &Image<'a>) -> Image<'a>
        ensures { result ≡ with_sup self.entry sup.now }
    {
        self.sup = Some(sup.debug_parts());
        self
    }

    /// The sections of debugging information.
    pub fn debug_parts(&self) -> DebugParts<'a>
        ensures { debug_view result ≡ debug_sections_of self.now }
    {
        DebugParts {
            info: self.info,
            abbrevs: self.abbrevs,
            line: self.line,
            line_str: self.line_str,
            strs: self.strs,
            str_offsets: self.str_offsets,
            addr: self.addr,
            ranges: self.ranges,
            rnglists: self.rnglists,
            debug_frame: self.debug_frame,
        }
    }

    /// The bytes and the address of the first section with this name, or no bytes at address 0.
    pub fn section(&self, which: Sect) -> Part<'a>
        ensures { part_view result ≡ section_of self.now which }
    {
        match which {
            Sect::Info => self.info,
            Sect::Abbrev => self.abbrevs,
            Sect::Line => self.line,
            Sect::LineStr => self.line_str,
            Sect::Str => self.strs,
            Sect::StrOffsets => self.str_offsets,
            Sect::Addr => self.addr,
            Sect::Ranges => self.ranges,
            Sect::Rnglists => self.rnglists,
            Sect::DebugFrame => self.debug_frame,
            Sect::EhFrame => self.eh_frame,
            Sect::Text => self.text,
        }
    }

    /// The ELF address of the first loaded segment, or 0. Addresses in the symbol file are ELF
    /// addresses minus the base.
    pub fn base(&self) -> u64
        ensures { result ≡ self.now.base }
    {
        self.base
    }

    /// The ELF addresses of code, in the order of its sections. None starts below the base.
    pub fn code(&self) -> &[Span]
        ensures ranges { result.now ≡ self.now.code }
        ensures above { AllFrom self.now.base self.now.code }
    {
        self.code.as_slice()
    }

    /// The GNU build id, of 1 to 64 bytes, if there is one.
    pub fn build_id(&self) -> Option<&'a [u8]>
        ensures id { option_copied result ≡ self.now.build_id }
        ensures short { length (unwrap_or self.now.build_id []) ≤ 64 }
    {
        self.build_id
    }

    /// The first 16 bytes of the build id, padded with zeros. Without a build id, the exclusive or
    /// of groups of 16 bytes at the start of `.text`.
    pub fn identity(&self) -> [u8; 16]
        ensures { result ≡ self.now.identity }
    {
        self.identity
    }

    /// The function symbols, in the order of the symbol table.
    pub fn symbols(&self) -> &[Symbol<'a>]
        ensures { map symbol_view result.now ≡ self.now.symbols }
    {
        self.symbols.as_slice()
    }

    /// The content of `.gnu_debugaltlink`, which links to the supplementary file (a GNU extension).
    pub fn altlink(&self) -> LinkSection<'a>
        ensures { link_view result ≡ self.now.altlink }
    {
        self.altlink
    }

    /// The content of `.debug_sup`, which links to the supplementary file or says that this file is
    /// one (DWARF 5, 7.3.6).
    pub fn debug_sup(&self) -> LinkSection<'a>
        ensures { link_view result ≡ self.now.debug_sup }
    {
        self.debug_sup
    }

    /// The sections of the supplementary file, if one was read with this file.
    pub fn sup(&self) -> Option<DebugParts<'a>>
        ensures { option_map debug_view result ≡ self.now.sup }
    {
        self.sup
    }
}

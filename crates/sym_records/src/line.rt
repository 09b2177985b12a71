//! The records of a symbol file.
ghost use Rattle.std.specs.Prelude.{◌≡◌, IfOk};

use std::alloc::Global;
use std::marker::Model;
use sym_edges::{ListOf, OutOfMemory};
use sym_rules::{ByteText, Rules};

/// A range of addresses, relative to the binary's base.
#[derive(Clone, Copy, Debug, PartialEq, Eq)]
pub struct Extent {
    pub address: u64,
    pub size: u64,
}

/// Ranges of addresses, in order.
pub type Extents = ListOf<Extent>;

/// What `MODULE` says about the binary.
#[derive(Debug, Drop)]
pub struct Binary {
    pub os: ByteText,
    pub arch: ByteText,
    pub id: ByteText,
    pub name: ByteText,
}

/// A `Binary` behind one pointer. A file has only one, and records stay small in this way.
#[derive(Debug, Drop)]
pub struct BoxedBinary {
    kept: Box<Binary>,
}

impl Model for BoxedBinary {
    ghost use Rattle.sym_records.specs.declared.line.Binary.{Binary};

    ghost Value = { Binary };

    ghost view = { λ b. b.kept.value };
}

impl BoxedBinary {
    pub fn of(alloc: Global, binary: Binary) -> Result<BoxedBinary, OutOfMemory>
        ensures { IfOk result (λ b. b ≡ binary) }
    {
        Ok(BoxedBinary {
            kept: Box::new(alloc, binary)?,
        })
    }

    pub fn parts(&self) -> &Binary
        ensures { result.now ≡ self.now }
    {
        &self.kept
    }
}

/// A record of a symbol file (Breakpad's symbol_files.md). Addresses are relative to the binary's base.
#[derive(Debug, Drop)]
pub enum SymLine {
    /// `MODULE os arch id name`: the binary.
    Module {
        binary: BoxedBinary,
    },
    /// `INFO text`: more about the binary, for example `CODE_ID` and its build id.
    Info {
        text: ByteText,
    },
    /// `FILE number name`: a source file, and the number that line records and `INLINE` use for it.
    File {
        number: u32,
        name: ByteText,
    },
    /// `INLINE_ORIGIN number name`: a function that is inlined, and the number that `INLINE` uses
    /// for it.
    Origin {
        number: u32,
        name: ByteText,
    },
    /// `FUNC [m] address size params name`: a function, and the size of its parameters on the
    /// stack. `m` says that symbols with different names have this address.
    Func {
        many: bool,
        address: u64,
        size: u64,
        params: u64,
        name: ByteText,
    },
    /// `INLINE level call_line call_file origin ranges`: where a function is inlined into the last `FUNC`, and the
    /// line and file of the call.
    Inline {
        level: u32,
        call_line: u32,
        call_file: u32,
        origin: u32,
        ranges: Extents,
    },
    /// `address size line file`: the line of some bytes of the last `FUNC`. It has no keyword.
    Line {
        address: u64,
        size: u64,
        line: u32,
        file: u32,
    },
    /// `PUBLIC [m] address params name`: a symbol's address, and the size of its parameters on the
    /// stack. `m` says that symbols with different names have this address.
    Public {
        many: bool,
        address: u64,
        params: u64,
        name: ByteText,
    },
    /// `STACK CFI INIT address size rules`: the frame rules for `size` bytes from an address on.
    Init {
        address: u64,
        size: u64,
        rules: Rules,
    },
    /// `STACK CFI address rules`: the frame rules that change at an address, relative to the last
    /// `Init` before it.
    Change {
        address: u64,
        rules: Rules,
    },
}

/// Records in order.
pub type SymLines = ListOf<SymLine>;

//! The memory of a core file, as the rules of frame records read it.
ghost use Rattle.std.specs.Prelude.{◌≡◌};
ghost use Rattle.core_file.specs.Memory.{Memory};
ghost use Rattle.module_stacks.specs.CoreRuns.{core_runs};

use cfi_eval::ByteMemory;
use core_file::Core;
use std::marker::Model;

/// The memory of a core file: its loaded segments, as far as the file has their bytes.
#[derive(Drop)]
pub struct CoreMemory<'c> {
    core: &'c Core<'c>,
}

impl<'c> Model for CoreMemory<'c> {
    ghost use Rattle.core_file.specs.Memory.{Memory};

    ghost Value = { Memory };

    ghost view = { λ m. m.core.now.memory };
}

impl<'c> CoreMemory<'c> {
    pub fn of(core: &'c Core<'c>) -> CoreMemory<'c>
        ensures { result ≡ core.now.memory }
    {
        CoreMemory { core }
    }
}

impl<'c> ByteMemory for CoreMemory<'c> {
    ghost runs = { core_runs };

    #[tactic(auto, using(crate::proofs::RunLemmas::same_byte))]
    fn byte(&self, a: u64) -> Option<u8> {
        self.core.byte(a)
    }
}

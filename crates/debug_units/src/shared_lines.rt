//! Line tables that several units name.
ghost use Rattle.std.specs.Prelude.{◌≡◌, IfOk};

use line_program::LineTable;
use std::alloc::Global;
use std::marker::Model;
use std::sync::Arc;
use sym_edges::OutOfMemory;

/// A line table that many units share and many threads read. It is in memory once.
#[derive(Drop)]
pub struct SharedLines<'a> {
    lines: Arc<LineTable<'a>, Global>,
}

impl<'a> Model for SharedLines<'a> {
    ghost use Rattle.std.specs.Arc.{arc_value};
    ghost use Rattle.line_program.specs.LineMaps.{LineMap};

    ghost Value = { LineMap };

    ghost view = { λ s. arc_value s.lines };
}

impl<'a> SharedLines<'a> {
    pub fn of(alloc: Global, table: LineTable<'a>) -> Result<SharedLines<'a>, OutOfMemory>
        ensures { IfOk result (λ shared. shared ≡ table.entry) }
    {
        let lines = Arc::new(alloc, table)?;
        Ok(SharedLines { lines })
    }

    /// The same table, for one more unit.
    pub fn again(&self) -> Result<SharedLines<'a>, OutOfMemory>
        ensures { IfOk result (λ shared. shared ≡ self.now) }
    {
        let lines = Arc::try_clone(&self.lines)?;
        Ok(SharedLines { lines })
    }

    #[inline]
    pub fn table(&self) -> &LineTable<'a>
        ensures { result.now ≡ self.now }
    {
        &self.lines
    }
}

//! One of the two files, with maps of the rules of its long INITs.
ghost use Rattle.std.specs.Prelude.{◌≡◌, ◌<◌, length, Some, IfOk, IfSome};
ghost use Rattle.cfi_eval.specs.Inits.{init_place};
ghost use Rattle.sym_judge.specs.Forms.{form_by};
ghost use Rattle.sym_judge.specs.internal.Stacks.{form_view};
ghost use Rattle.sym_judge.specs.internal.Tables.{words_in, IsTableAt};

use crate::forms::{Form, form_by, is_cfa};
use crate::held_forms::{HeldForm, held_form, held_forms};
use crate::indexed_files::IndexedFile;
use crate::rule_maps::{RuleMaps, all_maps, maps_at, table_in};
use crate::rule_tables::{RulePlace, RuleTable, table_at, words_of};
use std::alloc::Global;
use std::marker::Model;
use sym_edges::OutOfMemory;
use sym_records::SymLine;
use sym_rules::Target;

/// A file whose frame rules are looked up. Contracts see the records.
#[derive(Drop)]
pub(crate) struct FileRules<'a, 'f> {
    side: &'a IndexedFile<'f>,
    maps: Vec<RuleMaps>,
    forms: Vec<HeldForm<'f>>,
}

impl<'a, 'f> Model for FileRules<'a, 'f> {
    ghost use Rattle.std.specs.Prelude.{List};
    ghost use Rattle.sym_records.specs.declared.line.SymLine.{SymLine};
    ghost use Rattle.sym_judge.specs.internal.HeldForms.{AreHeldForms};
    ghost use Rattle.sym_judge.specs.internal.RuleMaps.{AreAllRuleMaps};

    ghost Value = { List SymLine };

    ghost view = { λ r. r.side.now };

    ghost invariant = { λ r. AreAllRuleMaps r.side.now r.maps.items × AreHeldForms r.side.now r.forms.items };
}

impl<'a, 'f> FileRules<'a, 'f> {
    /// A file without maps of rules.
    pub(crate) fn bare(alloc: Global, side: &'a IndexedFile<'f>) -> FileRules<'a, 'f>
        ensures { result ≡ side.now }
    {
        FileRules {
            side,
            maps: Vec::new(alloc),
            forms: Vec::new(alloc),
        }
    }

    /// A file with the maps of its long INITs.
    pub(crate) fn of(
        alloc: Global,
        side: &'a IndexedFile<'f>,
    ) -> Result<FileRules<'a, 'f>, OutOfMemory>
        ensures { IfOk result (λ ruled. ruled ≡ side.now) }
    {
        let maps = all_maps(alloc, side.lines())?;
        let forms = held_forms(alloc, side.lines())?;
        Ok(FileRules { side, maps, forms })
    }

    pub(crate) fn lines(&self) -> &'f [SymLine]
        ensures { result.now ≡ self.now }
    {
        self.side.lines()
    }

    /// The place of the first `INIT` that covers an address.
    pub(crate) fn init_at(&self, address: u64) -> Option<usize>
        ensures place { result ≡ init_place self.now address }
        ensures within { IfSome result (λ init. init < length self.now) }
    {
        self.side.init_at(address)
    }

    /// The rules at an address; the INIT at the given place is the first that covers it.
    pub(crate) fn table_at(&self, init: usize, address: u64) -> RuleTable
        requires within { init < length self.now }
        requires first { init_place self.now address ≡ Some init }
        ensures { IsTableAt self.now address result }
    {
        match maps_at(self.maps.as_slice(), init) {
            Some(maps) => table_in(maps, address),
            None => table_at(self.side.lines(), init, address),
        }
    }

    /// The form of the rule of a target at a place, or of a missing rule. The form of a long rule is cached.
    pub(crate) fn form_at(
        &self,
        alloc: Global,
        target: &Target,
        place: Option<RulePlace>,
    ) -> Result<Form<'f>, OutOfMemory>
        ensures { IfOk result (λ form. form_view form ≡ form_by target.now (words_in self.now place)) }
    {
        let words = words_of(self.lines(), place);
        if let (Some(at), Some(_)) = (place, words) {
            if let Some(form) = held_form(self.forms.as_slice(), is_cfa(target), at) {
                return Ok(form);
            }
        }
        form_by(alloc, target, words)
    }
}

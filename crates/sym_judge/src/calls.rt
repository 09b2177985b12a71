//! The inlined calls of both files, given by the numbers of the first file.
ghost use Rattle.std.specs.Prelude.{◌≡◌, List, codes, IfOk, IfSome};
ghost use Rattle.std.specs.Bool.{OnTrue};
ghost use Rattle.std.specs.Option.{option_copied, option_and_then, unwrap_or};
ghost use Rattle.sym_records.specs.declared.line.SymLine.{SymLine};
ghost use Rattle.sym_meaning.specs.TextNames.{text_origin, text_path};
ghost use Rattle.sym_lookup.specs.AnswerTexts.{call_at};
ghost use Rattle.sym_judge.specs.declared.aliases.Numbered.TheVariants.{Files, Origins};
ghost use Rattle.sym_judge.specs.internal.Aliases.{name_of, AreAliases};
ghost use Rattle.sym_judge.specs.internal.Chains.{shown, shown_call};

use crate::aliases::{Alias, Numbered, first_in, name_in, name_of};
use crate::indexed_files::IndexedFile;
use crate::names::{CallSpot, Spot, call_at, name_or_omitted};
use clean_names::name_omitted;
use std::marker::Model;

/// A file, and for its numbers of names the least numbers under which the first file has these names. Contracts see the records of both.
#[derive(Drop)]
pub(crate) struct Calls<'b, 'f> {
    own: &'b IndexedFile<'f>,
    side: &'b IndexedFile<'f>,
    paths: Vec<Alias>,
    origins: Vec<Alias>,
}

impl<'b, 'f> Model for Calls<'b, 'f> {
    ghost use Rattle.sym_judge.specs.declared.aliases.Numbered.TheVariants.{Files, Origins};
    ghost use Rattle.sym_judge.specs.internal.Aliases.{AreAliases};
    ghost use Rattle.sym_judge.specs.internal.Blocks.{TwoFiles};

    ghost Value = { TwoFiles };

    ghost view = { λ c. record { own = c.own.now; other = c.side.now } };

    ghost invariant = { λ c. AreAliases Files c.own.now c.side.now c.paths.items × AreAliases Origins c.own.now c.side.now c.origins.items };
}

/// The first file's number for the name that a file has under a number. It is `Some(None)` if there
/// is no name, and `None` if the first file does not have the name.
fn own_number(
    numbered: Numbered,
    side: &IndexedFile<'_>,
    aliases: &[Alias],
    number: Option<u32>,
) -> Option<Option<u32>>
    ensures { IfSome result (λ found. (own : List SymLine) → AreAliases numbered own side.now aliases.now → option_and_then (name_of numbered own) found ≡ option_and_then (name_of numbered side.now) number) }
{
    let Some(number) = number else {
        return Some(None);
    };
    if let Some(first) = first_in(aliases, number) {
        return Some(Some(first));
    }
    match name_of(numbered, side, number) {
        None => Some(None),
        Some(_) => None,
    }
}

/// Whether a name is shown like a missing one.
fn is_omitted(name: Option<&[u8]>) -> bool
    ensures { OnTrue result (unwrap_or (option_copied name.entry) (codes "<name omitted>") ≡ codes "<name omitted>") }
{
    name_or_omitted(name) == name_omitted()
}

/// The number under which the first file has the origin of a number, or none if no name is shown.
fn own_origin(side: &IndexedFile<'_>, origins: &[Alias], origin: Option<u32>) -> Option<Option<u32>>
    ensures { IfSome result (λ found. (own : List SymLine) → AreAliases Origins own side.now origins.now → unwrap_or (option_and_then (text_origin own) found) (codes "<name omitted>") ≡ unwrap_or (option_and_then (text_origin side.now) origin) (codes "<name omitted>")) }
{
    if is_omitted(name_in(Numbered::Origins, side, origin)) {
        return Some(None);
    }
    own_number(Numbered::Origins, side, origins, origin)
}

impl<'b, 'f> Calls<'b, 'f> {
    pub(crate) fn of(
        own: &'b IndexedFile<'f>,
        side: &'b IndexedFile<'f>,
        paths: Vec<Alias>,
        origins: Vec<Alias>,
    ) -> Calls<'b, 'f>
        requires paths { AreAliases Files own.now side.now paths.items }
        requires origins { AreAliases Origins own.now side.now origins.items }
        ensures { result ≡ record { own = own.now; other = side.now } }
    {
        Calls {
            own,
            side,
            paths,
            origins,
        }
    }

    pub(crate) fn side(&self) -> &IndexedFile<'f>
        ensures { result.now ≡ self.now.other }
    {
        self.side
    }

    /// The call of the `INLINE` at a place, if the first file has its names.
    pub(crate) fn at(&self, place: usize) -> Option<CallSpot>
        ensures { IfSome result (λ call. shown_call self.now.own call ≡ shown (call_at self.now.other place)) }
    {
        let call = call_at(self.side, place);
        let origin = own_origin(self.side, self.origins.as_slice(), call.origin)?;
        let file = own_number(
            Numbered::Files,
            self.side,
            self.paths.as_slice(),
            call.spot.file,
        )?;
        Some(CallSpot {
            origin,
            spot: Spot {
                file,
                line: call.spot.line,
            },
        })
    }
}

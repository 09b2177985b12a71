//! The root of a unit.
ghost use Rattle.std.specs.Prelude.{◌≡◌, option_and_then};
ghost use Rattle.std.specs.Option.{option_copied};
ghost use Rattle.abbrev_units.specs.Attributes.{as_place};
ghost use Rattle.abbrev_units.specs.Picks.{value_in};
ghost use Rattle.die_walk.specs.Picking.{root_by, text_by};

use abbrev_units::{Class, Pick, Picks, Sections, Slot, Unit, Value, read_text};
use std::marker::Model;

/// The attributes of a unit's root that hold for the whole unit. `low` is the low address, from
/// which the offsets in lists count. `stmt_list` is the place of the line table, if that is to be
/// read. The bases are those in `.debug_str_offsets`, `.debug_addr` and `.debug_rnglists`.
#[derive(Debug, Drop)]
pub struct Root<'a> {
    pub at: u64,
    pub low: Option<Value>,
    pub stmt_list: Option<u64>,
    pub comp_dir: Option<&'a [u8]>,
    pub str_offsets_base: Option<u64>,
    pub addr_base: Option<u64>,
    pub rnglists_base: Option<u64>,
}

impl<'a> Model for Root<'a> {
    ghost use Rattle.std.specs.Option.{option_copied};
    ghost use Rattle.die_walk.specs.EntryTable.{RootFields};

    ghost Value = { RootFields };

    ghost view = { λ r. record {
      at = r.at;
      low = r.low;
      stmt_list = r.stmt_list;
      comp_dir = option_copied r.comp_dir;
      str_offsets_base = r.str_offsets_base;
      addr_base = r.addr_base;
      rnglists_base = r.rnglists_base;
    } };
}

/// The place in a section that a pick gives.
fn place_of(pick: Pick) -> Option<u64>
    ensures { result ≡ option_and_then as_place (value_in pick.class pick.number) }
{
    match pick.class {
        Class::SecOffset | Class::Num => Some(pick.number),
        _ => None,
    }
}

/// What is held of the text of a value; `base` is the unit's str_offsets_base.
#[tactic(auto, using(abbrev_units::proofs::TextLemmas::text_is))]
fn text_of<'a>(
    sections: &Sections<'a>,
    unit: &Unit,
    base: Option<u64>,
    value: Option<Value>,
) -> Option<&'a [u8]>
    ensures { option_copied result ≡ text_by sections.now unit.now base value }
{
    match value? {
        Value::SupStrAt(place) => match &sections.sup_strs {
            Some(strs) => strs.text(place),
            None => None,
        },
        value => read_text(sections, sections.info, unit.wide, base, value),
    }
}

/// The attributes of the root, given its picks.
#[tactic(auto, unfolding(crate::specs::Picking::root_by))]
pub fn make_root<'a>(sections: &Sections<'a>, unit: &Unit, at: u32, picks: &Picks) -> Root<'a>
    ensures { result ≡ root_by sections.now unit.now at picks.now }
{
    let base = place_of(picks.pick(Slot::StrOffsetsBase));
    Root {
        at: u64::from(at),
        low: picks.pick(Slot::Low).value(),
        stmt_list: if sections.is_sup {
            None
        } else {
            place_of(picks.pick(Slot::StmtList))
        },
        comp_dir: text_of(sections, unit, base, picks.pick(Slot::CompDir).value()),
        str_offsets_base: base,
        addr_base: place_of(picks.pick(Slot::AddrBase)),
        rnglists_base: place_of(picks.pick(Slot::RnglistsBase)),
    }
}

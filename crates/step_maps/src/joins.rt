//! Covers, made from the stops of a map of first items.
ghost use Rattle.std.specs.Prelude.{◌≡◌, ◌-◌, ◌^◌, ◌++◌, [], None, IfOk, OnOk};
ghost use Rattle.step_maps.specs.internal.Joining.{is_same_index, with_cover, covers_from};

use crate::stretch::{Cover, FirstItem};
use std::alloc::{AllocError, Global};

/// One cover for each maximal interval on which the first item's index is the same.
pub(crate) fn joined_covers(
    alloc: Global,
    stops: &[u64],
    values: &[Option<FirstItem>],
) -> Result<Vec<Cover>, AllocError>
    ensures { IfOk result (λ covers. covers.items ≡ covers_from 0 None stops.now values.now) }
{
    let mut covers = Vec::with_capacity(alloc, stops.len())?;
    let mut first: u64 = 0;
    let mut now = None;
    let mut stops_left = stops;
    let mut values_left = values;
    'stops: while let Some((stop, stops_behind)) = stops_left.split_first() {
        let Some((value, values_behind)) = values_left.split_first() else {
            push_cover(&mut covers, first, u64::MAX, now)?;
            return Ok(covers);
        };
        stops_left = stops_behind;
        values_left = values_behind;
        if is_same_index(now, *value) {
            continue;
        }
        push_cover(&mut covers, first, stop.saturating_sub(1), now)?;
        first = *stop;
        now = *value;
    }
    push_cover(&mut covers, first, u64::MAX, now)?;
    Ok(covers)
}

#[inline]
fn is_same_index(x: Option<FirstItem>, y: Option<FirstItem>) -> bool
    ensures { result ≡ is_same_index x y }
{
    match x {
        None => y.is_none(),
        Some(one) => match y {
            None => false,
            Some(other) => one.index == other.index,
        },
    }
}

#[inline]
fn push_cover(
    covers: &mut Vec<Cover>,
    first: u64,
    last: u64,
    now: Option<FirstItem>,
) -> Result<(), AllocError>
    ensures { OnOk result (covers.new.items ≡ covers.old.items ++ with_cover first last now []) }
{
    let Some(item) = now else {
        return Ok(());
    };
    covers.push(Cover {
        first,
        last,
        index: item.index,
        shared: item.shared,
    })?;
    Ok(())
}

//! The sizes of values that are stored by the million.
use die_walk::Die;
use frame_rows::{Row, Rule};
use func_flatten::{LineRun, Piece, PublicAt};
use std::mem::size_of;

const _: () = prove!(size_of::<Die<'_, '_>>() == 16);

const _: () = prove!(size_of::<Piece>() == 32);

const _: () = prove!(size_of::<LineRun>() == 24);

const _: () = prove!(size_of::<PublicAt<'_>>() == 32);

// A rule with the place of an expression is as small as one with an offset.
const _: () = prove!(size_of::<Rule>() == 16);

const _: () = prove!(size_of::<Row>() == 296);

//! The compressed sections, inflated by several workers.
ghost use Rattle.std.specs.Prelude.{◌≡◌, ◌≤◌, ◌<◌, ◌^◌, ◌++◌, ◌-◌, true, None, Some, map, length, slice_index_or, take, drop, IfOk};
ghost use Rattle.std.specs.Option.{option_map};
ghost use Rattle.full_image.specs.StreamView.{stream_view};
ghost use Rattle.full_image.specs.FullImage.{outcome_of, outcomes_of};

use crate::packed::PackedImage;
use crate::stream::Stream;
use crate::supplement::PackedSup;
use inflate::inflate;
use std::alloc::{AllocError, Global};
use std::marker::Model;
use std::thread::Threads;
use sym_edges::{ByteRun, ListOf, OutOfMemory, Stop};
use unit_workers::{Crew, NoGate, UnitJob};

/// What the data of each section inflates to, by the number of the section. It is no bytes if the
/// section is not compressed, and `None` if the data is bad.
pub type Inflations = ListOf<Option<ByteRun>>;

/// What compressed data inflates to.
#[tactic(auto, unfolding(crate::specs::FullImage::outcome_of))]
fn inflate_one(alloc: Global, stream: &Stream<'_>) -> Result<Option<ByteRun>, OutOfMemory>
    ensures { IfOk result (λ out. out ≡ outcome_of (Some (stream_view stream.now))) }
{
    match inflate(alloc, stream.bytes, stream.size) {
        Ok(bytes) => Ok(Some(bytes)),
        Err(Stop::Fault(_)) => Ok(None),
        Err(Stop::NoMemory) => Err(OutOfMemory),
    }
}

/// The outcome for a section that is not compressed: no bytes.
#[tactic(auto, unfolding(crate::specs::FullImage::outcome_of))]
fn nothing(alloc: Global) -> Option<ByteRun>
    ensures { result ≡ outcome_of None }
{
    Some(ByteRun::of(Vec::new(alloc)))
}

/// The job of the workers: to inflate the data of sections, in this order.
#[derive(Drop)]
struct Inflater<'s, 'a> {
    streams: &'s [Option<Stream<'a>>],
}

impl<'s, 'a> Model for Inflater<'s, 'a> {
    ghost use Rattle.std.specs.Prelude.{List, Option, map};
    ghost use Rattle.std.specs.Option.{option_map};
    ghost use Rattle.full_image.specs.Compressed.{Stream};
    ghost use Rattle.full_image.specs.StreamView.{stream_view};

    ghost Value = { List (Option Stream) };

    ghost view = { λ i. map (option_map stream_view) i.streams.now };
}

impl<'s, 'a> Inflater<'s, 'a> {
    fn of(streams: &'s [Option<Stream<'a>>]) -> Inflater<'s, 'a>
        ensures { result ≡ map (option_map stream_view) streams.now }
    {
        Inflater { streams }
    }
}

impl<'s, 'a> UnitJob for Inflater<'s, 'a> {
    type Out = Option<ByteRun>;

    type Scratch = ();

    ghost gives = { λ streams k out. out ≡ outcome_of (slice_index_or streams k None) };

    fn scratch(&self, _alloc: Global) -> Result<(), OutOfMemory> {
        Ok(())
    }

    fn run(
        &self,
        alloc: Global,
        k: usize,
        _scratch: &mut (),
    ) -> Result<Option<ByteRun>, OutOfMemory> {
        match self.streams.get(k) {
            Some(Some(stream)) => inflate_one(alloc, stream),
            _ => Ok(nothing(alloc)),
        }
    }
}

/// The number of the section whose data inflates to the most bytes.
fn longest(streams: &[Option<Stream<'_>>]) -> usize
    ensures { result ≤ length streams.now }
{
    let mut most = 0;
    let mut place = 0;
    'streams: for k in 0..streams.len() {
        if let Some(stream) = &streams[k] {
            if stream.size > most {
                most = stream.size;
                place = k;
            }
        }
    }
    place.min(streams.len())
}

/// The list of data from one place on, and then the members before this place.
fn turned<'a>(
    alloc: Global,
    streams: &[Option<Stream<'a>>],
    first: usize,
) -> Result<Vec<Option<Stream<'a>>>, AllocError>
    requires { first ≤ length streams.now }
    ensures { IfOk result (λ v. v.items ≡ drop first streams.now ++ take first streams.now) }
{
    let (front, rest) = streams.split_at(first);
    let mut turned = Vec::with_capacity(alloc, streams.len())?;
    turned.extend_from_slice(rest)?;
    turned.extend_from_slice(front)?;
    Ok(turned)
}

/// Undoes `turned`: the outcomes from a place on, and then those before it.
fn turned_back(
    mut outs: Vec<Option<ByteRun>>,
    place: usize,
) -> Result<Vec<Option<ByteRun>>, AllocError>
    requires { place ≤ length outs.items }
    ensures { IfOk result (λ v. v.items ≡ drop place outs.items ++ take place outs.items) }
{
    let mut ordered = outs.split_off(place)?;
    ordered.append(&mut outs)?;
    Ok(ordered)
}

/// Inflates the data of sections, beginning with the one that inflates to the most bytes.
fn inflate_streams<R: Threads + Sync>(
    crew: &Crew<'_, R>,
    streams: &[Option<Stream<'_>>],
) -> Result<Inflations, OutOfMemory>
    requires few { length streams.now < 2 ^ 16 }
    ensures { IfOk result (λ i. i ≡ map outcome_of (map (option_map stream_view) streams.now)) }
{
    let first = longest(streams);
    let turned = turned(crew.alloc(), streams, first)?;
    let inflater = Inflater::of(&turned);
    let outs = crew.run(&inflater, &NoGate, turned.len())?;
    let place = outs.len() - first;
    Ok(Inflations::of(turned_back(outs, place)?))
}

/// Inflates the compressed sections of a file by a crew of workers, beginning with the one that
/// inflates to the most bytes.
#[tactic(auto, unfolding(crate::specs::FullImage::outcomes_of))]
pub fn inflate_sections<R: Threads + Sync>(
    crew: &Crew<'_, R>,
    packed: &PackedImage<'_>,
) -> Result<Inflations, OutOfMemory>
    ensures { IfOk result (λ i. i ≡ outcomes_of packed.now) }
{
    inflate_streams(crew, packed.streams())
}

/// Inflates the compressed sections of a supplementary file in the same way.
#[tactic(auto, unfolding(crate::specs::FullImage::outcomes_of))]
pub fn inflate_supplement<R: Threads + Sync>(
    crew: &Crew<'_, R>,
    packed: &PackedSup<'_>,
) -> Result<Inflations, OutOfMemory>
    ensures { IfOk result (λ i. i ≡ outcomes_of (record { full = true; file = packed.now })) }
{
    inflate_streams(crew, packed.streams())
}

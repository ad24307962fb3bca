// The checks of the texts that a source is begun with.
ghost use Rattle.std.specs.Prelude.{◌≡◌, ◌≢◌, ℕ, List, None, true, map, Ok, Err, length, IfOk, IfErr, OnOk};
ghost use Rattle.json_fields.specs.Answer.{IsAnswer, IsOnly};
ghost use Rattle.outside.specs.declared.status.Status.TheVariants as status;
ghost use Rattle.state_kinds.specs.Store.{is_global_kind};
ghost use Rattle.state_kinds.specs.StateLists.{has_kind};
ghost use Rattle.source_lines.specs.Begins.{AreStarts, BeginsAs, blob_in, first_unknown, is_of_text, knows_stream, no_blobs as blobs_of_none, told_blobs};

use crate::StreamSource;
use airbyte_message::{StateKind, StateMsg};
use basics::{Bytes, Copies, NoMemory, Sequence, StreamId, StreamNo};
use catalog::{Configured, read_configured};
use outside::{CatalogFault, StateFault, Status};
use state_kinds::read_list;
use std::alloc::Global;

// Whether a source has a stream of this id; one with a namespace is never named.
fn knows_id<S: StreamSource>(source: &S, id: &StreamId) -> bool
    ensures { result ≡ knows_stream (S.seen source.now).is_known id.now }
{
    match &id.namespace {
        Some(_namespace) => false,
        None => source.knows(&id.name),
    }
}

// The number of the first stream that a source does not know.
fn unknown_stream<S: StreamSource>(source: &S, streams: &Configured) -> Option<StreamNo>
    ensures { result ≡ first_unknown (S.seen source.now).is_known 0 streams.now }
{
    for number in 0..streams.len() {
        if !knows_id(source, &streams.stream(number).id) {
            return Some(number);
        }
    }
    None
}

// Whether one of the states is of all streams.
fn has_global(states: &[StateMsg]) -> bool
    ensures { result ≡ has_kind is_global_kind states.now }
{
    states.iter().any(|state| is_global(state.kind()))
}

// Whether a state is of all streams.
fn is_global(kind: &StateKind) -> bool
    ensures { result ≡ is_global_kind kind.now }
{
    matches!(kind, StateKind::Global { .. })
}

// No blob for so many streams.
fn no_blobs(alloc: Global, count: u32) -> Result<Sequence<Option<Bytes>>, NoMemory>
    ensures { IfOk result (λ blobs. blobs ≡ blobs_of_none count) }
{
    let mut blobs = Sequence::with_capacity(alloc, count as usize)?;
    for _i in 0..count {
        blobs.push(None)?;
    }
    Ok(blobs)
}

// The blob of each stream that the states have.
fn blobs_of(
    alloc: Global,
    states: &[StateMsg],
    streams: &Configured,
) -> Result<Sequence<Option<Bytes>>, NoMemory>
    ensures { IfOk result (λ blobs. blobs ≡ map (λ stream. blob_in states.now stream.id) streams.now) }
{
    let mut blobs = no_blobs(alloc, streams.len())?;
    for state in states {
        put_blob(alloc, state.kind(), streams, &mut blobs)?;
    }
    Ok(blobs)
}

// Puts what a state says to the stream that it is of.
fn put_blob(
    alloc: Global,
    kind: &StateKind,
    streams: &Configured,
    blobs: &mut Sequence<Option<Bytes>>,
) -> Result<(), NoMemory>
    requires { length blobs.old ≡ length streams.now }
    ensures { OnOk result (blobs.new ≡ told_blobs kind.now streams.now blobs.old) }
{
    let StateKind::Stream { id, blob } = kind else {
        return Ok(());
    };
    if let Some(number) = streams.find(id) {
        blobs.set(number as usize, blob.copy(alloc)?);
    }
    Ok(())
}

// Where each stream starts with these states.
fn starts_of<S: StreamSource>(
    alloc: Global,
    states: &[StateMsg],
    streams: &Configured,
) -> Result<Option<Sequence<S::Start>>, NoMemory>
    ensures { IfOk result (IsAnswer (AreStarts S.Starts states.now streams.now)) }
{
    let blobs = blobs_of(alloc, states, streams)?;
    let mut starts = Sequence::with_capacity(alloc, blobs.len())?;
    for number in 0..streams.len() {
        let stream = streams.stream(number);
        let Some(start) = S::start_of(alloc, stream, blobs.at(number as usize))? else {
            return Ok(None);
        };
        starts.push(start)?;
    }
    Ok(Some(starts))
}

/// Reads what a source is begun with: the streams, and where each starts. The checks go in this order: the catalog's text; that
/// the source knows each stream, of which one with a namespace is never named (`Missing`); the text of the states; that none is
/// of all streams (`Blob`); and each stream's blob. States of other streams are passed over.
pub fn begin_checks<S: StreamSource>(
    alloc: Global,
    source: &S,
    catalog: &[u8],
    states: &[u8],
) -> Result<(Configured, Sequence<S::Start>), Status>
    ensures read { IfOk result (λ begun. IsOnly (BeginsAs S.Starts (S.seen source.now).is_known catalog.now states.now) (Ok (begun.0, begun.1))) }
    ensures refused { IfErr result (λ why. why ≢ status.NoMemory → IsOnly (BeginsAs S.Starts (S.seen source.now).is_known catalog.now states.now) (Err why)) }
    ensures of_text { IfErr result (λ why. is_of_text why ≡ true) }
{
    let streams = read_configured(alloc, catalog)?;
    if let Some(stream) = unknown_stream(source, &streams) {
        return Err(Status::BadCatalog(CatalogFault::Missing { stream }));
    }
    let states = read_list(alloc, states)?;
    if has_global(states.as_slice()) {
        return Err(Status::BadState(StateFault::Blob));
    }
    match starts_of::<S>(alloc, states.as_slice(), &streams) {
        Ok(Some(starts)) => Ok((streams, starts)),
        Ok(None) => Err(Status::BadState(StateFault::Blob)),
        Err(NoMemory) => Err(Status::NoMemory),
    }
}

// Which states are the same.
ghost use Rattle.std.specs.Prelude.{◌≡◌, ◌↔◌, IfOk, IsTrue, map};
ghost use Rattle.airbyte_message.specs.Same.{IsSameKind, Same, SameLaws, blob_form, part_form};

use crate::{Raw, StateKind, StateMsg, StreamBlob, StreamBlobList};
use basics::{Bytes, Name, NoMemory, StreamId};
use json_squeeze::squeeze;
use std::alloc::Global;

// Whether two namespaces are equal, or both absent.
fn is_same_namespace(a: &Option<Name>, b: &Option<Name>) -> bool
    ensures { IsTrue result ↔ (a.now ≡ b.now) }
{
    match a {
        Some(name) => match b {
            Some(other) => name.as_str() == other.as_str(),
            None => false,
        },
        None => b.is_none(),
    }
}

// Whether two streams are one.
fn is_same_id(a: &StreamId, b: &StreamId) -> bool
    ensures { IsTrue result ↔ (a.now ≡ b.now) }
{
    a.name.as_str() == b.name.as_str() && is_same_namespace(&a.namespace, &b.namespace)
}

// What counts of a blob.
fn form_of(alloc: Global, blob: &Option<Raw>) -> Result<Bytes, NoMemory>
    ensures { IfOk result (λ form. form ≡ blob_form blob.now) }
{
    match blob {
        Some(text) => squeeze(alloc, text.as_slice()),
        None => Bytes::copy_of(alloc, b"null"),
    }
}

// Whether two blobs count as one.
fn is_same_blob(alloc: Global, a: &Option<Raw>, b: &Option<Raw>) -> Result<bool, NoMemory>
    ensures { IfOk result (λ is. IsTrue is ↔ (blob_form a.now ≡ blob_form b.now)) }
{
    let form = form_of(alloc, a)?;
    let other = form_of(alloc, b)?;
    Ok(form.as_slice() == other.as_slice())
}

// Whether two streams with their blobs count as one.
fn is_same_part(alloc: Global, a: &StreamBlob, b: &StreamBlob) -> Result<bool, NoMemory>
    ensures { IfOk result (λ is. IsTrue is ↔ (part_form a.now ≡ part_form b.now)) }
{
    if !is_same_id(&a.id, &b.id) {
        return Ok(false);
    }
    is_same_blob(alloc, &a.blob, &b.blob)
}

// Whether the streams with their blobs are the same, in the same order.
fn are_same_parts(
    alloc: Global,
    parts: &[StreamBlob],
    others: &[StreamBlob],
) -> Result<bool, NoMemory>
    ensures { IfOk result (λ is. IsTrue is ↔ (map part_form parts.now ≡ map part_form others.now)) }
{
    if parts.len() != others.len() {
        return Ok(false);
    }
    for (i, part) in parts.iter().enumerate() {
        if !is_same_part(alloc, part, &others[i])? {
            return Ok(false);
        }
    }
    Ok(true)
}

// Whether a state is of this stream with this blob.
fn is_stream_state(
    alloc: Global,
    kind: &StateKind,
    id: &StreamId,
    blob: &Option<Raw>,
) -> Result<bool, NoMemory>
    ensures { IfOk result (λ is. IsTrue is ↔ IsSameKind (StateKind.Stream id.now blob.now) kind.now) }
{
    match kind {
        StateKind::Stream {
            id: other_id,
            blob: other_blob,
        } if is_same_id(id, other_id) => is_same_blob(alloc, blob, other_blob),
        _ => Ok(false),
    }
}

// Whether a state is of these streams with these blobs.
fn is_global_state(
    alloc: Global,
    kind: &StateKind,
    shared: &Option<Raw>,
    streams: &StreamBlobList,
) -> Result<bool, NoMemory>
    ensures { IfOk result (λ is. IsTrue is ↔ IsSameKind (StateKind.Global shared.now streams.now) kind.now) }
{
    match kind {
        StateKind::Global {
            shared: other_shared,
            streams: others,
        } => {
            if !is_same_blob(alloc, shared, other_shared)? {
                return Ok(false);
            }
            are_same_parts(alloc, streams.as_slice(), others.as_slice())
        }
        _ => Ok(false),
    }
}

/// Whether two states are the same: of one stream or of all streams, with the same blobs. White space outside
/// strings does not count, an absent blob counts as `null`, and record counts are not compared. A Legacy state is
/// the same as nothing, not even as itself.
pub fn same_state(alloc: Global, a: &StateMsg, b: &StateMsg) -> Result<bool, NoMemory>
    ensures { IfOk result (λ is. IsTrue is ↔ Same a.now b.now) }
{
    match a.kind() {
        StateKind::Stream { id, blob } => is_stream_state(alloc, b.kind(), id, blob),
        StateKind::Global { shared, streams } => is_global_state(alloc, b.kind(), shared, streams),
        StateKind::Legacy => Ok(false),
    }
}

/// A law: a state that is not Legacy is the same as itself, and being the same goes both ways and from one to the next.
pub fn same_laws()
    ensures { SameLaws }
{}

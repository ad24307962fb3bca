// Reading a configured catalog.
ghost use Rattle.std.specs.Prelude.{◌≡◌, ◌≢◌, ◌<◌, ◌≤◌, [], ◌∷◌, ◌++◌, All, Result, Ok, Err, IfErr, IfOk, OnOk, OnErr, length};
ghost use Rattle.json_span.specs.Members.{IsValue};
ghost use Rattle.json_span.specs.Elements.{AreElements, IsElementOf};
ghost use Rattle.json_fields.specs.Answer.{IsOnly};
ghost use Rattle.basics.specs.declared.limits.TheConstants.{MOST_STREAMS};
ghost use Rattle.catalog.specs.Configured.{entry_depth, list_depth, NestsAtMost};
ghost use Rattle.catalog.specs.Reading.{ReadsAs, ReadsEntries, ReadsEntry, TakesEntry};

use crate::Configured;
use crate::judge::judged;
use crate::members::entry_of;
use basics::{Bytes, MOST_STREAMS};
use json_fields::{cut_with_list, elements_at, place_of};
use json_span::{DeepMembers, Span};
use outside::CatalogFault;
use std::alloc::Global;

// Reads one entry, behind those that were read.
fn read_entry(
    alloc: Global,
    levels: &mut DeepMembers,
    configured: &mut Configured,
    text: &[u8],
) -> Result<(), CatalogFault>
    requires room { length configured.old < MOST_STREAMS }
    requires value { IsValue text.now }
    requires nests { NestsAtMost entry_depth text.now }
    ensures ok { OnOk result (TakesEntry configured.old text.now configured.new) }
    ensures refused { IfErr result (λ fault. fault ≢ CatalogFault.NoMemory → ReadsEntry configured.old text.now (Err fault)) }
{
    let n = configured.len();
    let Some(entry) = entry_of(alloc, levels, text)? else {
        return Err(CatalogFault::Missing { stream: n });
    };
    let stream = judged(n, entry, Bytes::copy_of(alloc, text)?)?;
    if configured.add(alloc, stream)? {
        Ok(())
    } else {
        Err(CatalogFault::Twice { stream: n })
    }
}

// Reads the entries of an array, which stand at these places.
fn read_entries(alloc: Global, list: &[u8], spans: &[Span]) -> Result<Configured, CatalogFault>
    requires few { length spans.now ≤ MOST_STREAMS }
    requires parts { All (IsElementOf list.now) spans.now }
    requires nests { AreElements list_depth list.now spans.now }
    ensures read { IfOk result (λ configured. ReadsEntries list.now [] spans.now (Ok configured)) }
    ensures refused { IfErr result (λ fault. fault ≢ CatalogFault.NoMemory → ReadsEntries list.now [] spans.now (Err fault)) }
{
    let mut levels = DeepMembers::new(alloc);
    let mut configured = Configured::empty(alloc);
    for span in spans {
        read_entry(alloc, &mut levels, &mut configured, span.of(list))?;
    }
    Ok(configured)
}

/// Reads a configured catalog: an object with an array `streams`. The streams' number is judged first, and then each entry,
/// in order.
pub fn read_configured(alloc: Global, text: &[u8]) -> Result<Configured, CatalogFault>
    ensures read { IfOk result (λ configured. IsOnly (ReadsAs text.now) (Ok configured)) }
    ensures refused { IfErr result (λ fault. fault ≢ CatalogFault.NoMemory → IsOnly (ReadsAs text.now) (Err fault)) }
{
    let Some(cut) = cut_with_list(alloc, text)? else {
        return Err(CatalogFault::NotJson);
    };
    let members = cut.members.as_slice();
    let Some(place) = place_of(alloc, text, members, "streams")? else {
        return Err(CatalogFault::NotJson);
    };
    let member = members[place];
    let list = member.value.of(text);
    let Some(spans) = elements_at(alloc, list, cut, place)? else {
        return Err(CatalogFault::NotJson);
    };
    if spans.len() > MOST_STREAMS {
        return Err(CatalogFault::TooMany);
    }
    read_entries(alloc, list, spans.as_slice())
}

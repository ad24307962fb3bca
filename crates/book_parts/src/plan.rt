// The plan of a load.
ghost use Rattle.std.specs.Prelude.{◌≡◌, ◌≢◌, ◌<◌, IfErr, IfNone, IfOk, IfSome, length, slice_get, Some};
ghost use Rattle.catalog.specs.Reading.{ids_of};
ghost use Rattle.outside.specs.Dock.{HasOwnIds};
ghost use Rattle.outside.specs.declared.faults.CatalogFault.TheVariants as fault;
ghost use Rattle.book_rules.specs.Starts.{AreColumnsOf, ArePlansOf, HasGens, IsPlanOf, LacksFirst, LacksGeneration};

use basics::{Copies, NoMemory, Sequence, StreamNo};
use catalog::{ConfStream, Configured, DestMode, Gen};
use column_types::{Columns, columns_of};
use generation_rules::{must_hide, next_generation};
use outside::{CatalogFault, LoadPlan, Marks, MarksList, StreamIdList, StreamPlan};
use std::alloc::Global;

// The generation and the minimum generation of a stream in the load; `None` exactly where none is left.
fn gens_of(stream: &ConfStream, marks: &Marks) -> Option<Gen>
    ensures some { IfSome result (HasGens marks.now stream.now) }
    ensures none { IfNone result (LacksGeneration marks.now stream.now) }
{
    match (stream.generation, stream.dest) {
        (Some(generation), _) => Some(Gen {
            generation,
            minimum: stream.minimum,
        }),
        (None, DestMode::Overwrite) => {
            let generation = next_generation(None, marks.greatest)?;
            Some(Gen {
                generation,
                minimum: generation,
            })
        }
        (None, _) => Some(Gen {
            generation: 0,
            minimum: stream.minimum,
        }),
    }
}

// The plan of a stream.
fn plan_of(
    alloc: Global,
    number: StreamNo,
    stream: &ConfStream,
    marks: &Marks,
) -> Result<StreamPlan, CatalogFault>
    ensures plan { IfOk result (IsPlanOf marks.now stream.now) }
    ensures spent { IfErr result (λ why. why ≢ fault.NoMemory → (why ≡ fault.GenerationsSpent number) × LacksGeneration marks.now stream.now) }
{
    let Some(own) = gens_of(stream, marks) else {
        return Err(CatalogFault::GenerationsSpent { stream: number });
    };
    Ok(StreamPlan {
        id: stream.id.copy(alloc)?,
        dedup: stream.dest == DestMode::AppendDedup,
        generation: own.generation,
        minimum: own.minimum,
        hidden: must_hide(marks.floor, own.minimum),
    })
}

/// The plan of a load, by the marks that the store has of the catalog's streams.
pub fn plans_of(
    alloc: Global,
    catalog: &Configured,
    marks: &MarksList,
) -> Result<LoadPlan, CatalogFault>
    requires { length marks.now ≡ length catalog.now }
    ensures plans { IfOk result (ArePlansOf marks.now catalog.now) }
    ensures own_ids { IfOk result HasOwnIds }
    ensures spent { IfErr result (λ why. why ≢ fault.NoMemory → LacksFirst why marks.now catalog.now) }
{
    let mut plans = LoadPlan::new(alloc);
    for number in 0..catalog.len() {
        match plan_of(
            alloc,
            number,
            catalog.stream(number),
            marks.at(number as usize),
        ) {
            Ok(plan) => plans.push(plan)?,
            Err(why) => return Err(why),
        }
    }
    Ok(plans)
}

/// The columns of each stream.
pub fn columns_in(alloc: Global, catalog: &Configured) -> Result<Sequence<Columns>, NoMemory>
    ensures { IfOk result (AreColumnsOf catalog.now) }
{
    let mut columns = Sequence::with_capacity(alloc, catalog.len() as usize)?;
    for number in 0..catalog.len() {
        columns.push(columns_of(alloc, catalog.stream(number).schema.as_slice())?)?;
    }
    Ok(columns)
}

/// The ids of the streams.
pub fn ids_in(alloc: Global, catalog: &Configured) -> Result<StreamIdList, NoMemory>
    ensures { IfOk result (λ ids. ids ≡ ids_of catalog.now) }
{
    let mut ids = StreamIdList::with_capacity(alloc, catalog.len() as usize)?;
    for number in 0..catalog.len() {
        ids.push(catalog.stream(number).id.copy(alloc)?)?;
    }
    Ok(ids)
}

// A load that was opened.
ghost use Rattle.std.specs.Prelude.{◌≡◌, ◌<◌, length, slice_get, IfOk, IsTrue, Some};
ghost use Rattle.load_rules.specs.Engine.{PlansFit};
ghost use Rattle.book_rules.specs.Starts.{AreColumnsOf};
ghost use Rattle.book_parts.specs.Opened.{HasPlaces, IsNumbered, IsPrepPlan};

use crate::same::{are_columns, are_paths, is_place};
use basics::{Copies, NoMemory, Sequence, StreamNo};
use batch_prep::PrepPlan;
use catalog::{ConfStream, Configured};
use column_types::Columns;
use outside::{Load, LoadPlan, StreamPlan};
use std::alloc::Global;
use std::marker::Model;

/// A load that was opened: its catalog, its numbers, its plan, and the columns of each stream.
#[derive(Drop)]
pub struct Opened {
    catalog: Configured,
    load: Load,
    plan: LoadPlan,
    columns: Sequence<Columns>,
}

impl Model for Opened {
    ghost use Rattle.load_rules.specs.Engine.{PlansFit};
    ghost use Rattle.book_rules.specs.Starts.{AreColumnsOf};
    ghost use Rattle.book_parts.specs.Opened.{OpenedView};

    ghost Value = { OpenedView };

    ghost view = { λ opened. record { catalog = opened.catalog; opening = record { load = opened.load.load; moment = opened.load.moment; plan = opened.plan } } };

    ghost invariant = { λ opened. PlansFit opened.catalog opened.plan × AreColumnsOf opened.catalog opened.columns };
}

impl Opened {
    /// A load of this catalog.
    pub fn new(catalog: Configured, load: Load, plan: LoadPlan, columns: Sequence<Columns>) -> Self
        requires plan { PlansFit catalog plan }
        requires columns { AreColumnsOf catalog columns }
        ensures { result ≡ record { catalog = catalog; opening = record { load = load.load; moment = load.moment; plan = plan } } }
    {
        Opened {
            catalog,
            load,
            plan,
            columns,
        }
    }

    /// Its catalog.
    pub fn catalog(&self) -> &Configured
        ensures { result.now ≡ self.now.catalog }
    {
        &self.catalog
    }

    /// What the load does with a stream.
    pub fn plan(&self, stream: StreamNo) -> &StreamPlan
        requires { stream < length self.now.opening.plan }
        ensures { slice_get self.now.opening.plan stream ≡ Some result.now }
    {
        self.plan.at(stream as usize)
    }

    /// How the rows of a stream are made.
    pub fn prep_plan(&self, alloc: Global, stream: StreamNo) -> Result<PrepPlan, NoMemory>
        requires { stream < length self.now.catalog }
        ensures { IfOk result (IsPrepPlan self.now stream) }
    {
        let own = self.catalog.stream(stream);
        Ok(PrepPlan {
            stream,
            load: self.load.load,
            moment: self.load.moment,
            generation: self.plan.at(stream as usize).generation,
            columns: self.columns.at(stream as usize).copy(alloc)?,
            key: own.key.copy(alloc)?,
            cursor: own.cursor.copy(alloc)?,
        })
    }

    /// Whether the rows of a stream are made so.
    pub fn is_plan(&self, stream: StreamNo, plan: &PrepPlan) -> bool
        requires { stream < length self.now.catalog }
        ensures { IsTrue result → IsPrepPlan self.now stream plan.now }
    {
        let own = self.catalog.stream(stream);
        let generation = self.plan.at(stream as usize).generation;
        let columns = self.columns.at(stream as usize);
        is_numbered(plan, stream, self.load, generation) && has_places(plan, columns, own)
    }
}

// Whether rows are made with these numbers.
fn is_numbered(plan: &PrepPlan, stream: StreamNo, load: Load, generation: u64) -> bool
    ensures { IsTrue result → IsNumbered stream load generation plan.now }
{
    plan.stream == stream
        && plan.load == load.load
        && plan.moment == load.moment
        && plan.generation == generation
}

// Whether rows are made with these columns, and the stream's own key and cursor.
fn has_places(plan: &PrepPlan, columns: &Columns, own: &ConfStream) -> bool
    ensures { IsTrue result → HasPlaces columns.now own.now plan.now }
{
    are_columns(plan.columns.as_slice(), columns.as_slice())
        && are_paths(plan.key.as_slice(), own.key.as_slice())
        && is_place(&plan.cursor, &own.cursor)
}

// How the parts of a book come about.
ghost use Rattle.std.specs.Prelude.{◌≡◌, ◌≤◌, None, false, IfErr, IfOk, replicate};
ghost use Rattle.catalog.specs.Configured.{AreConfigured};
ghost use Rattle.book_rules.specs.Starts.{AreColumnsOf, RefusedBy, Starts};
ghost use Rattle.book_parts.specs.Starting.{HasRoom, Opens, PlansLoad, store_stop};

use crate::opened::Opened;
use crate::parts::Parts;
use crate::plan::{columns_in, ids_in, plans_of};
use airbyte_message::{MessageReader, StreamStatus};
use basics::{NoMemory, Sequence};
use book_queue::BookQueue;
use book_rules::Tally;
use catalog::Configured;
use column_types::Columns;
use outside::{Dock, Fault, Limits, LoadPlan, Status};
use state_gate::Gate;
use std::alloc::Global;

// The status of a fault of the store.
fn store_status(why: Fault) -> Status
    ensures { result ≡ store_stop why }
{
    match why {
        Fault::Failed => Status::StoreFault,
        Fault::NoMemory => Status::NoMemory,
    }
}

// The plan of a load, by the marks that the dock's store has of the catalog's streams.
fn plan_load<D: Dock>(alloc: Global, dock: &mut D, catalog: &Configured) -> Result<LoadPlan, Status>
    ensures ok { IfOk result (PlansLoad catalog.now (D.seen dock.old) (D.seen dock.new)) }
    ensures refused { IfErr result (λ why. RefusedBy why catalog.now (D.seen dock.old) (D.seen dock.new)) }
{
    let Ok(ids) = ids_in(alloc, catalog) else {
        return Err(Status::NoMemory);
    };
    match dock.read_marks(alloc, &ids) {
        Ok(marks) => Ok(plans_of(alloc, catalog, &marks)?),
        Err(why) => Err(store_status(why)),
    }
}

// A load is opened in the dock's store, of the catalog's streams.
fn open_load<D: Dock>(
    alloc: Global,
    dock: &mut D,
    catalog: Configured,
    columns: Sequence<Columns>,
) -> Result<Opened, Status>
    requires { AreColumnsOf catalog columns }
    ensures ok { IfOk result (Opens catalog (D.seen dock.old) (D.seen dock.new)) }
    ensures refused { IfErr result (λ why. RefusedBy why catalog (D.seen dock.old) (D.seen dock.new)) }
{
    let plan = plan_load(alloc, dock, &catalog)?;
    match dock.open_load(&plan) {
        Ok(load) => Ok(Opened::new(catalog, load, plan, columns)),
        Err(why) => Err(store_status(why)),
    }
}

// What a new book takes memory for, besides the plan of its load.
#[derive(Drop)]
pub struct Room {
    pub catalog: Configured,
    pub columns: Sequence<Columns>,
    pub gate: Gate,
    pub queue: BookQueue,
    pub statuses: Vec<Option<StreamStatus>>,
    pub shown: Vec<bool>,
}

// No status of so many streams.
fn no_statuses(alloc: Global, streams: u32) -> Result<Vec<Option<StreamStatus>>, NoMemory>
    ensures { IfOk result (λ statuses. statuses.items ≡ replicate streams None) }
{
    Ok(vec![in alloc; None; streams as usize]?)
}

// That none of so many streams was shown.
fn none_shown(alloc: Global, streams: u32) -> Result<Vec<bool>, NoMemory>
    ensures { IfOk result (λ shown. shown.items ≡ replicate streams false) }
{
    Ok(vec![in alloc; false; streams as usize]?)
}

// A copy of the catalog, and room for so much.
fn room_for(alloc: Global, configured: &Configured, limits: Limits) -> Result<Room, NoMemory>
    requires { 1 ≤ limits.batch }
    ensures room { IfOk result (HasRoom configured.now limits) }
    ensures configured { AreConfigured configured.now }
{
    let streams = configured.len();
    Ok(Room {
        catalog: configured.part(alloc, 1, 0)?,
        columns: columns_in(alloc, configured)?,
        gate: Gate::new(alloc, streams)?,
        queue: BookQueue::new(alloc, streams, limits.slots, limits.bytes, limits.batch)?,
        statuses: no_statuses(alloc, streams)?,
        shown: none_shown(alloc, streams)?,
    })
}

// The tally of a new book.
fn new_tally() -> Tally
    ensures { result ≡ record { lines = 0; emitted = 0; lanes = None; is_ended = false; broken = None } }
{
    Tally {
        lines: 0,
        emitted: 0,
        lanes: None,
        is_ended: false,
        broken: None,
    }
}

/// The parts of a new book of a load, which is opened in the dock's store. All that takes memory comes before it is opened; the dock
/// comes back where none was.
pub fn new_parts<D: Dock>(
    alloc: Global,
    mut dock: D,
    configured: &Configured,
    limits: Limits,
) -> Result<Parts<D>, (D, Status)>
    requires { 1 ≤ limits.batch }
    ensures ok { IfOk result (Starts configured.now limits (D.seen dock)) }
    ensures configured { AreConfigured configured.now }
    ensures refused { IfErr result (λ back. RefusedBy back.1 configured.now (D.seen dock) (D.seen back.0)) }
{
    let room = match room_for(alloc, configured, limits) {
        Ok(room) => room,
        Err(NoMemory) => return Err((dock, Status::NoMemory)),
    };
    match open_load(alloc, &mut dock, room.catalog, room.columns) {
        Ok(opened) => Ok(Parts {
            alloc,
            dock,
            opened,
            gate: room.gate,
            queue: room.queue,
            reader: MessageReader::new(alloc),
            tally: new_tally(),
            statuses: room.statuses,
            shown: room.shown,
            limits,
        }),
        Err(why) => Err((dock, why)),
    }
}

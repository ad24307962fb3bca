// What the text of a destination's configuration says.
ghost use Rattle.std.specs.Prelude.{◌≢◌, ◌≡◌, ◌^◌, ◌≤◌, Err, IfErr, IfOk, MatchOption, Ok};
ghost use Rattle.std.specs.Option.{option_copied};
ghost use Rattle.json_fields.specs.Answer.{IsAnswer, IsOnly};
ghost use Rattle.outside.specs.declared.faults.ConfigFault.TheVariants as fault;
ghost use Rattle.dest_config.specs.Config.{HasNumbers, ReadsConfig, Says, SaysLimits, place_name};

use basics::{Name, NoMemory};
use json_fields::{cut, optional_number, text_field};
use json_scalar::whole_of;
use json_span::MAX_DEPTH;
use outside::{ConfigFault, Limits};
use std::alloc::Global;

const USUAL_SLOTS: u64 = 4_096;

const USUAL_BYTES: u64 = 67_108_864;

const USUAL_BATCH: u64 = 1_000;

const USUAL_WORKERS: u64 = 2;

const PAGE: u32 = 1_000;

/// What a destination writes.
#[derive(Clone, Copy, Debug, PartialEq, Eq)]
pub enum DestKind {
    /// Tables of a database.
    Tables,
    /// Files in a folder.
    Files,
}

impl DestKind {
    // The member that names the place.
    fn place_name(self) -> &'static str
        ensures { result.now ≡ place_name self }
    {
        match self {
            DestKind::Tables => "database",
            DestKind::Files => "folder",
        }
    }
}

/// Where a destination writes, and how much it may hold at once.
#[derive(Debug, Drop)]
pub struct DestConfig {
    /// The path of the database, or of the folder.
    pub place: Name,
    pub limits: Limits,
}

// The number that a member says, or the usual one; `None` where it is no whole number below 2^63.
fn said(number: Option<&[u8]>, usual: u64) -> Option<u64>
    ensures { IsAnswer (Says usual (option_copied number.entry)) result }
{
    match number {
        Some(text) => whole_of(text),
        None => Some(usual),
    }
}

// A number that fits.
fn narrow(number: u64) -> Option<u32>
    ensures { MatchOption result (2 ^ 32 ≤ number) (λ same. same ≡ number) }
{
    u32::try_from(number).ok()
}

// The limits with these numbers, `None` where one is out of its range.
fn limits_with(slots: u64, bytes: u64, batch: u64, workers: u64) -> Option<Limits>
    ensures { IsAnswer (HasNumbers slots bytes batch workers) result }
{
    let slots = narrow(slots)?;
    let batch = narrow(batch)?;
    let workers = narrow(workers)?;
    let limits = Limits {
        slots,
        bytes,
        batch,
        workers,
        page: PAGE,
    };
    if limits.are_limits() {
        Some(limits)
    } else {
        None
    }
}

// The limits that the members of these names say, `None` where one of them is out of its range.
fn limits_of(
    slots: Option<&[u8]>,
    bytes: Option<&[u8]>,
    batch: Option<&[u8]>,
    workers: Option<&[u8]>,
) -> Option<Limits>
    ensures { IsAnswer (SaysLimits (option_copied slots.entry) (option_copied bytes.entry) (option_copied batch.entry) (option_copied workers.entry)) result }
{
    let slots = said(slots, USUAL_SLOTS)?;
    let bytes = said(bytes, USUAL_BYTES)?;
    let batch = said(batch, USUAL_BATCH.min(slots))?;
    let workers = said(workers, USUAL_WORKERS)?;
    limits_with(slots, bytes, batch, workers)
}

// What a text reads as.
fn reading_of(
    alloc: Global,
    kind: DestKind,
    text: &[u8],
) -> Result<Result<DestConfig, ConfigFault>, NoMemory>
    ensures { IfOk result (IsOnly (ReadsConfig kind text.now)) }
{
    let Some(members) = cut(alloc, text, MAX_DEPTH)? else {
        return Ok(Err(ConfigFault::NotJson));
    };
    let Some(place) = text_field(alloc, text, &members, kind.place_name())? else {
        return Ok(Err(ConfigFault::Missing));
    };
    let Some(slots) = optional_number(alloc, text, &members, "slots")? else {
        return Ok(Err(ConfigFault::Missing));
    };
    let Some(bytes) = optional_number(alloc, text, &members, "bytes")? else {
        return Ok(Err(ConfigFault::Missing));
    };
    let Some(batch) = optional_number(alloc, text, &members, "batch")? else {
        return Ok(Err(ConfigFault::Missing));
    };
    let Some(workers) = optional_number(alloc, text, &members, "workers")? else {
        return Ok(Err(ConfigFault::Missing));
    };
    let Some(limits) = limits_of(slots, bytes, batch, workers) else {
        return Ok(Err(ConfigFault::OutOfRange));
    };
    Ok(Ok(DestConfig { place, limits }))
}

/// Reads the configuration of a destination: an object with a string `database` or `folder`, by the kind, and maybe numbers
/// `slots`, `bytes`, `batch` and `workers`, within the ranges of `Limits`. That all members have their forms is judged before
/// any number.
pub fn read_dest_config(
    alloc: Global,
    kind: DestKind,
    text: &[u8],
) -> Result<DestConfig, ConfigFault>
    ensures read { IfOk result (λ config. IsOnly (ReadsConfig kind text.now) (Ok config)) }
    ensures refused { IfErr result (λ why. why ≢ fault.NoMemory → IsOnly (ReadsConfig kind text.now) (Err why)) }
{
    match reading_of(alloc, kind, text) {
        Ok(reading) => reading,
        Err(NoMemory) => Err(ConfigFault::NoMemory),
    }
}

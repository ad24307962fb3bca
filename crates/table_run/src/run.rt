// The top call of a source of tables.
ghost use Rattle.std.specs.Prelude.{◌≡◌, ◌≢◌, ◌≤◌, ◌<◌, ◌^◌, ◌↔◌, IfOk, IsErrOf, None, map, option_copied, string_bytes};
ghost use Rattle.basics.specs.Told.{Rose};
ghost use Rattle.outside.specs.Rows.{RowsSeen};
ghost use Rattle.outside.specs.declared.status.Status.TheVariants as status;
ghost use Rattle.cli_words.specs.Connectors.{source_asked};
ghost use Rattle.table_source.specs.Discovered.{spec_line};
ghost use Rattle.table_run.specs.Runs.{
  AreStatesUnder,
  CouldNotOpen,
  EndsLate,
  EndsRead,
  EndsSaid,
  EndsUnread,
  IsChecked,
  IsComplete,
  IsEarly,
  IsGiven,
  IsOpened,
  IsRead,
  IsRefused,
  LeavesRows,
  MayCheck,
  MayDiscover,
  MayDiscoverBy,
  MayRead,
  MayReadBy,
  MayReadTables,
  MaySay,
  MaySayOne,
  ReadsOnly,
  RunsAs,
  WasOpened,
  outside_of,
  read_status,
};

use crate::begin::begin_and_say;
use basics::{Bytes, NoMemory};
use cli_words::{SourceCommand, source_words};
use outside::{ConfigFault, Desk, Fault, RowStore, Status};
use say_feed::{say_line, write_out};
use source_lines::SourceFeed;
use std::alloc::Global;
use table_config::{TableConfig, read_table_config};
use table_feed::TableSource;
use table_source::{discovered, failed, specified, succeeded};

/// How a run of a source of tables ended, and its store of rows, whose counts can be compared.
#[derive(Drop)]
pub struct SourceEnd<R: RowStore + Drop> {
    pub status: Status,
    pub rows: R,
}

// What a fault of reading a text makes of a run.
fn read_fault(fault: Fault) -> Status
    ensures { result ≡ read_status fault }
{
    match fault {
        Fault::Failed => Status::FileFault,
        Fault::NoMemory => Status::NoMemory,
    }
}

// Says the one line of a command, and writes it out.
fn say_answer<K: Desk>(desk: &mut K, line: &[u8]) -> Status
    ensures runs { (rows : RowsSeen) → RunsAs result (λ opened failed. MaySayOne line.now) (outside_of (K.seen desk.old) rows) (outside_of (K.seen desk.new) rows) }
    ensures cause { EndsSaid result }
    ensures reads { (K.seen desk.new).read_faults ≡ (K.seen desk.old).read_faults }
{
    match say_line(desk, line) {
        Ok(()) => write_out(desk, Status::Ok),
        Err(why) => why,
    }
}

// The line of `check` where the configuration was read.
fn open_store<R: RowStore>(
    alloc: Global,
    rows: &mut R,
    config: &TableConfig,
) -> Result<Bytes, NoMemory>
    ensures line { IfOk result (IsOpened (Rose (R.seen rows.old).opens (R.seen rows.new).opens) (Rose (R.seen rows.old).faults (R.seen rows.new).faults)) }
    ensures faults { (R.seen rows.old).faults ≤ (R.seen rows.new).faults }
{
    match rows.open_rows(config.database.as_str()) {
        Ok(()) => succeeded(alloc),
        Err(Fault::Failed) => failed(alloc, "cannot open"),
        Err(Fault::NoMemory) => Err(NoMemory),
    }
}

// The line of `check` where the configuration's text is none.
fn refused(alloc: Global, fault: ConfigFault) -> Result<Bytes, NoMemory>
    ensures { IfOk result (IsRefused fault) }
{
    match fault {
        ConfigFault::NotJson | ConfigFault::Missing | ConfigFault::OutOfRange => {
            failed(alloc, "bad config")
        }
        ConfigFault::NoMemory => Err(NoMemory),
    }
}

// The line of `check`.
fn checked<K: Desk, R: RowStore>(
    alloc: Global,
    desk: &mut K,
    rows: &mut R,
    config: &str,
) -> Result<Bytes, NoMemory>
    ensures line { IfOk result (IsChecked (WasOpened (outside_of (K.seen desk.old) (R.seen rows.old)) (outside_of (K.seen desk.new) (R.seen rows.new))) (CouldNotOpen (outside_of (K.seen desk.old) (R.seen rows.old)) (outside_of (K.seen desk.new) (R.seen rows.new))) (K.seen desk.old).texts config.now) }
    ensures only { ReadsOnly ⊥ (K.seen desk.old) (K.seen desk.new) }
    ensures faults { (R.seen rows.old).faults ≤ (R.seen rows.new).faults }
{
    let text = match desk.read_text(alloc, config) {
        Ok(text) => text,
        Err(Fault::Failed) => return failed(alloc, "cannot open"),
        Err(Fault::NoMemory) => return Err(NoMemory),
    };
    match read_table_config(alloc, text.as_slice()) {
        Ok(config) => open_store(alloc, rows, &config),
        Err(fault) => refused(alloc, fault),
    }
}

// The command `check`.
fn run_check<K: Desk, R: RowStore>(
    alloc: Global,
    desk: &mut K,
    rows: &mut R,
    config: &str,
) -> Status
    ensures runs { RunsAs result (λ opened failed. MayCheck opened failed (K.seen desk.old).texts config.now) (outside_of (K.seen desk.old) (R.seen rows.old)) (outside_of (K.seen desk.new) (R.seen rows.new)) }
    ensures cause { EndsSaid result }
{
    match checked(alloc, desk, rows, config) {
        Ok(line) => say_answer(desk, line.as_slice()),
        Err(NoMemory) => Status::NoMemory,
    }
}

// Says the streams of a configuration with this text.
fn discover_by<K: Desk>(alloc: Global, desk: &mut K, text: &[u8]) -> Status
    ensures runs { (rows : RowsSeen) → RunsAs result (λ opened failed. MayDiscover text.now) (outside_of (K.seen desk.old) rows) (outside_of (K.seen desk.new) rows) }
    ensures cause { EndsRead result }
    ensures read { result ≢ status.FileFault }
{
    let config = match read_table_config(alloc, text) {
        Ok(config) => config,
        Err(fault) => return Status::from(fault),
    };
    match discovered(alloc, &config) {
        Ok(line) => say_answer(desk, line.as_slice()),
        Err(NoMemory) => Status::NoMemory,
    }
}

// The command `discover`.
fn run_discover<K: Desk>(alloc: Global, desk: &mut K, config: &str) -> Status
    ensures runs { (rows : RowsSeen) → RunsAs result (λ opened failed. MayDiscoverBy (K.seen desk.old).texts config.now) (outside_of (K.seen desk.old) rows) (outside_of (K.seen desk.new) rows) }
    ensures cause { EndsRead result }
    ensures unsaid { result ≡ status.FileFault → (K.seen desk.new).said ≡ (K.seen desk.old).said }
{
    match desk.read_text(alloc, config) {
        Ok(text) => discover_by(alloc, desk, text.as_slice()),
        Err(fault) => read_fault(fault),
    }
}

// What the command `read` is given.
#[derive(Drop)]
struct Given {
    config: Bytes,
    catalog: Bytes,
    states: Bytes,
}

// The text of the saved states; without a name there are none.
fn read_states<K: Desk>(alloc: Global, desk: &mut K, state: Option<&str>) -> Result<Bytes, Fault>
    ensures text { IfOk result (AreStatesUnder (K.seen desk.old).texts (option_copied state.entry)) }
    ensures only { ReadsOnly (IsErrOf result Fault.Failed) (K.seen desk.old) (K.seen desk.new) }
{
    match state {
        Some(name) => desk.read_text(alloc, name),
        None => Ok(Bytes::copy_of(alloc, b"[]")?),
    }
}

// The texts that the command `read` is given.
fn read_given<K: Desk>(
    alloc: Global,
    desk: &mut K,
    config: &str,
    catalog: &str,
    state: Option<&str>,
) -> Result<Given, Fault>
    ensures texts { IfOk result (IsGiven (K.seen desk.old).texts config.now catalog.now (option_copied state.entry)) }
    ensures only { ReadsOnly (IsErrOf result Fault.Failed) (K.seen desk.old) (K.seen desk.new) }
{
    let config = desk.read_text(alloc, config)?;
    let catalog = desk.read_text(alloc, catalog)?;
    let states = read_states(alloc, desk, state)?;
    Ok(Given {
        config,
        catalog,
        states,
    })
}

// Says the lines of the tables of a configuration.
fn say_tables<K: Desk, R: RowStore + Drop>(
    alloc: Global,
    desk: &mut K,
    rows: R,
    now_ms: u64,
    config: TableConfig,
    given: &Given,
) -> SourceEnd<R>
    ensures runs { RunsAs result.status (λ opened failed. MayReadTables (R.seen rows).rows now_ms config given.now.catalog given.now.states) (outside_of (K.seen desk.old) (R.seen rows)) (outside_of (K.seen desk.new) (R.seen result.rows)) }
    ensures late { EndsLate result.status }
{
    let mut feed = SourceFeed::new(TableSource { rows, config }, now_ms);
    let status = begin_and_say(
        alloc,
        desk,
        &mut feed,
        given.catalog.as_slice(),
        given.states.as_slice(),
    );
    SourceEnd {
        status,
        rows: feed.into_source().rows,
    }
}

// The command `read`.
fn run_read<K: Desk, R: RowStore + Drop>(
    alloc: Global,
    desk: &mut K,
    rows: R,
    now_ms: u64,
    given: &Given,
) -> SourceEnd<R>
    ensures runs { RunsAs result.status (λ opened failed. MayRead (R.seen rows).rows now_ms given.now) (outside_of (K.seen desk.old) (R.seen rows)) (outside_of (K.seen desk.new) (R.seen result.rows)) }
    ensures no_usage { result.status ≢ status.Usage }
    ensures read { result.status ≢ status.FileFault }
    ensures unopened { IsEarly result.status → R.seen result.rows ≡ R.seen rows }
{
    match read_table_config(alloc, given.config.as_slice()) {
        Ok(config) => say_tables(alloc, desk, rows, now_ms, config, given),
        Err(fault) => SourceEnd {
            status: Status::from(fault),
            rows,
        },
    }
}

// The command `read`, by the names of its texts.
fn run_read_by<K: Desk, R: RowStore + Drop>(
    alloc: Global,
    desk: &mut K,
    rows: R,
    now_ms: u64,
    config: &str,
    catalog: &str,
    state: Option<&str>,
) -> SourceEnd<R>
    ensures runs { RunsAs result.status (λ opened failed. MayReadBy (K.seen desk.old).texts (R.seen rows).rows now_ms config.now catalog.now (option_copied state.entry)) (outside_of (K.seen desk.old) (R.seen rows)) (outside_of (K.seen desk.new) (R.seen result.rows)) }
    ensures no_usage { result.status ≢ status.Usage }
    ensures unsaid { result.status ≡ status.FileFault → (K.seen desk.new).said ≡ (K.seen desk.old).said }
    ensures unopened { IsEarly result.status → R.seen result.rows ≡ R.seen rows }
{
    match read_given(alloc, desk, config, catalog, state) {
        Ok(given) => run_read(alloc, desk, rows, now_ms, &given),
        Err(fault) => SourceEnd {
            status: read_fault(fault),
            rows,
        },
    }
}

// The command `spec`.
fn run_spec<K: Desk>(alloc: Global, desk: &mut K) -> Status
    ensures runs { (rows : RowsSeen) → RunsAs result (λ opened failed. MaySayOne spec_line) (outside_of (K.seen desk.old) rows) (outside_of (K.seen desk.new) rows) }
    ensures cause { EndsSaid result }
{
    match specified(alloc) {
        Ok(line) => say_answer(desk, line.as_slice()),
        Err(NoMemory) => Status::NoMemory,
    }
}

/// Runs a source of tables: does what the words ask for, says its lines on the desk, and answers how it ended. The store of rows is
/// given back.
///
/// `spec`, `check` and `discover` say one line. `read` says the lines of the configured streams, in the order of the catalog, with the
/// moment, in milliseconds since 1970; where it answers another status than `Ok`, what was said is a front of them. Its texts are read
/// first; then the configuration, the catalog and the states are judged, in this order; then the store is opened. What was said is
/// written out behind each state, and before the answer.
pub fn run_source<K: Desk, R: RowStore + Drop>(
    alloc: Global,
    desk: &mut K,
    rows: R,
    now_ms: u64,
    words: &[String],
) -> SourceEnd<R>
    requires { now_ms < 2 ^ 63 }
    ensures runs { RunsAs result.status (λ opened failed. MaySay opened failed (K.seen desk.old).texts (R.seen rows).rows now_ms (source_asked (map string_bytes words.now))) (outside_of (K.seen desk.old) (R.seen rows)) (outside_of (K.seen desk.new) (R.seen result.rows)) }
    ensures usage { (result.status ≡ status.Usage) ↔ (source_asked (map string_bytes words.now) ≡ None) }
    ensures unread { result.status ≡ status.FileFault → EndsUnread (source_asked (map string_bytes words.now)) }
    ensures complete { IsComplete result.status (source_asked (map string_bytes words.now)) (outside_of (K.seen desk.old) (R.seen rows)) (outside_of (K.seen desk.new) (R.seen result.rows)) }
    ensures rowless { result.status ≡ status.RowFault → IsRead (source_asked (map string_bytes words.now)) }
    ensures unsaid { result.status ≡ status.FileFault → (K.seen desk.new).said ≡ (K.seen desk.old).said }
    ensures unopened { LeavesRows (source_asked (map string_bytes words.now)) result.status → R.seen result.rows ≡ R.seen rows }
{
    match source_words(words) {
        Some(SourceCommand::Spec) => {
            let status = run_spec(alloc, desk);
            SourceEnd { status, rows }
        }
        Some(SourceCommand::Check { config }) => {
            let mut rows = rows;
            let status = run_check(alloc, desk, &mut rows, config);
            SourceEnd { status, rows }
        }
        Some(SourceCommand::Discover { config }) => {
            let status = run_discover(alloc, desk, config);
            SourceEnd { status, rows }
        }
        Some(
            SourceCommand::Read {
                config,
                catalog,
                state,
            },
        ) => run_read_by(alloc, desk, rows, now_ms, config, catalog, state),
        None => SourceEnd {
            status: Status::Usage,
            rows,
        },
    }
}

// The top call of a source of files.
ghost use Rattle.std.specs.Prelude.{◌≡◌, ◌≢◌, ◌⊎◌, ◌<◌, ◌^◌, ◌↔◌, ◌++◌, [], ◌∷◌, All, Err, IfErr, IfOk, IfSome, IsErrOf, None, Ok, OnOk, codes, false, map, option_copied, string_bytes};
ghost use Rattle.basics.specs.Told.{Rose};
ghost use Rattle.outside.specs.declared.status.Status.TheVariants as status;
ghost use Rattle.name_index.specs.Named.{with_name};
ghost use Rattle.csv_sheet.specs.Sheet.{sheet_in};
ghost use Rattle.cli_words.specs.Connectors.{source_asked};
ghost use Rattle.outside.specs.declared.faults.ConfigFault.TheVariants as config;
ghost use Rattle.file_source.specs.Discovered.{discover_line, failed_line, spec_line};
ghost use Rattle.file_run.specs.Runs.{
  AddsStream,
  AreFiles,
  AreStates,
  AreValid,
  EndsSaid,
  EndsUnread,
  HasFiles,
  HasText,
  IsChecked,
  IsFile,
  IsGiven,
  IsOkOrNoMemory,
  MayCheck,
  MayDiscover,
  MayDiscoverBy,
  MayRead,
  MayReadBy,
  MaySay,
  MaySayFiles,
  MaySayOne,
  MaySayStreams,
  ReadsOnly,
  RefusesFiles,
  RefusesStream,
  RunsAs,
  is_check,
  read_status,
  shown_place,
  stream_of,
  streams_in,
};

use basics::{Bytes, BytesList, Copies, NoMemory, Sequence, StreamNo};
use cli_words::{SourceCommand, source_words};
use csv_sheet::{SheetFault, read_sheet};
use file_config::{FileConfig, FileEntry, read_file_config};
use file_source::{
    FileSource, FileText, FileTextList, discovered, failed, file_text_of, specified, succeeded,
};
use name_index::NameIndex;
use outside::{ConfigFault, Desk, Fault, Feed, Status};
use say_feed::{say_feed, say_line, write_out};
use source_lines::SourceFeed;
use std::alloc::Global;

// What a fault of reading a text makes of a run.
fn read_fault(fault: Fault) -> Status
    ensures { result ≡ read_status fault }
{
    match fault {
        Fault::Failed => Status::FileFault,
        Fault::NoMemory => Status::NoMemory,
    }
}

// Says the one line of a command, and writes it out.
fn say_answer<K: Desk>(desk: &mut K, line: &[u8]) -> Status
    ensures runs { RunsAs result (λ failed by_name. MaySayOne line.now) (K.seen desk.old) (K.seen desk.new) }
    ensures cause { EndsSaid result }
    ensures reads { (K.seen desk.new).read_faults ≡ (K.seen desk.old).read_faults }
{
    match say_line(desk, line) {
        Ok(()) => write_out(desk, Status::Ok),
        Err(why) => write_out(desk, why),
    }
}

// The text of a file of the configuration.
fn read_entry<K: Desk>(alloc: Global, desk: &mut K, entry: &FileEntry) -> Result<FileText, Fault>
    ensures text { IfOk result (IsFile (K.seen desk.old).texts entry.now) }
    ensures only { ReadsOnly (IsErrOf result Fault.Failed) (K.seen desk.old) (K.seen desk.new) }
    ensures stays { ¬ IsErrOf result Fault.Failed → (K.seen desk.new).read_faults ≡ (K.seen desk.old).read_faults }
{
    let text = desk.read_text(alloc, entry.path.as_str())?;
    Ok(FileText {
        name: entry.name.copy(alloc)?,
        every: entry.every,
        text,
    })
}

// The texts of the files of the configuration, in order.
fn read_entries<K: Desk>(
    alloc: Global,
    desk: &mut K,
    entries: &[FileEntry],
) -> Result<FileTextList, Fault>
    ensures texts { IfOk result (AreFiles (K.seen desk.old).texts entries.now) }
    ensures only { ReadsOnly (IsErrOf result Fault.Failed) (K.seen desk.old) (K.seen desk.new) }
    ensures stays { ¬ IsErrOf result Fault.Failed → (K.seen desk.new).read_faults ≡ (K.seen desk.old).read_faults }
{
    let mut files = Sequence::with_capacity(alloc, entries.len())?;
    for entry in entries {
        let file = read_entry(alloc, desk, entry)?;
        files.push(file)?;
    }
    Ok(files)
}

// Reads each file of the configuration, and keeps none.
fn check_entries<K: Desk>(alloc: Global, desk: &mut K, entries: &[FileEntry]) -> Result<(), Fault>
    ensures texts { IfOk result (λ _. All (λ entry. HasText (K.seen desk.old).texts entry.path) entries.now) }
    ensures only { ReadsOnly (IsErrOf result Fault.Failed) (K.seen desk.old) (K.seen desk.new) }
    ensures stays { ¬ IsErrOf result Fault.Failed → (K.seen desk.new).read_faults ≡ (K.seen desk.old).read_faults }
{
    for entry in entries {
        let _text = desk.read_text(alloc, entry.path.as_str())?;
    }
    Ok(())
}

// The line of `check` where a configuration's text is none.
fn no_config(alloc: Global, why: ConfigFault) -> Result<Bytes, NoMemory>
    ensures { IfOk result (λ line. (why ≢ config.NoMemory) × (line ≡ failed_line (codes "bad config"))) }
{
    match why {
        ConfigFault::NoMemory => Err(NoMemory),
        _ => failed(alloc, "bad config"),
    }
}

// The line of `check`.
fn checked<K: Desk>(alloc: Global, desk: &mut K, config: &str) -> Result<Bytes, NoMemory>
    ensures line { IfOk result (IsChecked (Rose (K.seen desk.old).read_faults (K.seen desk.new).read_faults) (K.seen desk.old).texts config.now) }
    ensures only { ReadsOnly ⊥ (K.seen desk.old) (K.seen desk.new) }
{
    let text = match desk.read_text(alloc, config) {
        Ok(text) => text,
        Err(Fault::Failed) => return failed(alloc, "cannot open"),
        Err(Fault::NoMemory) => return Err(NoMemory),
    };
    let config = match read_file_config(alloc, text.as_slice()) {
        Ok(config) => config,
        Err(why) => return no_config(alloc, why),
    };
    match check_entries(alloc, desk, config.files.as_slice()) {
        Ok(()) => succeeded(alloc),
        Err(Fault::Failed) => failed(alloc, "cannot open"),
        Err(Fault::NoMemory) => Err(NoMemory),
    }
}

// The command `check`.
fn run_check<K: Desk>(alloc: Global, desk: &mut K, config: &str) -> Status
    ensures runs { RunsAs result (λ failed by_name. MayCheck failed by_name config.now) (K.seen desk.old) (K.seen desk.new) }
    ensures cause { EndsSaid result }
{
    match checked(alloc, desk, config) {
        Ok(line) => say_answer(desk, line.as_slice()),
        Err(NoMemory) => Status::NoMemory,
    }
}

// The stream of a file with this place in the configuration.
fn discover_file(alloc: Global, file: &FileText, place: StreamNo) -> Result<Bytes, Status>
    ensures text { IfOk result (λ text. stream_of place file.now (sheet_in file.now.text) ≡ Ok text) }
    ensures refused { IfErr result (λ why. (why ≡ status.NoMemory) ⊎ (stream_of place file.now (sheet_in file.now.text) ≡ Err why)) }
{
    match read_sheet(alloc, file.text.as_slice()) {
        Ok(sheet) => match file_text_of(alloc, &file.name, &sheet) {
            Ok(text) => Ok(text),
            Err(NoMemory) => Err(Status::NoMemory),
        },
        Err(SheetFault::Misfit(row)) => Err(Status::BadRow { stream: place, row }),
        Err(SheetFault::NoMemory) => Err(Status::NoMemory),
    }
}

// A place in the configuration as a status says it.
fn place_shown(place: usize) -> StreamNo
    ensures { result ≡ shown_place place }
{
    place.min(u32::MAX as usize) as u32
}

// Puts a name and a stream behind others.
fn put_stream(
    alloc: Global,
    names: &mut NameIndex,
    texts: &mut BytesList,
    name: &str,
    text: Bytes,
) -> Result<(), NoMemory>
    ensures { OnOk result ((names.new ≡ with_name names.old name.now) × (texts.new ≡ texts.old ++ text ∷ [])) }
{
    names.add(alloc, name)?;
    texts.push(text)
}

// Puts the stream of the file with this place behind others, unless a file in front of it has its name.
fn add_stream(
    alloc: Global,
    names: &mut NameIndex,
    texts: &mut BytesList,
    file: &FileText,
    place: StreamNo,
) -> Result<(), Status>
    ensures added { IfOk result (λ _. AddsStream place file.now names.old texts.old names.new texts.new) }
    ensures refused { IfErr result (RefusesStream place file.now names.old) }
{
    match names.find(file.name.as_str()) {
        Some(_place) => Ok(()),
        None => match discover_file(alloc, file, place) {
            Ok(text) => match put_stream(alloc, names, texts, file.name.as_str(), text) {
                Ok(()) => Ok(()),
                Err(NoMemory) => Err(Status::NoMemory),
            },
            Err(why) => Err(why),
        },
    }
}

// The streams of files; of two with one name the first counts.
fn discover_files(alloc: Global, files: &[FileText]) -> Result<BytesList, Status>
    ensures texts { IfOk result (λ texts. streams_in files.now ≡ Ok texts) }
    ensures refused { IfErr result (λ why. (why ≡ status.NoMemory) ⊎ (streams_in files.now ≡ Err why)) }
{
    let mut names = NameIndex::new(alloc);
    let mut texts = BytesList::new(alloc);
    for place in 0..files.len() {
        match add_stream(
            alloc,
            &mut names,
            &mut texts,
            &files[place],
            place_shown(place),
        ) {
            Ok(()) => {}
            Err(why) => return Err(why),
        }
    }
    Ok(texts)
}

// Says the streams with these texts.
fn say_discovered<K: Desk>(alloc: Global, desk: &mut K, texts: &BytesList) -> Status
    ensures runs { RunsAs result (λ failed by_name. MaySayOne (discover_line texts.now)) (K.seen desk.old) (K.seen desk.new) }
    ensures reads { (K.seen desk.new).read_faults ≡ (K.seen desk.old).read_faults }
{
    match discovered(alloc, texts) {
        Ok(line) => say_answer(desk, line.as_slice()),
        Err(NoMemory) => Status::NoMemory,
    }
}

// Says the streams of files.
fn say_streams<K: Desk>(alloc: Global, desk: &mut K, files: &[FileText]) -> Status
    ensures runs { RunsAs result (λ failed by_name. MaySayStreams (streams_in files.now)) (K.seen desk.old) (K.seen desk.new) }
    ensures reads { (K.seen desk.new).read_faults ≡ (K.seen desk.old).read_faults }
{
    match discover_files(alloc, files) {
        Ok(texts) => say_discovered(alloc, desk, &texts),
        Err(why) => why,
    }
}

// The files that a configuration with this text names.
fn read_files<K: Desk>(alloc: Global, desk: &mut K, text: &[u8]) -> Result<FileTextList, Status>
    ensures files { IfOk result (HasFiles (K.seen desk.old).texts text.now) }
    ensures refused { IfErr result (λ why. RefusesFiles why text.now (K.seen desk.old) (K.seen desk.new)) }
    ensures only { ReadsOnly (result ≡ Err status.FileFault) (K.seen desk.old) (K.seen desk.new) }
    ensures stays { ¬ (result ≡ Err status.FileFault) → (K.seen desk.new).read_faults ≡ (K.seen desk.old).read_faults }
{
    match read_file_config(alloc, text) {
        Ok(config) => match read_entries(alloc, desk, config.files.as_slice()) {
            Ok(files) => Ok(files),
            Err(fault) => Err(read_fault(fault)),
        },
        Err(fault) => Err(Status::from(fault)),
    }
}

// Says the streams of a configuration with this text.
fn discover_by<K: Desk>(alloc: Global, desk: &mut K, text: &[u8]) -> Status
    ensures runs { RunsAs result (λ failed by_name. MayDiscover by_name text.now) (K.seen desk.old) (K.seen desk.new) }
    ensures reads { result ≢ status.FileFault → (K.seen desk.new).read_faults ≡ (K.seen desk.old).read_faults }
{
    match read_files(alloc, desk, text) {
        Ok(files) => say_streams(alloc, desk, files.as_slice()),
        Err(why) => why,
    }
}

// The command `discover`.
fn run_discover<K: Desk>(alloc: Global, desk: &mut K, config: &str) -> Status
    ensures runs { RunsAs result (λ failed by_name. MayDiscoverBy by_name config.now) (K.seen desk.old) (K.seen desk.new) }
    ensures reads { result ≢ status.FileFault → (K.seen desk.new).read_faults ≡ (K.seen desk.old).read_faults }
{
    match desk.read_text(alloc, config) {
        Ok(text) => discover_by(alloc, desk, text.as_slice()),
        Err(fault) => read_fault(fault),
    }
}

// What the command `read` is given.
#[derive(Drop)]
struct Given {
    config: Bytes,
    catalog: Bytes,
    states: Bytes,
}

// The text of the saved states; without a name there are none.
fn read_states<K: Desk>(alloc: Global, desk: &mut K, state: Option<&str>) -> Result<Bytes, Fault>
    ensures text { IfOk result (AreStates (K.seen desk.old).texts (option_copied state.entry)) }
    ensures only { ReadsOnly (IsErrOf result Fault.Failed) (K.seen desk.old) (K.seen desk.new) }
    ensures stays { ¬ IsErrOf result Fault.Failed → (K.seen desk.new).read_faults ≡ (K.seen desk.old).read_faults }
{
    match state {
        Some(name) => desk.read_text(alloc, name),
        None => Ok(Bytes::copy_of(alloc, b"[]")?),
    }
}

// The texts that the command `read` is given.
fn read_given<K: Desk>(
    alloc: Global,
    desk: &mut K,
    config: &str,
    catalog: &str,
    state: Option<&str>,
) -> Result<Given, Fault>
    ensures texts { IfOk result (IsGiven (K.seen desk.old).texts config.now catalog.now (option_copied state.entry)) }
    ensures only { ReadsOnly (IsErrOf result Fault.Failed) (K.seen desk.old) (K.seen desk.new) }
    ensures stays { ¬ IsErrOf result Fault.Failed → (K.seen desk.new).read_faults ≡ (K.seen desk.old).read_faults }
{
    let config = desk.read_text(alloc, config)?;
    let catalog = desk.read_text(alloc, catalog)?;
    let states = read_states(alloc, desk, state)?;
    Ok(Given {
        config,
        catalog,
        states,
    })
}

// Says the lines of files.
fn say_files<K: Desk>(
    alloc: Global,
    desk: &mut K,
    now_ms: u64,
    files: FileTextList,
    given: &Given,
) -> Status
    ensures runs { RunsAs result (λ failed by_name. MaySayFiles now_ms files given.now) (K.seen desk.old) (K.seen desk.new) }
    ensures reads { (K.seen desk.new).read_faults ≡ (K.seen desk.old).read_faults }
{
    let mut feed = SourceFeed::new(FileSource { files }, now_ms);
    match feed.begin(alloc, given.catalog.as_slice(), given.states.as_slice()) {
        Ok(()) => say_feed(alloc, desk, &mut feed),
        Err(why) => why,
    }
}

// The command `read`.
fn run_read<K: Desk>(alloc: Global, desk: &mut K, now_ms: u64, given: &Given) -> Status
    ensures runs { RunsAs result (λ failed by_name. MayRead by_name now_ms given.now) (K.seen desk.old) (K.seen desk.new) }
    ensures reads { result ≢ status.FileFault → (K.seen desk.new).read_faults ≡ (K.seen desk.old).read_faults }
{
    match read_files(alloc, desk, given.config.as_slice()) {
        Ok(files) => say_files(alloc, desk, now_ms, files, given),
        Err(why) => why,
    }
}

// The command `read`, by the names of its texts.
fn run_read_by<K: Desk>(
    alloc: Global,
    desk: &mut K,
    now_ms: u64,
    config: &str,
    catalog: &str,
    state: Option<&str>,
) -> Status
    ensures runs { RunsAs result (λ failed by_name. MayReadBy by_name now_ms config.now catalog.now (option_copied state.entry)) (K.seen desk.old) (K.seen desk.new) }
    ensures reads { result ≢ status.FileFault → (K.seen desk.new).read_faults ≡ (K.seen desk.old).read_faults }
{
    match read_given(alloc, desk, config, catalog, state) {
        Ok(given) => run_read(alloc, desk, now_ms, &given),
        Err(fault) => read_fault(fault),
    }
}

// The command `spec`.
fn run_spec<K: Desk>(alloc: Global, desk: &mut K) -> Status
    ensures runs { RunsAs result (λ failed by_name. MaySayOne spec_line) (K.seen desk.old) (K.seen desk.new) }
    ensures cause { EndsSaid result }
    ensures reads { (K.seen desk.new).read_faults ≡ (K.seen desk.old).read_faults }
{
    match specified(alloc) {
        Ok(line) => say_answer(desk, line.as_slice()),
        Err(NoMemory) => Status::NoMemory,
    }
}

/// Runs a source of files: does what the words ask for, says its lines on the desk, and answers how it ended.
///
/// `spec`, `check` and `discover` say one line. `read` says the lines of the configured streams, in the order of the catalog, with the
/// moment, in milliseconds since 1970; where it answers another status than `Ok`, what was said is a front of them. What was said is
/// written out behind each state, and before the answer.
pub fn run_source<K: Desk>(alloc: Global, desk: &mut K, now_ms: u64, words: &[String]) -> Status
    requires { now_ms < 2 ^ 63 }
    ensures runs { RunsAs result (MaySay now_ms (source_asked (map string_bytes words.now))) (K.seen desk.old) (K.seen desk.new) }
    ensures reads { is_check (source_asked (map string_bytes words.now)) ≡ false → result ≢ status.FileFault → (K.seen desk.new).read_faults ≡ (K.seen desk.old).read_faults }
    ensures usage { (result ≡ status.Usage) ↔ (source_asked (map string_bytes words.now) ≡ None) }
    ensures unread { result ≡ status.FileFault → EndsUnread (source_asked (map string_bytes words.now)) }
    ensures complete { IfSome (K.seen desk.old).texts (λ by_name. AreValid by_name (source_asked (map string_bytes words.now)) → ¬ Rose (K.seen desk.old).read_faults (K.seen desk.new).read_faults → ¬ Rose (K.seen desk.old).say_faults (K.seen desk.new).say_faults → IsOkOrNoMemory result) }
{
    match source_words(words) {
        Some(SourceCommand::Spec) => run_spec(alloc, desk),
        Some(SourceCommand::Check { config }) => run_check(alloc, desk, config),
        Some(SourceCommand::Discover { config }) => run_discover(alloc, desk, config),
        Some(
            SourceCommand::Read {
                config,
                catalog,
                state,
            },
        ) => run_read_by(alloc, desk, now_ms, config, catalog, state),
        None => Status::Usage,
    }
}

// Laws.
ghost use Rattle.file_source.specs.Blob.{BlobsReadBack};
ghost use Rattle.file_source.specs.Laws.{FilesReplay, FilesResume};

/// A law: each state that a file's stream carries behind a record has that record's number, and the stream started with it
/// gives the rest.
pub fn files_resume()
    ensures { FilesResume }
{}

/// A law: a file's stream has the rows of one list from its start's place on, and each state, one before any row too, stands behind as
/// many rows of that list as its blob says; so the stream that is started with it has the rest.
pub fn files_replay()
    ensures { FilesReplay }
{}

/// A law: the blob that is written behind a record is read as that record's number.
pub fn blobs_read_back()
    ensures { BlobsReadBack }
{}

// Laws.
ghost use Rattle.table_feed.specs.Laws.{BlobsReadBack, TablesReplay};

/// A law: a blob that is written behind a row says that row's values.
pub fn blobs_read_back()
    ensures { BlobsReadBack }
{}

/// A law: the rows of a stream are those of one list, in the table's order, from a place on, and each state that it carries says its
/// place in that list; so a stream that is started with it gives the rest.
pub fn tables_replay()
    ensures { TablesReplay }
{}

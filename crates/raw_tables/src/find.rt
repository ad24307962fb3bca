// Where a stream's table stands.
ghost use Rattle.std.specs.Prelude.{◌≡◌};
ghost use Rattle.outside.specs.Tables.{same_id, same_namespace};
ghost use Rattle.raw_tables.specs.Found.{IsFound};

use outside::{StreamId, StreamTable};

fn is_same_namespace(id: &StreamId, other: &StreamId) -> bool
    ensures { result ≡ same_namespace id.now.namespace other.now.namespace }
{
    match (&id.namespace, &other.namespace) {
        (None, None) => true,
        (Some(namespace), Some(other)) => namespace.as_str() == other.as_str(),
        _ => false,
    }
}

fn is_same(id: &StreamId, other: &StreamId) -> bool
    ensures { result ≡ same_id id.now other.now }
{
    id.name.as_str() == other.name.as_str() && is_same_namespace(id, other)
}

/// The index of a stream's table.
pub fn index_of(tables: &[StreamTable], id: &StreamId) -> Option<usize>
    ensures { IsFound tables.now id.now result }
{
    for (index, table) in tables.iter().enumerate() {
        if is_same(&table.id, id) {
            return Some(index);
        }
    }
    None
}

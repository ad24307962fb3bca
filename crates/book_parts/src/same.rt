// Whether two values are the same.
ghost use Rattle.std.specs.Prelude.{◌≡◌, IsTrue};

use basics::{Name, Path};
use column_types::Column;

fn is_name(name: &Name, other: &Name) -> bool
    ensures { IsTrue result → name.now ≡ other.now }
{
    name.as_str() == other.as_str()
}

fn are_names(names: &[Name], others: &[Name]) -> bool
    ensures { IsTrue result → names.now ≡ others.now }
{
    if names.len() != others.len() {
        return false;
    }
    for index in 0..names.len() {
        if !is_name(&names[index], &others[index]) {
            return false;
        }
    }
    true
}

fn is_path(path: &Path, other: &Path) -> bool
    ensures { IsTrue result → path.now ≡ other.now }
{
    are_names(path.as_slice(), other.as_slice())
}

/// Whether these are the same paths.
pub fn are_paths(paths: &[Path], others: &[Path]) -> bool
    ensures { IsTrue result → paths.now ≡ others.now }
{
    if paths.len() != others.len() {
        return false;
    }
    for index in 0..paths.len() {
        if !is_path(&paths[index], &others[index]) {
            return false;
        }
    }
    true
}

/// Whether this is the same path, or there is none in both.
pub fn is_place(place: &Option<Path>, other: &Option<Path>) -> bool
    ensures { IsTrue result → place.now ≡ other.now }
{
    match (place, other) {
        (Some(path), Some(own)) => is_path(path, own),
        (None, None) => true,
        _ => false,
    }
}

fn is_column(column: &Column, other: &Column) -> bool
    ensures { IsTrue result → column.now ≡ other.now }
{
    column.kind == other.kind && is_name(&column.name, &other.name)
}

/// Whether these are the same columns.
pub fn are_columns(columns: &[Column], others: &[Column]) -> bool
    ensures { IsTrue result → columns.now ≡ others.now }
{
    if columns.len() != others.len() {
        return false;
    }
    for index in 0..columns.len() {
        if !is_column(&columns[index], &others[index]) {
            return false;
        }
    }
    true
}

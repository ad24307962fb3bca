// Which texts are instants.
ghost use Rattle.std.specs.Prelude.{◌≡◌};
ghost use Rattle.column_types.specs.Instants.{read_instant};

use jiff::Timestamp;

/// The nanoseconds since 1970 of a text that `jiff` reads as a timestamp.
pub fn instant_of(text: &str) -> Option<i128>
    ensures { result ≡ read_instant text.now }
{
    match text.parse::<Timestamp>() {
        Ok(instant) => Some(instant.as_nanosecond()),
        Err(_) => None,
    }
}

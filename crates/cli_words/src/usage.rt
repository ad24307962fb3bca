// How the worker is used.
ghost use Rattle.std.specs.Prelude.{◌≡◌};
ghost use Rattle.cli_words.specs.Usage.{usage};

const USAGE: &str = "usage: airbyte_worker local --messages F --catalog F [--attempts N]
usage: airbyte_worker sync --source P --source-config F --dest P --dest-config F --catalog F --state F [--attempts N]
usage: airbyte_worker spec --program P
usage: airbyte_worker check --program P --config F
usage: airbyte_worker discover --program P --config F
usage: airbyte_worker made --rows N --workers N";

/// How the worker is used: a line for each of its commands, with no newline behind the last.
pub fn usage_text() -> &'static str
    ensures { result.now ≡ usage }
{
    USAGE
}

// The catalog of made input.
ghost use Rattle.std.specs.Prelude.{◌≡◌};
ghost use Rattle.made_input.specs.Catalog.{catalog_text};

const CATALOG: &str =
    r#"{"streams":[{"stream":{"name":"items","json_schema":{"type":"object","properties":{"id":{"type":"integer"},"version":{"type":"integer"}}},"supported_sync_modes":["incremental"]},"sync_mode":"incremental","destination_sync_mode":"append_dedup","cursor_field":["version"],"primary_key":[["id"]],"generation_id":0,"minimum_generation_id":0},{"stream":{"name":"visits","json_schema":{"type":"object","properties":{"version":{"type":"integer"}}},"supported_sync_modes":["incremental"]},"sync_mode":"incremental","destination_sync_mode":"append","generation_id":0,"minimum_generation_id":0}]}"#;

/// The configured catalog of made input: `items`, deduplicated by `id` with the cursor `version`, and `visits`, appended;
/// both incremental and of generation 0.
pub fn made_catalog() -> &'static str
    ensures { result.now ≡ catalog_text }
{
    CATALOG
}

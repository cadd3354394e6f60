//! What there is to ask for, as JSON.

use agg_types::{Config, Declared, Named, NoMemory};
use std::alloc::Global;
use web_text::Json;

/// The paths that programs ask for. What stands in braces is a name, or a key.
const PATHS: [&str; 10] = [
    "/healthz",
    "/metrics",
    "/api/v1",
    "/api/v1/overview",
    "/api/v1/peers",
    "/api/v1/tables/{table}",
    "/api/v1/tables/{table}/keys/{key}",
    "/api/v1/filters/{filter}",
    "/api/v1/filters/{filter}/changes",
    "/api/v1/ranks/{rank}",
];

/// The names of a configuration's tables, filters and ranked lists, in its order, and the paths
/// that programs ask for.
pub fn index(alloc: Global, config: &Config) -> Result<Vec<u8>, NoMemory> {
    let mut json = Json::new(alloc);
    json.begin_object()?;
    put_names(&mut json, "tables", &config.tables)?;
    put_names(&mut json, "filters", &config.filters)?;
    put_names(&mut json, "ranks", &config.ranks)?;
    json.begin_list("paths")?;
    for path in PATHS {
        json.item(path.as_bytes())?;
    }
    json.end_list()?;
    json.end_object()?;
    Ok(json.into_text())
}

// Puts the names of what was declared.
fn put_names<T: Named>(json: &mut Json, what: &str, entries: &Declared<T>) -> Result<(), NoMemory> {
    json.begin_list(what)?;
    for entry in entries.as_slice() {
        json.item(entry.name())?;
    }
    json.end_list()
}

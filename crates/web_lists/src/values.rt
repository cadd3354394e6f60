//! The values of rows.

use agg_types::{NoMemory, Shape};
use fleet_model::Summed;
use web_text::Json;

/// Puts the values of the stored columns, by their bare names.
pub(crate) fn put_values(json: &mut Json, shape: &Shape, sums: &Summed) -> Result<(), NoMemory> {
    json.begin_member("values")?;
    for stored in shape.cols.as_slice() {
        let col = stored.0;
        json.sum(col.name(), sums.values[col.place()])?;
    }
    json.end_object()
}

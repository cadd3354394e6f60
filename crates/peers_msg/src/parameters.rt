//! The parameters of a definition, behind its expiry: data types with their periods, and arrays.

ghost use Rattle.std.specs.Prelude.{◌≡◌, ◌<◌, ◌≤◌, ◌++◌, ◌∷◌, [], Option, length, IfOk, IfSome};
ghost use Rattle.std.specs.Prelude.{OnOk, option_to_list};
ghost use Rattle.std.specs.List.{flat_map};
ghost use Rattle.std.specs.Option.{option_map};
ghost use Rattle.peers_msg.specs.Payload.{is_array, is_paired, array_behind, parameter_behind};
ghost use Rattle.peers_msg.specs.Payload.{parameter_at, parameters_at, pairs_in, arrays_in};
ghost use Rattle.peers_msg.specs.Spelling.{array_id, last_of, pair_id, parameter_of, parameters_of};
ghost use Rattle.peers_msg.specs.Spelling.{parameter_spelling, period_spelling};

use crate::data_types::{GPC_RATE_ARRAY, GPT_ARRAY, SERVER_KEY};
use crate::integer::append_int;
use crate::message::{ArrayParameter, Definition};
use crate::payload::number;
use agg_types::{Items, LAST_TYPE, NoMemory};
use std::alloc::Global;

/// A parameter of a definition.
#[derive(Clone, Copy, Debug)]
pub(crate) enum Parameter {
    /// A data type's id and its period.
    Pair(u64, u64),
    /// An array.
    Array(ArrayParameter),
}

/// Whether a data type is an array.
fn is_array(id: u64) -> bool
    ensures { result ≡ is_array id }
{
    id >= GPT_ARRAY && id <= GPC_RATE_ARRAY
}

/// Whether a data type's parameter is a pair.
fn is_paired(id: u64) -> bool
    ensures { result ≡ is_paired id }
{
    id <= LAST_TYPE && !(id == SERVER_KEY || is_array(id))
}

/// An array of so many elements, and the bytes after it; of rates the period is at the front.
fn array_behind(id: u64, count: u64, bytes: &[u8]) -> Option<(Parameter, &[u8])>
    ensures exact { option_map (λ x. (x.0, x.1.now)) result ≡ array_behind id count bytes.now }
    ensures within { IfSome result (λ x. length x.1.now ≤ length bytes.now) }
{
    if id == GPC_RATE_ARRAY {
        let (period, rest) = number(bytes)?;
        let period = Some(period);
        Some((Parameter::Array(ArrayParameter { id, count, period }), rest))
    } else {
        let period = None;
        Some((
            Parameter::Array(ArrayParameter { id, count, period }),
            bytes,
        ))
    }
}

/// The parameter at the front, and the bytes after it.
#[tactic(auto, unfolding(crate::specs::Payload::parameter_at))]
fn parameter_at(bytes: &[u8]) -> Option<(Parameter, &[u8])>
    ensures exact { option_map (λ x. (x.0, x.1.now)) result ≡ parameter_at bytes.now }
    ensures shorter { IfSome result (λ x. length x.1.now < length bytes.now) }
{
    let (id, rest) = number(bytes)?;
    let (value, rest) = number(rest)?;
    if is_array(id) {
        return array_behind(id, value, rest);
    }
    if is_paired(id) {
        return Some((Parameter::Pair(id, value), rest));
    }
    None
}

/// The whole parameters at the front: the data types with their periods, and the arrays.
pub(crate) fn parameters(
    alloc: Global,
    bytes: &[u8],
) -> Result<(Items<(u64, u64)>, Items<ArrayParameter>), NoMemory>
    ensures { IfOk result (λ found. (found.0 ≡ pairs_in (parameters_at bytes.now))
        × (found.1 ≡ arrays_in (parameters_at bytes.now))) }
{
    let mut periods = Vec::new(alloc);
    let mut arrays = Vec::new(alloc);
    let mut rest = bytes;
    while let Some((next, after)) = parameter_at(rest) {
        keep(next, &mut periods, &mut arrays)?;
        rest = after;
    }
    Ok((Items::from_vec(periods), Items::from_vec(arrays)))
}

/// Puts a parameter behind those of its kind.
fn keep(
    parameter: Parameter,
    periods: &mut Vec<(u64, u64)>,
    arrays: &mut Vec<ArrayParameter>,
) -> Result<(), NoMemory>
    ensures pairs { OnOk result (periods.new.items
        ≡ periods.old.items ++ pairs_in (parameter ∷ [])) }
    ensures arrays { OnOk result (arrays.new.items
        ≡ arrays.old.items ++ arrays_in (parameter ∷ [])) }
{
    match parameter {
        Parameter::Pair(id, period) => periods.push((id, period))?,
        Parameter::Array(array) => arrays.push(array)?,
    }
    Ok(())
}

/// The last pair of a data type.
fn last_pair(id: u64, pairs: &[(u64, u64)]) -> Option<(u64, u64)>
    ensures { result ≡ last_of pair_id Option.None id pairs.now }
{
    let mut found = None;
    for pair in pairs {
        if pair.0 == id {
            found = Some(*pair);
        }
    }
    found
}

/// The last array of a data type.
fn last_array(id: u64, arrays: &[ArrayParameter]) -> Option<ArrayParameter>
    ensures { result ≡ last_of array_id Option.None id arrays.now }
{
    let mut found = None;
    for array in arrays {
        if array.id == id {
            found = Some(*array);
        }
    }
    found
}

/// The parameter of a data type, if the definition has one.
fn parameter_of(definition: &Definition, id: u64) -> Option<Parameter>
    ensures { result ≡ parameter_of definition.now id }
{
    if is_array(id) {
        let array = last_array(id, definition.arrays.as_slice())?;
        return Some(Parameter::Array(array));
    }
    if is_paired(id) {
        let pair = last_pair(id, definition.periods.as_slice())?;
        return Some(Parameter::Pair(pair.0, pair.1));
    }
    None
}

/// Appends the parameters of a definition, ascending by data type, each once.
pub(crate) fn append_parameters(definition: &Definition, out: &mut Vec<u8>) -> Result<(), NoMemory>
    ensures { OnOk result (out.new.items
        ≡ out.old.items ++ flat_map parameter_spelling (parameters_of definition.now)) }
{
    for id in 0..LAST_TYPE + 1 {
        append_if(parameter_of(definition, id), out)?;
    }
    Ok(())
}

/// Appends a parameter where there is one.
fn append_if(parameter: Option<Parameter>, out: &mut Vec<u8>) -> Result<(), NoMemory>
    ensures { OnOk result (out.new.items
        ≡ out.old.items ++ flat_map parameter_spelling (option_to_list parameter)) }
{
    match parameter {
        None => Ok(()),
        Some(Parameter::Pair(id, period)) => {
            append_int(id, out)?;
            append_int(period, out)
        }
        Some(Parameter::Array(array)) => append_array(&array, out),
    }
}

/// Appends an array.
fn append_array(array: &ArrayParameter, out: &mut Vec<u8>) -> Result<(), NoMemory>
    ensures { OnOk result (out.new.items
        ≡ out.old.items ++ parameter_spelling (Parameter.Array array.now)) }
{
    append_int(array.id, out)?;
    append_int(array.count, out)?;
    match array.period {
        None => Ok(()),
        Some(period) => append_int(period, out),
    }
}

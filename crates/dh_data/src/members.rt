//! Reads the member that a data file has for a memory.

ghost use Rattle.std.specs.Prelude.{◌≡◌, ◌↔◌, [], IfOk, IsOk, IsTrue};
ghost use Rattle.serde_json.specs.Data.{boolean, string};
ghost use Rattle.serde_json.specs.Find.{get_member};
ghost use Rattle.serde_json.specs.View.{view, members_view};
ghost use Rattle.dh_value.specs.Words.{IsInteger, IsValue, word_of};
ghost use Rattle.dh_data.specs.Reports.{is_signed as sign_of};
ghost use Rattle.dh_data.specs.DataFiles.{IsThisIfThere, IsFormat, FormatAgrees, HasDeclaredSizes as SizedBy, IsNoElement};
ghost use Rattle.dh_data.specs.Reading.{HasCountableNumbers, SaysContents, FindsData, FindsElement, PushesBehind, bitnum, found_data, width_number};

use crate::data_files::DataFault;
use crate::reports::{elements, signed};
use dh_tree::{Dim, Kind, MemEntry};
use dh_value::{fits, width};
use serde_json::{Map, Value};
use std::alloc::{AllocError, Global};

/// The member with this name.
pub fn member<'v>(members: &'v Map<String, Value>, name: &str) -> Option<&'v Value>
    ensures { found_data result ≡ get_member name.now (members_view members.now.entries) }
{
    members.get(name)
}

/// The contents of a memory, whose number is for the faults.
pub fn contents_of(
    alloc: Global,
    memory: u32,
    entry: &MemEntry,
    members: &Map<String, Value>,
) -> Result<Vec<u64>, DataFault>
    requires { HasCountableNumbers entry.now }
    ensures { SaysContents (members_view members.now.entries) memory entry.now result }
{
    if !entry.outside {
        let count = elements(entry.shape.dims.as_slice()) as usize;
        return Ok(vec![in alloc; 0; count]?);
    }
    let Some(data) = data_of(entry.shape.kind, member(members, entry.name.as_str())) else {
        return Err(DataFault::Format { memory });
    };
    let dims = entry.shape.dims.as_slice();
    if !is_sized(dims, data) {
        return Err(DataFault::Size { memory });
    }
    let mut values = Vec::with_capacity(alloc, elements(dims) as usize)?;
    if push_elements(&mut values, entry.shape.kind, dims, data)? {
        Ok(values)
    } else {
        let position = values.len() as u64;
        Err(DataFault::Value { memory, position })
    }
}

/// The value of `data`, where what was found is an object that has one, and its `format` agrees.
fn data_of(kind: Kind, found: Option<&Value>) -> Option<&Value>
    ensures { FindsData kind (found_data found.entry) (found_data result) }
{
    let members = found?.as_object()?;
    let data = member(members, "data")?;
    if agrees(kind, member(members, "format")) {
        Some(data)
    } else {
        None
    }
}

fn agrees(kind: Kind, format: Option<&Value>) -> bool
    ensures { IsTrue result ↔ FormatAgrees kind (found_data format.entry) }
{
    match format {
        Some(format) => is_format(kind, format),
        None => true,
    }
}

fn is_format(kind: Kind, format: &Value) -> bool
    ensures { IsTrue result ↔ IsFormat kind (view format.now) }
{
    match format.as_object() {
        Some(members) => {
            is_sign(kind, member(members, "is_signed"))
                && is_bitnum(member(members, "numeric_type"))
                && is_width(kind, member(members, "width"))
        }
        None => false,
    }
}

fn is_sign(kind: Kind, found: Option<&Value>) -> bool
    ensures { IsTrue result ↔ IsThisIfThere (found_data found.entry) (boolean (sign_of kind)) }
{
    match found {
        Some(value) => value.as_bool() == Some(signed(kind)),
        None => true,
    }
}

fn is_bitnum(found: Option<&Value>) -> bool
    ensures { IsTrue result ↔ IsThisIfThere (found_data found.entry) (string bitnum) }
{
    match found {
        Some(value) => value.as_str() == Some("bitnum"),
        None => true,
    }
}

fn is_width(kind: Kind, found: Option<&Value>) -> bool
    ensures { IsTrue result ↔ IsThisIfThere (found_data found.entry) (width_number kind) }
{
    match found {
        Some(value) => value.as_u64() == Some(u64::from(width(kind))),
        None => true,
    }
}

/// Whether the value is lists nested and as long as the dimensions say.
fn is_sized(dims: &[Dim], value: &Value) -> bool
    ensures { IsTrue result ↔ SizedBy dims.now (view value.now) }
{
    let Some((dim, rest)) = dims.split_first() else {
        return !value.is_array();
    };
    let Some(items) = value.as_array() else {
        return false;
    };
    if items.len() as u64 != dim.size {
        return false;
    }
    for item in items {
        if !is_sized(rest, item) {
            return false;
        }
    }
    true
}

/// Adds the elements of nested lists in order of indices, up to the first that is no whole number of
/// the kind. Answers whether there was none such.
fn push_elements(
    values: &mut Vec<u64>,
    kind: Kind,
    dims: &[Dim],
    value: &Value,
) -> Result<bool, AllocError>
    requires { IsInteger kind }
    ensures { IfOk result (PushesBehind kind dims.now (view value.now) values.old values.new) }
{
    let Some((_, rest)) = dims.split_first() else {
        return push_element(values, kind, value);
    };
    let Some(items) = value.as_array() else {
        return Ok(true);
    };
    for item in items {
        if !push_elements(values, kind, rest, item)? {
            return Ok(false);
        }
    }
    Ok(true)
}

/// Adds an element, where it is a whole number of the kind; answers whether it is one. An element that is
/// none takes no memory.
fn push_element(values: &mut Vec<u64>, kind: Kind, value: &Value) -> Result<bool, AllocError>
    requires { IsInteger kind }
    ensures pushes { IfOk result (PushesBehind kind [] (view value.now) values.old values.new) }
    ensures none { IsNoElement kind (view value.now) → IsOk result }
{
    match element_of(kind, value) {
        Some(bits) => {
            values.push(bits)?;
            Ok(true)
        }
        None => Ok(false),
    }
}

/// The bits of a whole number of the kind.
fn element_of(kind: Kind, value: &Value) -> Option<u64>
    requires { IsInteger kind }
    ensures { FindsElement kind (view value.now) result }
{
    let whole = value.as_number()?.as_i128()?;
    if fits(kind, whole) {
        Some(bits_of(kind, whole))
    } else {
        None
    }
}

/// The bits of a value of the kind.
fn bits_of(kind: Kind, whole: i128) -> u64
    requires kind { IsInteger kind }
    requires of_kind { IsValue kind whole }
    ensures { result ≡ (word_of kind whole).bits }
{
    // In two's complement a negative number stands for 2^width more.
    whole.rem_euclid(1 << width(kind)) as u64
}

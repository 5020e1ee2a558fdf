//! The line of a link.
ghost use Rattle.std.specs.Prelude.{◌≡◌, ◌∷◌, [], codes, IfOk};
ghost use Rattle.std.specs.Option.{option_map};
ghost use Rattle.json.specs.Json.{array, string};
ghost use Rattle.json.specs.Tree.{json_tokens};
ghost use Rattle.coap_json.specs.LinkObjects.{link_fields, link_object, parameter_items, parameter_object, value_field};
ghost use Rattle.coap_json.specs.Objects.{IsLineOf};
ghost use Rattle.coap_json.specs.Written.{Adds, AddsFields};

use crate::line::{add_content, add_null, add_text, begin, end};
use coap_types::Moment;
use json::Writer;
use std::alloc::{AllocError, Allocator};

/// A parameter of a link (RFC 6690, section 2).
#[derive(Clone, Copy, Debug)]
pub struct Parameter<'a> {
    /// Its name.
    pub name: &'a str,
    /// The bytes of its value, where it has one.
    pub value: Option<&'a [u8]>,
}

// Adds the value of a parameter, null where there is none.
fn add_value<A: Allocator + Copy>(
    alloc: A,
    writer: &mut Writer<A>,
    value: Option<&[u8]>,
) -> Result<(), AllocError>
    ensures { AddsFields result writer.old writer.new
        (value_field (option_map (λ v. v.now) value.entry) ∷ []) }
{
    match value {
        Some(bytes) => add_content(alloc, writer, bytes),
        None => add_null(writer, "text"),
    }
}

// Writes a parameter.
fn put_parameter<A: Allocator + Copy>(
    alloc: A,
    writer: &mut Writer<A>,
    parameter: &Parameter<'_>,
) -> Result<(), AllocError>
    ensures { Adds result writer.old writer.new (json_tokens (parameter_object parameter.now)) }
{
    writer.begin_object()?;
    add_text(writer, "name", parameter.name)?;
    add_value(alloc, writer, parameter.value)?;
    writer.end_object()
}

// Adds the parameters of a link.
fn add_parameters<A: Allocator + Copy>(
    alloc: A,
    writer: &mut Writer<A>,
    parameters: &[Parameter<'_>],
) -> Result<(), AllocError>
    ensures { AddsFields result writer.old writer.new
        ((codes "parameters", array (parameter_items parameters.now)) ∷ []) }
{
    writer.key("parameters")?;
    writer.begin_array()?;
    for parameter in parameters {
        put_parameter(alloc, writer, parameter)?;
    }
    writer.end_array()
}

// Adds what is told of a link.
fn add_link<A: Allocator + Copy>(
    alloc: A,
    writer: &mut Writer<A>,
    target: &str,
    parameters: &[Parameter<'_>],
) -> Result<(), AllocError>
    ensures { AddsFields result writer.old writer.new (link_fields target.now parameters.now) }
{
    add_text(writer, "target", target)?;
    add_parameters(alloc, writer, parameters)
}

/// The line of a link that a server was found to have at this moment: its target, and its parameters (RFC 6690).
pub fn link_line<A: Allocator + Copy>(
    alloc: A,
    at: Moment,
    target: &str,
    parameters: &[Parameter<'_>],
) -> Result<Vec<u8, A>, AllocError>
    // The line of a link is the text of an object with its target and each of its parameters, in their order.
    ensures { IfOk result (λ line. IsLineOf line.items (link_object at.0 target.now parameters.now)) }
{
    let mut writer = begin(alloc, at, "link")?;
    add_link(alloc, &mut writer, target, parameters)?;
    end(writer)
}

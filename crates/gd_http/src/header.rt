//! What the headers of a request say.
ghost use Rattle.std.specs.Prelude.{◌≡◌, Some};
ghost use Rattle.gd_target.specs.Faults.{Gives};
ghost use Rattle.gd_target.specs.Queries.{shown, once};
ghost use Rattle.gd_http.specs.Headers.{text_value, value_in, header_values, condition_in, condition_of, range_in, range_of};

use crate::range::{Range, range_of_text};
use gd_frame::Field;
use gd_item::Condition;
use gd_names::{List, Text, TextFault};
use gd_target::{RequestFault, one_more};
use std::alloc::Global;

/// The field's value, where it has this name.
#[tactic(auto, unfolding(crate::specs::Headers::value_in))]
fn value_in<'f>(name: &[u8], field: &'f Field) -> Option<&'f [u8]>
    ensures { shown result ≡ value_in name.now field.now }
{
    if field.name.as_slice().eq_ignore_ascii_case(name) {
        Some(field.value.as_slice())
    } else {
        None
    }
}

/// The one value that the headers have under a name, if any.
pub fn header_value<'f>(
    fields: &'f List<Field>,
    name: &[u8],
) -> Result<Option<&'f [u8]>, RequestFault>
    ensures { Gives shown result (once (header_values name.now fields.now)) }
{
    let mut found = None;
    for field in fields.as_slice() {
        found = one_more(found, value_in(name, field))?;
    }
    Ok(found)
}

/// The text of a value.
pub fn text_of(alloc: Global, value: &[u8]) -> Result<Text, RequestFault>
    ensures { Gives (λ t. t) result (text_value value.now) }
{
    match Text::from_bytes(alloc, value) {
        Ok(text) => Ok(text),
        Err(TextFault::NotUtf8) => Err(RequestFault::Invalid),
        Err(TextFault::Memory) => Err(RequestFault::Memory),
    }
}

fn condition_in(alloc: Global, value: Option<&[u8]>) -> Result<Condition, RequestFault>
    ensures { Gives (λ x. x) result (condition_in (shown value.entry)) }
{
    match value {
        None => Ok(Condition::Free),
        Some(value) => {
            let text = text_of(alloc, value)?;
            Ok(Condition::Match(text))
        }
    }
}

#[tactic(auto, unfolding(crate::specs::Headers::condition_of))]
pub fn condition_of(alloc: Global, fields: &List<Field>) -> Result<Condition, RequestFault>
    ensures { Gives (λ x. x) result (condition_of fields.now) }
{
    let value = header_value(fields, b"If-Match")?;
    condition_in(alloc, value)
}

#[tactic(auto, unfolding(crate::specs::Headers::range_of))]
pub fn range_of(fields: &List<Field>) -> Result<Range, RequestFault>
    ensures { Gives (λ x. x) result (range_of fields.now) }
{
    let value = header_value(fields, b"Content-Range")?;
    range_in(value)
}

fn range_in(value: Option<&[u8]>) -> Result<Range, RequestFault>
    ensures { Gives (λ x. x) result (range_in (shown value.entry)) }
{
    match value {
        None => Err(RequestFault::Invalid),
        Some(text) => range_of_text(text).ok_or(RequestFault::Invalid),
    }
}

//! An error.
ghost use Rattle.std.specs.Prelude.{◌≡◌, codes, IfOk};
ghost use Rattle.serde_json.specs.Find.{get};
ghost use Rattle.serde_json.specs.View.{view};
ghost use Rattle.serde_json.specs.Written.{compact_text};
ghost use Rattle.gd_json.specs.Bodies.{body, JsonBody};
ghost use Rattle.gd_json.specs.Faults.{Gives};
ghost use Rattle.gd_json.specs.Errors.{code_of, error_at, error_data};

use crate::fault::{JsonFault, Member};
use crate::member::{needed_object, needed_text, only, optional_text, put_text};
use crate::text::{parse, print};
use gd_item::ErrorCode;
use gd_names::{Bytes, NoMemory};
use serde_json::{Map, Value};
use std::alloc::Global;

#[tactic(auto, unfolding(crate::specs::Errors::code_of))]
fn code_of(text: &str) -> Option<ErrorCode>
    ensures { result ≡ code_of text.now }
{
    match text {
        "invalidRequest" => Some(ErrorCode::InvalidRequest),
        "invalidRange" => Some(ErrorCode::InvalidRange),
        "itemNotFound" => Some(ErrorCode::ItemNotFound),
        "notSupported" => Some(ErrorCode::NotSupported),
        "nameAlreadyExists" => Some(ErrorCode::NameAlreadyExists),
        "resyncChangesApplyDifferences" => Some(ErrorCode::ResyncChangesApplyDifferences),
        "resyncChangesUploadDifferences" => Some(ErrorCode::ResyncChangesUploadDifferences),
        "resourceModified" => Some(ErrorCode::ResourceModified),
        "failedDependency" => Some(ErrorCode::FailedDependency),
        "generalException" => Some(ErrorCode::GeneralException),
        "quotaLimitReached" => Some(ErrorCode::QuotaLimitReached),
        _ => None,
    }
}

#[tactic(auto, unfolding(crate::specs::Errors::error_at))]
fn error_of(alloc: Global, value: &Value) -> Result<ErrorCode, JsonFault>
    ensures { Gives (λ x. x) result (error_at (view value.now)) }
{
    let error = needed_object(value, "error", Member::Code)?;
    let text = needed_text(error, "code", Member::Code)?;
    let code = code_of(text).ok_or(JsonFault::BadMember(Member::Code))?;
    optional_text(alloc, error, "message", Member::Message)?;
    Ok(code)
}

/// Reads an error.
pub fn read_error(alloc: Global, bytes: &[u8]) -> Result<ErrorCode, JsonFault>
    ensures { Gives (λ x. x) result (body error_at bytes.now) }
{
    let value = parse(alloc, bytes)?;
    error_of(alloc, &value)
}

fn error_value(alloc: Global, code: &ErrorCode) -> Result<Value, NoMemory>
    ensures { IfOk result (λ v. view v ≡ error_data code.now) }
{
    let text = code.as_str();
    let mut map = Map::new(alloc);
    put_text(alloc, &mut map, "code", text)?;
    put_text(alloc, &mut map, "message", text)?;
    only(alloc, "error", Value::Object(map))
}

/// Writes an error. Its message is its code.
pub fn write_error(alloc: Global, code: &ErrorCode) -> Result<Bytes, NoMemory>
    ensures text { IfOk result (λ b. b ≡ compact_text (error_data code.now)) }
    ensures read_again { IfOk result (λ b. JsonBody error_at code.now b) }
{
    let value = error_value(alloc, code)?;
    print(alloc, &value)
}

//! Between a text and its value. `serde_json` does not promise which of its two faults of syntax a text has, how the
//! digits of a float are written, nor what its free functions read; so only `Value` is used, and no body has a float.
ghost use Rattle.std.specs.Prelude.{◌≡◌, ◌≤◌, false, Ok, IfOk};
ghost use Rattle.serde_json.specs.Data.{depth};
ghost use Rattle.serde_json.specs.View.{view};
ghost use Rattle.serde_json.specs.Written.{compact_text, has_float};
ghost use Rattle.gd_json.specs.Bodies.{body};
ghost use Rattle.gd_json.specs.Faults.{Gives};

use crate::fault::JsonFault;
use gd_names::{Bytes, NoMemory};
use serde_json::Value;
use std::alloc::Global;

/// The value of a text.
pub fn parse(alloc: Global, bytes: &[u8]) -> Result<Value, JsonFault>
    ensures { Gives (λ v. view v) result (body (λ d. Ok d) bytes.now) }
{
    match Value::from_slice(alloc, bytes) {
        Ok(value) => Ok(value),
        Err(fault) => {
            if fault.is_memory() {
                Err(JsonFault::Memory)
            } else {
                Err(JsonFault::NotJson)
            }
        }
    }
}

/// The text of a value, in one buffer.
pub fn print(alloc: Global, value: &Value) -> Result<Bytes, NoMemory>
    ensures text { IfOk result (λ b. has_float (view value.now) ≡ false → b ≡ compact_text (view value.now)) }
    ensures read_again { IfOk result (λ b. depth (view value.now) ≤ 127 → body (λ d. Ok d) b ≡ Ok (view value.now)) }
{
    let bytes = value.to_vec(alloc)?;
    Ok(Bytes::from_vec(bytes))
}

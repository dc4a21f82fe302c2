//! What the body of a request says. Whatever is wrong with a body, the request is invalid.
ghost use Rattle.std.specs.Prelude.{◌≡◌};
ghost use Rattle.gd_json.specs.Bodies.{body, or_empty};
ghost use Rattle.gd_json.specs.Changes.{folder_body_at, patch_at, begin_at};
ghost use Rattle.gd_target.specs.Faults.{Gives};
ghost use Rattle.gd_http.specs.Asking.{or_invalid};

use gd_json::{BeginBody, FolderBody, JsonFault, PatchBody, read_begin, read_folder, read_patch};
use gd_target::RequestFault;
use std::alloc::Global;

pub fn folder_in(alloc: Global, bytes: &[u8]) -> Result<FolderBody, RequestFault>
    ensures { Gives (λ x. x) result (or_invalid (body folder_body_at bytes.now)) }
{
    match read_folder(alloc, bytes) {
        Ok(folder) => Ok(folder),
        Err(JsonFault::Memory) => Err(RequestFault::Memory),
        Err(_) => Err(RequestFault::Invalid),
    }
}

pub fn patch_in(alloc: Global, bytes: &[u8]) -> Result<PatchBody, RequestFault>
    ensures { Gives (λ x. x) result (or_invalid (body patch_at bytes.now)) }
{
    match read_patch(alloc, bytes) {
        Ok(patch) => Ok(patch),
        Err(JsonFault::Memory) => Err(RequestFault::Memory),
        Err(_) => Err(RequestFault::Invalid),
    }
}

pub fn begin_in(alloc: Global, bytes: &[u8]) -> Result<BeginBody, RequestFault>
    ensures { Gives (λ x. x) result (or_invalid (body begin_at (or_empty bytes.now))) }
{
    match read_begin(alloc, bytes) {
        Ok(begin) => Ok(begin),
        Err(JsonFault::Memory) => Err(RequestFault::Memory),
        Err(_) => Err(RequestFault::Invalid),
    }
}

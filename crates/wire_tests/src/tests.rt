use gd_json::Wire;
use std::alloc::Global;
use std::test::Fail;

mod again;
mod answers;
mod bytes;
mod frames;
mod replies;
mod requests;
mod streams;

fn wire(alloc: Global) -> Result<Wire, Fail> {
    Ok(Wire::read(alloc, b"http://127.0.0.1:8080")?)
}

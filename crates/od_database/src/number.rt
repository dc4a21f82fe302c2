//! Numbers and digests as columns have them.
ghost use Rattle.std.specs.Prelude.{◌≡◌, IfOk};
ghost use Rattle.od_database.specs.Numbers.{integer_of, natural_of, digest_blob, digest_from, digest_text, digest_of_text};

use gd_item::Digest;
use gd_names::{Bytes, NoMemory, Text};
use hex::FromHex;
use std::alloc::Global;

/// The number as an INTEGER, if it fits one.
pub fn integer_of(number: u64) -> Option<i64>
    ensures { result ≡ integer_of number }
{
    if number < 1 << 63 {
        Some(number as i64)
    } else {
        None
    }
}

/// The number that an INTEGER is, if it is none below 0.
pub fn natural_of(integer: i64) -> Option<u64>
    ensures { result ≡ natural_of integer }
{
    if integer < 0 {
        None
    } else {
        Some(integer as u64)
    }
}

pub fn digest_blob(alloc: Global, digest: &Digest) -> Result<Bytes, NoMemory>
    ensures { IfOk result (λ blob. blob ≡ digest_blob digest.now) }
{
    Bytes::from_slice(alloc, &digest.0)
}

/// The digest that a BLOB of 32 bytes is.
pub fn digest_from(blob: &Bytes) -> Option<Digest>
    ensures { result ≡ digest_from blob.now }
{
    match <[u8; 32]>::try_from(blob.as_slice()) {
        Ok(bytes) => Some(Digest(bytes)),
        Err(_) => None,
    }
}

pub fn digest_text(alloc: Global, digest: &Digest) -> Result<Text, NoMemory>
    ensures { IfOk result (λ text. text ≡ digest_text digest.now) }
{
    let text = hex::encode(alloc, digest.0.as_slice())?;
    Ok(Text::from_string(text))
}

#[tactic(auto, unfolding(crate::specs::Numbers::digest_of_text))]
pub fn digest_of_text(text: &Text) -> Option<Digest>
    ensures { result ≡ digest_of_text text.now }
{
    match <[u8; 32] as FromHex>::from_hex(text.as_str()) {
        Ok(bytes) => Some(Digest(bytes)),
        Err(_) => None,
    }
}

//! The rows of the table of agreements.
ghost use Rattle.std.specs.Prelude.{◌≡◌, pos, true, false, None, Some, IfOk, IsErrOf};
ghost use Rattle.std.specs.Option.{option_map};
ghost use Rattle.gd_names.specs.Paths.{path_text};
ghost use Rattle.od_database.specs.Numbers.{digest_blob};
ghost use Rattle.od_database.specs.Agreements.{agreed_code, agreed_blob, agreement_of, agreed_file, agreed_of, flight_of, base_of, is_spelled};

use crate::fault::DatabaseFault;
use crate::number::{digest_blob, digest_from, natural_of};
use gd_item::Digest;
use gd_names::{Bytes, NoMemory, Path, PathFault, Text};
use od_keeper::{Agreed, BaseRow};
use std::alloc::Global;

/// A row of the table `base`, column by column.
#[derive(Debug, PartialEq, Eq, Drop)]
pub struct AgreementRow {
    pub path: Text,
    pub kind: i64,
    pub digest: Option<Bytes>,
    pub flight: Option<Bytes>,
}

fn agreed_code(what: &Agreed) -> i64
    ensures { result ≡ pos (agreed_code what.now) }
{
    match what {
        Agreed::Nothing => 0,
        Agreed::Folder => 1,
        Agreed::File(_) => 2,
    }
}

fn agreed_blob(alloc: Global, what: &Agreed) -> Result<Option<Bytes>, NoMemory>
    ensures { IfOk result (λ blob. blob ≡ agreed_blob what.now) }
{
    match what {
        Agreed::Nothing | Agreed::Folder => Ok(None),
        Agreed::File(digest) => {
            let blob = digest_blob(alloc, digest)?;
            Ok(Some(blob))
        }
    }
}

fn flight_blob(alloc: Global, flight: &Option<Digest>) -> Result<Option<Bytes>, NoMemory>
    ensures { IfOk result (λ blob. blob ≡ option_map digest_blob flight.now) }
{
    match flight {
        None => Ok(None),
        Some(digest) => {
            let blob = digest_blob(alloc, digest)?;
            Ok(Some(blob))
        }
    }
}

fn agreed_file(digest: &Option<Bytes>) -> Option<Agreed>
    ensures { result ≡ agreed_file digest.now }
{
    match digest {
        None => None,
        Some(blob) => match digest_from(blob) {
            Some(digest) => Some(Agreed::File(digest)),
            None => None,
        },
    }
}

fn agreed_of(code: i64, digest: &Option<Bytes>) -> Option<Agreed>
    ensures { result ≡ agreed_of code digest.now }
{
    let code = natural_of(code)?;
    if code == 2 {
        return agreed_file(digest);
    }
    match digest {
        Some(_) => None,
        None if code == 0 => Some(Agreed::Nothing),
        None if code == 1 => Some(Agreed::Folder),
        None => None,
    }
}

fn flight_of(flight: &Option<Bytes>) -> Option<Option<Digest>>
    ensures { result ≡ flight_of flight.now }
{
    match flight {
        None => Some(None),
        Some(blob) => match digest_from(blob) {
            Some(digest) => Some(Some(digest)),
            None => None,
        },
    }
}

/// The text of the path. Refused where it is not read back as that path.
pub fn spelled(alloc: Global, path: &Path) -> Result<Text, DatabaseFault>
    ensures ok { IfOk result (λ text. (is_spelled path.now ≡ true) × (text ≡ path_text path.now)) }
    ensures refused { IsErrOf result DatabaseFault.NoImage → is_spelled path.now ≡ false }
    ensures taken { IsErrOf result DatabaseFault.Refused → ⊥ }
{
    let text = path.write(alloc)?;
    match Path::read(alloc, text.as_bytes()) {
        Ok(read) => {
            if read == *path {
                Ok(text)
            } else {
                Err(DatabaseFault::NoImage)
            }
        }
        Err(PathFault::BadPath) => Err(DatabaseFault::NoImage),
        Err(PathFault::Memory) => Err(DatabaseFault::Memory),
    }
}

impl AgreementRow {
    /// The row of an agreement. Refused where the text of its path is not read back as that path.
    pub fn of(alloc: Global, base: &BaseRow) -> Result<AgreementRow, DatabaseFault>
        ensures ok { IfOk result (λ row. agreement_of base.now ≡ Some row) }
        ensures refused { IsErrOf result DatabaseFault.NoImage → agreement_of base.now ≡ None }
        ensures taken { IsErrOf result DatabaseFault.Refused → ⊥ }
    {
        let path = spelled(alloc, &base.path)?;
        let digest = agreed_blob(alloc, &base.what)?;
        let flight = flight_blob(alloc, &base.flight)?;
        Ok(AgreementRow {
            path,
            kind: agreed_code(&base.what),
            digest,
            flight,
        })
    }

    /// The agreement of the row, if it is one.
    pub fn read(&self, alloc: Global) -> Result<BaseRow, DatabaseFault>
        ensures ok { IfOk result (λ base. base_of self.now ≡ Some base) }
        ensures refused { IsErrOf result DatabaseFault.NoImage → base_of self.now ≡ None }
        ensures taken { IsErrOf result DatabaseFault.Refused → ⊥ }
    {
        let what = agreed_of(self.kind, &self.digest).ok_or(DatabaseFault::NoImage)?;
        let flight = flight_of(&self.flight).ok_or(DatabaseFault::NoImage)?;
        match Path::read(alloc, self.path.as_bytes()) {
            Ok(path) => Ok(BaseRow { path, what, flight }),
            Err(PathFault::BadPath) => Err(DatabaseFault::NoImage),
            Err(PathFault::Memory) => Err(DatabaseFault::Memory),
        }
    }
}

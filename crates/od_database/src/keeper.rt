ghost use Rattle.std.specs.Prelude.{◌≡◌, ◌≤◌, IfOk};

use crate::fault::DatabaseFault;
use crate::setup::open;
use crate::statements::{Database, Reading, Writing};
use crate::tables::is_current;
use crate::write::writes_of;
use gd_names::Text;
use od_keeper::{Change, Image, Keeper, KeeperFault};
use std::alloc::Global;

/// A keeper in a file of SQLite. It tells no images: nothing is proved of what the file keeps.
#[derive(Drop)]
pub struct SqlKeeper {
    alloc: Global,
    database: Database,
    statements: Option<(Reading, Writing)>,
    faults: u64,
}

fn prepared(database: &mut Database) -> Result<(Reading, Writing), DatabaseFault> {
    let reading = Reading::prepare(database)?;
    let writing = Writing::prepare(database)?;
    Ok((reading, writing))
}

fn read(
    alloc: Global,
    database: &mut Database,
    statements: &Option<(Reading, Writing)>,
) -> Result<Image, DatabaseFault> {
    let Some((reading, _)) = statements else {
        return Err(DatabaseFault::Refused);
    };
    let tables = reading.tables(alloc, database)?;
    tables.into_image(alloc)
}

/// Tables of another version take no change.
fn expect_version(reading: &Reading, database: &mut Database) -> Result<(), DatabaseFault> {
    let version = reading.setting(database, "version")?;
    if is_current(&version) {
        Ok(())
    } else {
        Err(DatabaseFault::NoImage)
    }
}

fn write(
    alloc: Global,
    database: &mut Database,
    statements: &Option<(Reading, Writing)>,
    change: &Change,
) -> Result<(), DatabaseFault> {
    let Some((reading, writing)) = statements else {
        return Err(DatabaseFault::Refused);
    };
    expect_version(reading, database)?;
    let writes = writes_of(alloc, change)?;
    writing.commit(database, writes.as_slice())
}

impl SqlKeeper {
    ghost use Rattle.od_keeper.specs.Keeping.{HasKeeperCause};
    ghost use Rattle.od_database.specs.Faults.{keeper_fault};
    ghost use Rattle.od_database.specs.Keeping.{faults_of};

    /// Opens the database at the path, or makes it. One of version 1 becomes one of version 2. One of another version
    /// is opened, and each call fails.
    pub fn new(rt: &HostRuntime, path: &Text) -> Result<SqlKeeper, KeeperFault>
        ensures { IfOk result (λ keeper. faults_of keeper ≡ 0) }
    {
        match open(rt, path) {
            Ok(database) => Ok(SqlKeeper {
                alloc: rt.alloc(),
                database,
                statements: None,
                faults: 0,
            }),
            Err(fault) => Err(fault.told()),
        }
    }

    /// How often a call has failed, up to the last value of a u64.
    pub fn faults(&self) -> u64
        ensures { result ≡ faults_of self.now }
    {
        self.faults
    }

    /// Prepares the statements, where that is not done yet.
    fn prepare(&mut self) -> Result<(), DatabaseFault>
        ensures { faults_of self.new ≡ faults_of self.old }
    {
        if self.statements.is_none() {
            let statements = prepared(&mut self.database)?;
            self.statements = Some(statements);
        }
        Ok(())
    }

    fn image(&mut self, alloc: Global) -> Result<Image, DatabaseFault>
        ensures { faults_of self.new ≡ faults_of self.old }
    {
        self.prepare()?;
        read(alloc, &mut self.database, &self.statements)
    }

    fn change(&mut self, change: &Change) -> Result<(), DatabaseFault>
        ensures { faults_of self.new ≡ faults_of self.old }
    {
        self.prepare()?;
        write(self.alloc, &mut self.database, &self.statements, change)
    }

    /// Counts a fault, unless it is want of memory.
    fn failed(&mut self, fault: DatabaseFault) -> KeeperFault
        ensures cause { HasKeeperCause {T = Unit} (faults_of self.old) (faults_of self.new) (Err result) }
        ensures fault { result ≡ keeper_fault fault }
    {
        match fault {
            DatabaseFault::Memory => KeeperFault::Memory,
            DatabaseFault::Refused | DatabaseFault::NoImage => {
                self.faults = self.faults.saturating_add(1);
                KeeperFault::Failed
            }
        }
    }
}

impl Keeper for SqlKeeper {
    ghost use Rattle.std.specs.Prelude.{◌≤◌, false, None};
    ghost use Rattle.od_database.specs.Keeping.{faults_of, GoesOn, going_nowhere, going_further, going_later};

    ghost images = { λ _. None };

    ghost faults = { λ k. faults_of k };

    ghost undisturbed = { λ _. false };

    ghost goes = { GoesOn };

    ghost goes_refl = { going_nowhere };

    ghost goes_trans = { going_further };

    ghost goes_later = { going_later };

    fn load(&mut self, alloc: Global) -> Result<Image, KeeperFault> {
        match self.image(alloc) {
            Ok(image) => Ok(image),
            Err(fault) => Err(self.failed(fault)),
        }
    }

    fn commit(&mut self, change: &Change) -> Result<(), KeeperFault> {
        match self.change(change) {
            Ok(()) => Ok(()),
            Err(fault) => Err(self.failed(fault)),
        }
    }
}

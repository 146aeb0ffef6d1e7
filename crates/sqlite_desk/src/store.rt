//! A store in a SQLite database.

ghost use Rattle.std.specs.Prelude.{◌≡◌, ℕ, false, None, Err};
ghost use Rattle.sqlite_desk.specs.Counting.{CountsEach};

use ill_saved::{Store, StoreFault};
use sqlite::{Alter, Connection, Error, ErrorCode, params};
use std::alloc::Global;

/// Makes the table of the record, unless it is there.
const CREATE: &str =
    "CREATE TABLE IF NOT EXISTS record (id INTEGER PRIMARY KEY, bytes BLOB NOT NULL) STRICT";

/// Reads the record.
const LOAD: &str = "SELECT bytes FROM record";

/// Replaces the record. One statement is committed whole, or not at all.
const SAVE: &str = "INSERT OR REPLACE INTO record (id, bytes) VALUES (1, ?1)";

/// A store of one record, in a table of a SQLite database.
#[derive(Drop)]
pub struct SqliteStore<S: Alter> {
    /// The connection to the database.
    conn: Connection<S>,
    /// The number of calls that have answered `Failed`. A lack of memory is not counted.
    failures: u64,
}

impl<S: Alter + Drop> SqliteStore<S> {
    /// Returns the store in the database of `conn`. Makes the table of the record, unless it is there.
    pub fn over(mut conn: Connection<S>) -> Result<SqliteStore<S>, Error> {
        conn.execute(CREATE, &[])?;
        Ok(SqliteStore { conn, failures: 0 })
    }

    /// Returns the connection to the database.
    pub fn into_connection(self) -> Connection<S> {
        self.conn
    }

    /// Returns the bytes in the table, or `None` if it has no row.
    fn read(&mut self) -> Result<Option<Vec<u8>>, Error>
        ensures { self.new.failures ≡ self.old.failures }
    {
        match self.conn.query_all(LOAD, &[])?.first() {
            Some(row) => Ok(Some(row.get(0)?)),
            None => Ok(None),
        }
    }

    /// Returns the store's fault for `error`, and counts it, unless memory ran out.
    fn fault(&mut self, error: Error) -> StoreFault
        ensures { CountsEach {X = ℕ} self.old.failures (Err result) self.new.failures }
    {
        if error == Error::SqliteFailure(ErrorCode::OutOfMemory) {
            return StoreFault::OutOfMemory;
        }
        self.failures = self.failures.saturating_add(1);
        StoreFault::Failed
    }
}

/// The state of this store is not correct, and its committed bytes are not stated. The contracts of `sqlite` hold only
/// as long as the disk is clean, which may end at any call. A correct store is correct for good. Each call that answers
/// `Failed` is counted.
impl<S: Alter + Drop> Store for SqliteStore<S> {
    ghost state = { λ s. record {
      path = None;
      committed = None;
      failures = s.failures;
      is_correct = false;
      plan = None;
    } };

    // The store promises nothing of the record that a loss of power leaves.
    ghost leaves = { λ _ _. Unit {0} };

    /// Returns the record in the table, or `None` if it has none.
    fn load(&mut self, _alloc: Global) -> Result<Option<Vec<u8>>, StoreFault>
        ensures { CountsEach self.old.failures result self.new.failures }
    {
        match self.read() {
            Ok(found) => Ok(found),
            Err(error) => Err(self.fault(error)),
        }
    }

    /// Replaces the record in the table by `bytes`.
    fn save(&mut self, _alloc: Global, bytes: &[u8]) -> Result<(), StoreFault>
        ensures { CountsEach self.old.failures result self.new.failures }
    {
        match self.conn.execute(SAVE, params![bytes]) {
            Ok(_) => Ok(()),
            Err(error) => Err(self.fault(error)),
        }
    }
}

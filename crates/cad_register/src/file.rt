//! Opening the database of a register's file.

ghost use Rattle.std.specs.Prelude.{◌≡◌, IfOk, IfErr};
ghost use Rattle.sqlite.specs.Files.{file_state};
ghost use Rattle.sqlite.specs.WalFiles.{image_at};
ghost use Rattle.cad_register.specs.Images.{FindsRegister, IsOpeningFault, IsFindingFault, opening_fault};

use cad_versions::RegisterFault;
use sqlite::{Connection, Error, ErrorCode, FileFrom, FileStore, Start};
use std::fs;
use std::io::ErrorKind;

/// Why a file is not opened.
fn open_fault(error: Error) -> RegisterFault
    ensures { result ≡ opening_fault error }
{
    match error {
        Error::SqliteFailure(ErrorCode::OutOfMemory) => RegisterFault::Memory,
        _ => RegisterFault::Store,
    }
}

/// Opens the database of a file, which held this at first. If there is no file, it is made.
pub fn open_file<S: Start>(
    rt: &HostRuntime,
    path: &str,
    start: S,
) -> Result<Connection<FileStore<FileFrom<S>>>, RegisterFault>
    ensures found { IfOk result (λ connection. FindsRegister (image_at S.Start) (file_state connection)) }
    ensures cause { IfErr result IsOpeningFault }
{
    match Connection::open_from(rt, path, false, start) {
        Ok(connection) => Ok(connection),
        Err((error, _)) => Err(open_fault(error)),
    }
}

/// Whether there is no file, or one without a byte. A database's first page is written completely before its log counts, so such a file
/// holds no database.
fn is_nothing(rt: &HostRuntime, path: &str) -> bool {
    match fs::metadata(rt, path) {
        Ok(found) => found.is_file() && found.len() == 0,
        Err(error) => error.kind() == ErrorKind::NotFound,
    }
}

/// Opens the database of a file, which held this at first. If there is no file none is made, and an empty one stays empty.
pub fn open_standing_file<S: Start>(
    rt: &HostRuntime,
    path: &str,
    start: S,
) -> Result<Connection<FileStore<FileFrom<S>>>, RegisterFault>
    ensures found { IfOk result (λ connection. FindsRegister (image_at S.Start) (file_state connection)) }
    ensures cause { IfErr result IsFindingFault }
{
    if is_nothing(rt, path) {
        return Err(RegisterFault::NotARegister);
    }
    open_file(rt, path, start)
}

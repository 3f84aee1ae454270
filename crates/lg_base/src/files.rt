//! Files that are read whole, by name.
ghost use Rattle.std.specs.Prelude.{◌≡◌, ◌≤◌, ℕ, List, IfOk, IfSome, vec_len};
ghost use Rattle.std.specs.declared.option.Option.{Option};
ghost use Rattle.lg_base.specs.Contents.{Contents, file};
ghost use Rattle.lg_base.specs.Files.{asked_after, Reads, HasReadCause, fault_of};
ghost use Rattle.std.specs.IoError.{error_kind};
ghost use Rattle.lg_base.specs.declared.files.FileError.TheVariants.{NoMemory as out_of_memory};

use crate::memory::NoMemory;
use std::alloc::{AllocError, AllocFailed, Global};
use std::io;
use thiserror::Error;

/// Why a file was not read.
#[derive(Clone, Copy, Debug, PartialEq, Eq, Error)]
pub enum FileError {
    /// Memory ran out.
    #[error("out of memory")]
    NoMemory,
    /// The file is not there, or reading it failed: the count of faults rose.
    #[error("the file cannot be read")]
    Failed,
    /// The file has more bytes than the limit that was given.
    #[error("the file is too long")]
    TooLong,
}

impl From<NoMemory> for FileError {
    ghost from_gives = { λ _ error. error ≡ out_of_memory };

    fn from(_error: NoMemory) -> FileError {
        FileError::NoMemory
    }
}

impl From<AllocError> for FileError {
    ghost from_gives = { λ _ error. error ≡ out_of_memory };

    fn from(_error: AllocError) -> FileError {
        FileError::NoMemory
    }
}

impl<T: Drop> From<AllocFailed<T>> for FileError {
    ghost from_gives = { λ _ error. error ≡ out_of_memory };

    fn from(_error: AllocFailed<T>) -> FileError {
        FileError::NoMemory
    }
}

impl From<io::Error> for FileError {
    ghost from_gives = { λ cause error. error ≡ fault_of (error_kind cause) };

    fn from(cause: io::Error) -> FileError {
        if cause.kind() == io::ErrorKind::OutOfMemory {
            FileError::NoMemory
        } else {
            FileError::Failed
        }
    }
}

/// Files that are read whole, by name.
///
/// Contracts see what they hold, where the object tells it, as a finite map from names to bytes that no call changes;
/// the names asked so far; and a count of faults, which never falls and stops at 2^64 - 1. A name that is not there
/// counts as a fault.
pub trait Files {
    ghost contents: { Self → Option Contents };

    ghost asked: { Self → List (List ℕ) };

    ghost faults: { Self → ℕ };

    /// All bytes of the file with this name, which are at most `limit`.
    ///
    /// Every answer but `NoMemory` adds the name to the names asked. `TooLong` comes in place of the bytes exactly where
    /// there are more than `limit`, and `Failed` only where the count of faults rose in this call.
    fn read_all(&mut self, alloc: Global, name: &str, limit: u64) -> Result<Vec<u8>, FileError>
        ensures unchanged { contents self.new ≡ contents self.old }
        ensures asked { asked self.new ≡ asked_after (asked self.old) name.now result }
        ensures told { IfSome (contents self.old) (λ known. Reads (file known name.now) limit result) }
        ensures limited { IfOk result (λ bytes. vec_len bytes ≤ limit) }
        ensures cause { HasReadCause (faults self.old) (faults self.new) result };
}

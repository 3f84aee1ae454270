//! Files in memory, which fail where they are told to.
ghost use Rattle.std.specs.Prelude.{Some, ◌≡◌, ◌≤◌, OnOk, OnErr, IfOk, IfSome, IfNone, ◌∷◌, ◌++◌, [], vec_len};
ghost use Rattle.std.specs.FinMap as finite;
ghost use Rattle.lg_base.specs.Contents.{file};
ghost use Rattle.lg_base.specs.Files.{asked_after, faults_after, Reads, HasReadCause};
ghost use Rattle.lg_base.specs.MemFiles.{read_fails, FailsWhere};

use crate::files::{FileError, Files};
use crate::memory::NoMemory;
use crate::text::copied;
use std::alloc::Global;
use std::collections::VecDeque;
use std::marker::Model;

/// Files in memory: a fake that tells all that it holds, and fails where it is told to.
#[derive(Drop)]
pub struct MemFiles {
    // The newest first: where a name was added twice, the first entry counts.
    entries: VecDeque<(String, Vec<u8>)>,
    asked: Vec<String>,
    faults: u64,
    failing: Vec<u64>,
}

impl Model for MemFiles {
    ghost use Rattle.lg_base.specs.MemFiles.{FilesView, files_code};
    ghost use Rattle.std.specs.Prelude.{map, string_bytes};
    ghost use Rattle.std.specs.FinMap as finite;

    ghost Value = { FilesView };

    ghost coded = { files_code };

    ghost view = { λ m. record {
      contents = finite.from_entries (map (λ e. (string_bytes e.0, e.1.items)) m.entries.items);
      asked = map string_bytes m.asked.items;
      faults = m.faults;
      failing = m.failing.items;
    } };
}

impl MemFiles {
    /// No files. It takes no memory.
    pub fn new(alloc: Global) -> MemFiles
        ensures { result ≡ record { contents = finite.empty; asked = []; faults = 0; failing = [] } }
    {
        MemFiles {
            entries: VecDeque::new(alloc),
            asked: Vec::new(alloc),
            faults: 0,
            failing: Vec::new(alloc),
        }
    }

    /// Adds a file, or gives the name new bytes.
    pub fn add(&mut self, name: &str, bytes: &[u8]) -> Result<(), NoMemory>
        ensures ok { OnOk result (self.new ≡ record self.old {
          contents = finite.insert self.old.contents name.now bytes.now;
        }) }
        ensures err { OnErr result (self.new ≡ self.old) }
    {
        let alloc = *self.entries.allocator();
        let name = String::from_str(alloc, name)?;
        let bytes = bytes.to_vec(alloc)?;
        self.entries.push_front((name, bytes))?;
        Ok(())
    }

    /// Lists the call of `read_all` with this number to fail. A call's number is the length that it gives the names
    /// asked, so calls that run out of memory are not counted.
    pub fn fail_at(&mut self, call: u64) -> Result<(), NoMemory>
        ensures ok { OnOk result (self.new ≡ record self.old { failing = self.old.failing ++ call ∷ [] }) }
        ensures err { OnErr result (self.new ≡ self.old) }
    {
        self.failing.push(call)?;
        Ok(())
    }

    // A copy of the file's bytes, where there is one.
    fn copy_of(&self, alloc: Global, name: &str) -> Result<Option<Vec<u8>>, NoMemory>
        ensures found { IfOk result (λ found. IfSome found (λ v. file self.now.contents name.now ≡ Some v.items)) }
        ensures missing { IfOk result (λ found. IfNone found (file self.now.contents name.now ≡ None)) }
    {
        for entry in &self.entries {
            if name == entry.0.as_str() {
                return Ok(Some(copied(alloc, entry.1.as_slice())?));
            }
        }
        Ok(None)
    }
}

impl Files for MemFiles {
    ghost contents = { λ m. Some m.contents };

    ghost asked = { λ m. m.asked };

    ghost faults = { λ m. m.faults };

    fn read_all(&mut self, alloc: Global, name: &str, limit: u64) -> Result<Vec<u8>, FileError>
        ensures unchanged { self.new.contents ≡ self.old.contents }
        ensures asked { self.new.asked ≡ asked_after self.old.asked name.now result }
        ensures told { Reads (file self.old.contents name.now) limit result }
        ensures limited { IfOk result (λ bytes. vec_len bytes ≤ limit) }
        ensures cause { HasReadCause self.old.faults self.new.faults result }

        // exactly
        ensures fails { FailsWhere (read_fails self.old name.now) result }
        ensures after { self.new ≡ record self.old {
          asked = asked_after self.old.asked name.now result;
          faults = faults_after self.old.faults result;
        } }
    {
        let kept = String::from_str(alloc, name)?;
        let found = self.copy_of(alloc, name)?;
        self.asked.push(kept)?;
        let number = self.asked.len() as u64;
        if self.failing.contains(&number) {
            self.faults = self.faults.saturating_add(1);
            return Err(FileError::Failed);
        }
        match found {
            None => {
                self.faults = self.faults.saturating_add(1);
                Err(FileError::Failed)
            }
            Some(bytes) if bytes.len() as u64 > limit => Err(FileError::TooLong),
            Some(bytes) => Ok(bytes),
        }
    }
}

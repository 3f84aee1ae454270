//! The knowledge of a command.
ghost use Rattle.std.specs.Prelude.{◌≡◌, ◌≤◌, ◌<◌, ◌^◌, ℕ, List, length, IfSome, IfOk, IfErr, [], ◌∷◌};
ghost use Rattle.lg_dictread.specs.Limits.{FILE};
ghost use Rattle.lg_run.specs.Inputs.{KnowledgeReads, KnowledgeInput};
ghost use Rattle.lg_run.specs.Reads.{AsksInOrder, AsksMore, Tells, HasCause, IsAbout, IsNoFault};

use crate::inputs::read_file;
use crate::stop::Stop;
use lg_base::Files;
use lg_knowread::{KnowError, Knowledge, read_knowledge};
use std::alloc::Global;

/// The knowledge with this name.
pub(crate) fn read_know<'a, F: Files>(
    alloc: Global,
    files: &mut F,
    name: &'a str,
) -> Result<Knowledge, Stop<'a>>
    ensures unchanged { F.contents files.new ≡ F.contents files.old }
    ensures asks { AsksMore (F.asked files.old) (F.asked files.new) }
    ensures names { IfSome (F.contents files.old) (λ known. AsksInOrder (KnowledgeInput known name.now) (F.asked files.old) (F.asked files.new)) }
    ensures told { IfSome (F.contents files.old) (λ known. Tells (λ know. know) (KnowledgeInput known name.now) (F.asked files.old) (F.asked files.new) result) }
    ensures few { IfOk result (λ know. length know.rules < 2 ^ 32) }
    ensures cause { HasCause (F.asked files.new) (F.faults files.old) (F.faults files.new) result }
    ensures about { IfErr result (IsAbout (name.now ∷ []) (F.asked files.new)) }
{
    match read_file(alloc, files, name) {
        Ok(bytes) => knowledge_of(alloc, name, &bytes),
        Err(stop) => Err(stop),
    }
}

/// The knowledge of these bytes.
fn knowledge_of<'a>(alloc: Global, name: &'a str, bytes: &[u8]) -> Result<Knowledge, Stop<'a>>
    requires { length bytes.now ≤ FILE }
    ensures told { (asked : List (List ℕ)) → Tells (λ know. know) (KnowledgeReads name.entry.now bytes.now) asked asked result }
    ensures few { IfOk result (λ know. length know.rules < 2 ^ 32) }
    ensures calm { IsNoFault result }
    ensures about { (asked : List (List ℕ)) → IfErr result (IsAbout (name.entry.now ∷ []) asked) }
{
    match read_knowledge(alloc, bytes) {
        Ok(know) => Ok(know),
        Err(KnowError::NoMemory) => Err(Stop::Memory),
        Err(error) => Err(Stop::Knowledge(name, error)),
    }
}

//! The inputs of an audit, read in order: the dictionary, the knowledge, the document and the scripts.
ghost use Rattle.std.specs.Prelude.{◌≡◌, ◌≤◌, ◌<◌, ◌^◌, ◌∷◌, length, map, string_bytes, IfSome, IfOk, IfErr};
ghost use Rattle.lg_run.specs.Words.{Audit, SCRIPTS};
ghost use Rattle.lg_run.specs.Inputs.{AuditKnowledge, AuditDocument, AuditScripts, InputsAre};
ghost use Rattle.lg_run.specs.Reads.{AsksInOrder, AsksMore, Tells, HasCause, IsAbout, given_in};
ghost use Rattle.lg_run.specs.Answers.{IsGivenInBounds};

use crate::inputs::{Inputs, read_dictionary, read_file};
use crate::knowledge::read_know;
use crate::script::read_scripts;
use crate::stop::Stop;
use lg_base::Files;
use lg_dict::Dict;
use lg_dictread::exactly_one_dictionary;
use lg_knowread::{Knowledge, exactly_one_knowledge};
use lg_script::exactly_one_script;
use std::alloc::Global;

/// A dictionary, knowledge, a document and scripts.
pub(crate) fn inputs_of_audit<'a, F: Files>(
    alloc: Global,
    files: &mut F,
    dictionary: &'a str,
    knowledge: &'a str,
    document: &'a str,
    scripts: &'a [String],
) -> Result<Inputs<'a>, Stop<'a>>
    requires scripts { (1 ≤ length scripts.now) × (length scripts.now ≤ SCRIPTS) }
    ensures unchanged { F.contents files.new ≡ F.contents files.old }
    ensures asks { AsksMore (F.asked files.old) (F.asked files.new) }
    ensures names { IfSome (F.contents files.old) (λ known. AsksInOrder (InputsAre known (Audit dictionary.now knowledge.now document.now (map string_bytes scripts.now))) (F.asked files.old) (F.asked files.new)) }
    ensures told { IfSome (F.contents files.old) (λ known. Tells given_in (InputsAre known (Audit dictionary.now knowledge.now document.now (map string_bytes scripts.now))) (F.asked files.old) (F.asked files.new) result) }
    ensures bounds { IfOk result (λ inputs. IsGivenInBounds (given_in inputs)) }
    ensures cause { HasCause (F.asked files.new) (F.faults files.old) (F.faults files.new) result }
    ensures about { IfErr result (IsAbout (dictionary.now ∷ knowledge.now ∷ document.now ∷ map string_bytes scripts.now) (F.asked files.new)) }
{
    exactly_one_dictionary();
    match read_dictionary(alloc, files, dictionary) {
        Ok(dict) => after_dictionary(alloc, files, dict, knowledge, document, scripts),
        Err(stop) => Err(stop),
    }
}

/// Knowledge, a document and scripts, where the dictionary is in hand.
fn after_dictionary<'a, F: Files>(
    alloc: Global,
    files: &mut F,
    dict: Dict,
    knowledge: &'a str,
    document: &'a str,
    scripts: &'a [String],
) -> Result<Inputs<'a>, Stop<'a>>
    requires scripts { (1 ≤ length scripts.now) × (length scripts.now ≤ SCRIPTS) }
    ensures unchanged { F.contents files.new ≡ F.contents files.old }
    ensures asks { AsksMore (F.asked files.old) (F.asked files.new) }
    ensures names { IfSome (F.contents files.old) (λ known. AsksInOrder (AuditKnowledge known dict knowledge.now document.now (map string_bytes scripts.now)) (F.asked files.old) (F.asked files.new)) }
    ensures told { IfSome (F.contents files.old) (λ known. Tells given_in (AuditKnowledge known dict knowledge.now document.now (map string_bytes scripts.now)) (F.asked files.old) (F.asked files.new) result) }
    ensures bounds { IfOk result (λ inputs. IsGivenInBounds (given_in inputs)) }
    ensures cause { HasCause (F.asked files.new) (F.faults files.old) (F.faults files.new) result }
    ensures about { IfErr result (IsAbout (knowledge.now ∷ document.now ∷ map string_bytes scripts.now) (F.asked files.new)) }
{
    exactly_one_knowledge();
    match read_know(alloc, files, knowledge) {
        Ok(know) => after_knowledge(alloc, files, dict, know, document, scripts),
        Err(stop) => Err(stop),
    }
}

/// A document and scripts, where the dictionary and the knowledge are in hand.
fn after_knowledge<'a, F: Files>(
    alloc: Global,
    files: &mut F,
    dict: Dict,
    know: Knowledge,
    document: &'a str,
    scripts: &'a [String],
) -> Result<Inputs<'a>, Stop<'a>>
    requires few { length know.rules < 2 ^ 32 }
    requires scripts { (1 ≤ length scripts.now) × (length scripts.now ≤ SCRIPTS) }
    ensures unchanged { F.contents files.new ≡ F.contents files.old }
    ensures asks { AsksMore (F.asked files.old) (F.asked files.new) }
    ensures names { IfSome (F.contents files.old) (λ known. AsksInOrder (AuditDocument known dict know document.now (map string_bytes scripts.now)) (F.asked files.old) (F.asked files.new)) }
    ensures told { IfSome (F.contents files.old) (λ known. Tells given_in (AuditDocument known dict know document.now (map string_bytes scripts.now)) (F.asked files.old) (F.asked files.new) result) }
    ensures bounds { IfOk result (λ inputs. IsGivenInBounds (given_in inputs)) }
    ensures cause { HasCause (F.asked files.new) (F.faults files.old) (F.faults files.new) result }
    ensures about { IfErr result (IsAbout (document.now ∷ map string_bytes scripts.now) (F.asked files.new)) }
{
    match read_file(alloc, files, document) {
        Ok(bytes) => after_document(alloc, files, dict, know, bytes, scripts),
        Err(stop) => Err(stop),
    }
}

/// Scripts, where the dictionary, the knowledge and the document are in hand.
fn after_document<'a, F: Files>(
    alloc: Global,
    files: &mut F,
    dict: Dict,
    know: Knowledge,
    document: Vec<u8>,
    scripts: &'a [String],
) -> Result<Inputs<'a>, Stop<'a>>
    requires few { length know.rules < 2 ^ 32 }
    requires scripts { (1 ≤ length scripts.now) × (length scripts.now ≤ SCRIPTS) }
    ensures unchanged { F.contents files.new ≡ F.contents files.old }
    ensures asks { AsksMore (F.asked files.old) (F.asked files.new) }
    ensures names { IfSome (F.contents files.old) (λ known. AsksInOrder (AuditScripts known dict know document.items (map string_bytes scripts.now)) (F.asked files.old) (F.asked files.new)) }
    ensures told { IfSome (F.contents files.old) (λ known. Tells given_in (AuditScripts known dict know document.items (map string_bytes scripts.now)) (F.asked files.old) (F.asked files.new) result) }
    ensures bounds { IfOk result (λ inputs. IsGivenInBounds (given_in inputs)) }
    ensures cause { HasCause (F.asked files.new) (F.faults files.old) (F.faults files.new) result }
    ensures about { IfErr result (IsAbout (map string_bytes scripts.now) (F.asked files.new)) }
{
    exactly_one_script();
    match read_scripts(alloc, files, scripts) {
        Ok(scripts) => Ok(Inputs::Audit {
            dict,
            know,
            scripts,
            document,
        }),
        Err(stop) => Err(stop),
    }
}

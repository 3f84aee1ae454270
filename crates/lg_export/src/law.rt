//! Laws of exports.
ghost use Rattle.lg_export.specs.Levels.{EntriesReach, NoSpellingIsLower};
ghost use Rattle.lg_export.specs.Read.{ReadIsExportable, EditedIsExportable};
ghost use Rattle.lg_export.specs.ReadBack.{ExportsReadBack};

use lg_base::cost_number_laws;
use lg_expr::{exactly_one, parts_are_written};
use lg_gram::law::names_are_written;
use lg_lex::{parts_are_utf8, tokens_are_one_list, tokens_are_utf8};

/// No way to write an expression without macros has fewer brackets open at once, where they are most, than the spelling that is
/// exported. The function does nothing: a caller whose proof needs the fact calls it.
pub fn no_spelling_is_lower()
    ensures { NoSpellingIsLower }
{}

/// The level of an entry, macros put in, is at least that of its formula's spelling, if so it is for the macros that it names. So a
/// macro's expression can be spelled within the macro's level. The function does nothing: a caller whose proof needs the fact
/// calls it.
pub fn levels_reach_spellings()
    ensures { EntriesReach }
{}

/// The text of a dictionary reads back: where its words, macros and formulas are such as can be read, and no word has a quote, the
/// text stands for entries of the same words with their formulas and the same macros with their formulas and levels, and asks for
/// no word file. The function does nothing: a caller whose proof needs the fact calls it.
pub fn exports_read_back()
    ensures { ExportsReadBack }
{
    cost_number_laws();
    exactly_one();
    names_are_written();
    parts_are_written();
    tokens_are_one_list();
}

/// The dictionary of each text that is read can be exported: its words, macros and formulas are such as `exports_read_back` asks
/// for. The function does nothing: a caller whose proof needs the fact calls it.
pub fn read_dictionaries_are_exportable()
    ensures { ReadIsExportable }
{
    parts_are_utf8();
    parts_are_written();
    tokens_are_utf8();
}

/// A dictionary that can be exported can be so after each edit that it accepts, where the edit's entry was read from a text. The
/// function does nothing: a caller whose proof needs the fact calls it.
pub fn edited_dictionaries_are_exportable()
    ensures { EditedIsExportable }
{
    parts_are_written();
    tokens_are_utf8();
}

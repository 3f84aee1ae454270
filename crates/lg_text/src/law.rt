//! Laws of what the bytes of a document and of a diagram show.
ghost use Rattle.lg_text.specs.Seen.{DiagramsShowLinks};
ghost use Rattle.lg_text.specs.Shown.{JournalsAreShown, LinesAreApart, HeadsAreShown, DocumentsShow};

/// What the bytes of a document show: the text of a journal determines the journal; the first line of an answer determines its
/// place, its kind and its version; no other line of an answer, and no line of the journal, begins as a first line does; so a
/// document determines the journal and, of each answer in order, its place, its kind and its version. The function does
/// nothing: a caller whose proof needs the fact calls it.
pub fn documents_show()
    ensures journals { JournalsAreShown }
    ensures lines { LinesAreApart }
    ensures heads { HeadsAreShown }
    ensures documents { DocumentsShow }
{}

/// What a diagram shows of a good linkage: each link stands on the line of its height between the columns at which its two words
/// start, with its whole label, and no other link is drawn over it; two links share a place only where both have an end there. The
/// function does nothing: a caller whose proof needs the fact calls it.
pub fn diagrams_show_links()
    ensures { DiagramsShowLinks }
{}

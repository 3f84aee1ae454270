//! Laws of audits.
ghost use Rattle.lg_audit.specs.ShownAnswers.{AnswersAreInForm, AnswersHaveLines};
ghost use Rattle.lg_audit.specs.Sound.{AuditsAreSound};

use lg_token::tokens_are_one_list;

/// What a yes promises of the document that the bytes are. Its journal has just the edits that were published, in order, each once. The
/// versions that the answers of a session name are there, and none falls; an edit stands in the journal at the version that it made, which
/// the dictionary before it accepts, or it was refused by the dictionary of its version. Each linkage that is shown is a good one of its
/// sentence's tokens, by the dictionary of its version, and passes all rules of the knowledge; and those of one listing rise strictly. The
/// function does nothing: a caller whose proof needs the fact calls it.
pub fn audits_are_sound()
    ensures { AuditsAreSound }
{
    tokens_are_one_list();
}

/// What is printed of an answer is the lines of what it shows, and if its texts and numbers are in form, it is an answer of its kind. The
/// function does nothing: a caller whose proof needs the fact calls it.
pub fn answers_are_shown()
    ensures lines { AnswersHaveLines }
    ensures form { AnswersAreInForm }
{}

//! The commands of a script.

ghost use Rattle.std.specs.Prelude.{◌≡◌};
ghost use Rattle.lg_script.specs.Commands.{command_view, is_edit};
ghost use Rattle.lg_script.specs.Kinds.{kind_of};

use lg_base::Text;
use lg_edit::Edit;
use lg_gram::CommandKind;

/// A command of a session.
#[derive(Debug, Drop)]
pub enum Command {
    /// Lists a sentence from its first candidate on.
    Parse(Text),
    /// Lists a sentence from the candidate of the first number on, as many as the second says that pass. Both numbers lie from
    /// 1 to 1,000,000.
    List(u64, u64, Text),
    /// Goes on with the listing that is held.
    More,
    /// Edits the dictionary.
    Edit(Edit),
    /// Asks for the version of the dictionary.
    Version,
}

impl Command {
    /// Whether the command is an edit.
    pub fn is_edit(&self) -> bool
        ensures { result ≡ is_edit (command_view self.now) }
    {
        matches!(self, Command::Edit(_))
    }

    /// The kind of the command.
    pub fn kind(&self) -> CommandKind
        ensures { result ≡ kind_of (command_view self.now) }
    {
        match self {
            Command::Parse(_) => CommandKind::Parse,
            Command::List(_, _, _) => CommandKind::List,
            Command::More => CommandKind::More,
            Command::Edit(Edit::Put(_)) => CommandKind::Set,
            Command::Edit(Edit::Macro(_)) => CommandKind::Macro,
            Command::Edit(Edit::Del(_)) => CommandKind::Del,
            Command::Version => CommandKind::Version,
        }
    }
}

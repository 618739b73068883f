//! The words that begin commands.

ghost use Rattle.std.specs.Prelude.{◌≡◌};
ghost use Rattle.dt_schedule.specs.CommandWords.{is_command, word_of};

/// A kind of command, by the word that begins it.
#[derive(Clone, Copy, Debug, PartialEq, Eq)]
pub enum CommandWord {
    Split,
    Divide,
    Reorder,
    Collapse,
    Rotate,
    Distribute,
    Communicate,
}

/// The kind of command that begins with this word.
pub fn command_word(word: &[u8]) -> Option<CommandWord>
    ensures { result ≡ word_of word.now }
{
    if word == b"split".as_slice() {
        Some(CommandWord::Split)
    } else if word == b"divide".as_slice() {
        Some(CommandWord::Divide)
    } else if word == b"reorder".as_slice() {
        Some(CommandWord::Reorder)
    } else if word == b"collapse".as_slice() {
        Some(CommandWord::Collapse)
    } else if word == b"rotate".as_slice() {
        Some(CommandWord::Rotate)
    } else if word == b"distribute".as_slice() {
        Some(CommandWord::Distribute)
    } else if word == b"communicate".as_slice() {
        Some(CommandWord::Communicate)
    } else {
        None
    }
}

/// Whether a command begins with this word.
pub fn is_command(word: &[u8]) -> bool
    ensures { result ≡ is_command word.now }
{
    command_word(word).is_some()
}

//! The commands and their names.

ghost use Rattle.std.specs.Prelude.{◌≡◌};
ghost use Rattle.peephole_script.specs.Command.{command_of};

use crate::declarations::Declaration;

/// What a line asks for.
#[derive(Clone, Copy, Debug, PartialEq, Eq)]
pub enum Command {
    /// Sets the body.
    Body,
    /// Sets the point.
    At,
    /// Adds a node to the term.
    Node,
    /// Writes the body with the term.
    Write,
    /// Shows the forest of the point's block.
    Show,
    /// Tells the type of the point's result.
    Result,
    /// Adds a local.
    Local,
    /// Sets the mode.
    Preserve,
    /// Adds a word to be drawn.
    Word,
    /// Adds to the module.
    Declare(Declaration),
}

/// The command of a name, if there is one.
pub fn command_of(word: &str) -> Option<Command>
    ensures { result ≡ command_of word.now }
{
    if word == "body" {
        Some(Command::Body)
    } else if word == "at" {
        Some(Command::At)
    } else if word == "node" {
        Some(Command::Node)
    } else if word == "write" {
        Some(Command::Write)
    } else if word == "show" {
        Some(Command::Show)
    } else if word == "result" {
        Some(Command::Result)
    } else if word == "global" {
        Some(Command::Declare(Declaration::Global))
    } else if word == "memory" {
        Some(Command::Declare(Declaration::Memory))
    } else if word == "table" {
        Some(Command::Declare(Declaration::Table))
    } else if word == "type" {
        Some(Command::Declare(Declaration::Type))
    } else if word == "func" {
        Some(Command::Declare(Declaration::Function))
    } else if word == "local" {
        Some(Command::Local)
    } else if word == "preserve" {
        Some(Command::Preserve)
    } else if word == "word" {
        Some(Command::Word)
    } else {
        None
    }
}

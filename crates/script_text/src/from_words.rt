//! What the lines of one kind of script say.

ghost use Rattle.std.specs.Prelude.{◌≡◌, IfOk, IfSome};
ghost use Rattle.std.specs.List.{AllByRecursion};
ghost use Rattle.script_text.specs.Names.{IsName};
ghost use Rattle.script_text.specs.inside.Reading.{words_of};
ghost use Rattle.script_text.specs.inside.ScriptReading.{Lexicon};

use crate::commands::Name;
use std::alloc::{AllocError, Global};

/// A command that words spell, as one kind of script has them in its lines, after the pool line
/// and a worker's number.
pub(crate) trait FromWords: Drop {
    /// Which words are which command, and which names it makes.
    ghost lexicon: { Lexicon Self };

    /// The command that words spell, or `None` where they spell none.
    fn from_words(alloc: Global, words: &[u8]) -> Result<Option<Self>, AllocError>
        ensures read { IfOk result
            (λ command. command ≡ lexicon.command_from (words_of words.now)) }
        ensures named { IfOk result (λ command.
            IfSome command (λ c. AllByRecursion IsName (lexicon.language.names_made c))) };

    /// Whether the pool line may give a second pool.
    fn knows_second() -> bool
        ensures { result ≡ lexicon.language.knows_second };

    /// The names that the command makes.
    fn names_made(&self) -> &[Name]
        ensures { result.now ≡ lexicon.language.names_made self.now };

    /// Whether the command is one of a second pool.
    fn needs_second(&self) -> bool
        ensures { result ≡ lexicon.language.needs_second self.now };
}

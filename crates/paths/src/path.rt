//! Each step of the book is a path of rows.

ghost use Rattle.paths.specs.Instant.{StillKeeps};
ghost use Rattle.paths.specs.Path.{Begins, StepsArePaths};

use machine::words::words_stay_words;

/// A theorem: each step of the book is a path of rows of exactly the book's length. A caller gets it from the
/// contract.
pub fn steps_are_paths()
    ensures memory { StillKeeps }
    ensures paths { StepsArePaths }
    ensures begins { Begins }
{
    words_stay_words();
}

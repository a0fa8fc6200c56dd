//! How long a step of the book is, and that the book keeps words and bytes.

ghost use Rattle.book.specs.Fit.{BeginsFit, StepsFit};
ghost use Rattle.book.specs.Length.{IsLongestStep};

use machine::words::words_stay_words;

/// The most cycles that a step of the book takes. The book begins with words in its registers and bytes in its memory,
/// and every step keeps that.
pub fn longest_step() -> u8
    ensures begins { BeginsFit }
    ensures words { StepsFit }
    ensures longest { IsLongestStep result }
{
    words_stay_words();
    7
}

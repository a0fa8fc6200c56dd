//! That registers hold words.

ghost use Rattle.machine.specs.Words.{WordsStayWords};

/// A theorem: what is written into registers are words. A caller gets it from the contract.
pub fn words_stay_words()
    ensures { WordsStayWords }
{}

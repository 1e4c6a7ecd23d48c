//! Laws of words. Each law is the contract of a function with an empty body.

ghost use Rattle.word_laws.specs.Laws.{ObjectWordsAreRead, ShownWordsAreRead, SmallValuesHaveRanges};
ghost use Rattle.word_laws.specs.Laws.{SmallWordsAreRead, SmallWordsAreUnique};

/// A value's small word means the value, in every frame.
pub fn small_words_are_read()
    ensures { SmallWordsAreRead }
{}

/// A word that means a value by its bits alone is the value's small word.
pub fn small_words_are_unique()
    ensures { SmallWordsAreUnique }
{}

/// An object's word means the value that was shown with its handle.
pub fn object_words_are_read()
    ensures { ObjectWordsAreRead }
{}

/// The word that a value is shown with means the value in that frame, also after more values were shown.
pub fn shown_words_are_read()
    ensures { ShownWordsAreRead }
{}

/// A value has a small word exactly if it is in its type's range of small words.
pub fn small_values_have_ranges()
    ensures { SmallValuesHaveRanges }
{}

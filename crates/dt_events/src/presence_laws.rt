//! Laws of what is present.

ghost use Rattle.dt_events.specs.PresenceLaws.{BuffersAreOpenedWhole, WordsAreBounded};

/// Whatever numbers of units are done, in any list of operations: a buffer that is absent at the opening is absent, or has exactly
/// the words of one of its allocs. So no more of its words are present than the greatest number with which it is opened.
pub fn buffers_are_opened_whole()
    ensures whole { BuffersAreOpenedWhole }
    ensures bounded { WordsAreBounded }
{}

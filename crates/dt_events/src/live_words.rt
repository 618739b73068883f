//! Laws of the words that nodes hold.

ghost use Rattle.dt_events.specs.LiveWords.{HomesStay, LiveWordsAreBounded, ScratchIsBounded, ScratchIsOfOneSegment};

/// Whatever numbers of units are done, exactly the words of its home are present of a tensor's home on a node.
pub fn homes_stay()
    ensures { HomesStay }
{}

/// Whatever numbers of units are done, a tensor's scratch in a statement costs no more on a node than on the greatest of its paths
/// there.
pub fn scratch_is_bounded()
    ensures { ScratchIsBounded }
{}

/// After each list of units that the events allow, all scratch that is present, on any nodes, is of statements of one segment.
pub fn scratch_is_of_one_segment()
    ensures { ScratchIsOfOneSegment }
{}

/// After each list of units that the events allow, no node holds more words than its bound in the plan.
pub fn live_words_are_bounded()
    ensures { LiveWordsAreBounded }
{}

//! Laws of items.

ghost use Rattle.dt_leaf.specs.NodeWords.{ItemsAreShort};

/// Each item of a schedule's visits is short, so `visit` may do it.
pub fn items_are_short()
    ensures { ItemsAreShort }
{}

//! Laws of memories.

ghost use Rattle.dt_mem.specs.MemoryLaws.{BeginsWithZeros, EndsWithNothing, FoldsOneWord, WritesOneWord};

/// A memory is one finite map: each change gives its own words their values, and every other word keeps its own.
pub fn memory_is_a_map()
    ensures begins { BeginsWithZeros }
    ensures ends { EndsWithNothing }
    ensures writes { WritesOneWord }
    ensures folds { FoldsOneWord }
{}

//! Why a job is refused.

ghost use Rattle.std.specs.Prelude.{◌≡◌};
ghost use Rattle.dt_model.specs.declared.cause.LineEnd.TheVariants.{NoMemory as LineNoMemory};

use dt_base::{Name, NoMemory};
use std::alloc::{AllocError, AllocFailed};

/// The cause of a refused line. Names, letters and symbols are `Name`s, and take no memory.
#[derive(Debug, Drop)]
pub enum Cause {
    /// The line has more than 1,048,576 bytes.
    LineTooLong,
    /// A byte that is neither printable ASCII nor a blank; its place in the line, from 1.
    BadByte(u32),
    /// The first word begins no line.
    UnknownWord,
    /// The line stands where no line of its kind may stand.
    OutOfPlace,
    /// The words don't have the line's form.
    Syntax,
    /// A number has more than 20 digits, reaches 2^64, or is outside its range.
    BadNumber,
    /// The input ends too early.
    Unfinished,
    /// Another version than 1.
    Version,
    /// A dimension of the machine is 0, or there are too many levels, dimensions or nodes.
    BadDim,
    /// The name stands already.
    NameTaken(Name),
    /// More tensors than a job may have.
    TooManyTensors,
    /// More than four extents, one that is 0 or too great, or too many indices.
    BadShape,
    /// The number of level letters isn't the tensor's order.
    BadFormat,
    /// A tensor stores too many positions.
    TooManyStored,
    /// No tensor that may stand here has the name.
    UnknownTensor(Name),
    /// The tensor has such a line already.
    Twice(Name),
    /// Not as many variables, letters or coordinates as the tensor's order.
    WrongOrder(Name),
    /// The letter stands twice on the left.
    NameTwice(Name),
    /// Not as many symbols as the machine's dimensions.
    WrongDims,
    /// `nz` beside other levels.
    NzMixed,
    /// A symbol that names no dimension of the tensor.
    UnknownName(Name),
    /// The symbol stands twice in one level.
    NameTwiceInLevel(Name),
    /// A constant past the machine's dimension.
    ConstOut(Name),
    /// The tensor has a compressed level.
    NotDense(Name),
    /// Not as many values, or loops, as there are places.
    WrongCount,
    /// The entry with this number, from 1, is outside the shape.
    OutOfShape(u32),
    /// The entry with this number, from 1, repeats an earlier one.
    Repeated(u32),
    /// No name of a file.
    BadName,
    /// No file has the name.
    Missing(Name),
    /// The file has too many bytes.
    FileTooLong(Name),
    /// The record with this number, from 1, is no row of the tensor.
    BadRow(u32),
    /// More statements than a job may have.
    TooManyStatements,
    /// The variable stands twice on the left side.
    LhsRepeats(Name),
    /// The left tensor stands on the right side.
    OutputRead(Name),
    /// The left tensor has a compressed level.
    OutputFormat(Name),
    /// The variable stands at dimensions of different extents.
    ExtentClash(Name),
    /// A term lacks the reduction variable.
    UnevenReduction(Name),
    /// Too many terms, or factors in a term.
    TooManyTerms,
    /// Too many variables or loops.
    TooManyLoops,
    /// No loop of the nest has the name.
    UnknownLoop(Name),
    /// The loop is distributed.
    Distributed(Name),
    /// Some tensor is communicated at the loop; or the tensor is communicated already.
    Communicated(Name),
    /// The loop is walked or substituted.
    Fixed(Name),
    /// The loops aren't consecutive, or a precompute node stands among them.
    NotOneChain,
    /// The loops don't stand next to each other.
    NotAdjacent,
    /// A collapsed loop or a workspace is too large.
    TooLarge,
    /// The loop, or variable, doesn't stand outside.
    NotOuter(Name),
    /// The loop isn't at its place from the outside.
    NotOutermost(Name),
    /// The loop's extent isn't that of the machine's dimension: loop, extent, dimension.
    WrongExtent(Name, u32, u32),
    /// A distributed loop that is not the last.
    NotBelowTask(Name),
    /// The loop is inside a precompute node.
    BelowPre(Name),
    /// The leaf doesn't have one term.
    NotOneTerm,
    /// No ascending list of factors of the term.
    BadFactors,
    /// No list of loops that the command takes.
    BadLoops,
    /// A variable of the left side depends on a loop that goes away.
    LhsDepends(Name),
    /// A variable of a factor that stays depends on a loop that goes away.
    Entangled(Name),
    /// A term lacks the tensor's access.
    NotEveryTerm(Name),
    /// The variable stands twice in the access.
    RepeatedVariable(Name),
    /// The variable is no loop.
    Derived(Name),
    /// The loop's body is no leaf.
    NotInnermost(Name),
    /// Not as many factors as the kernel takes.
    WrongFactorCount,
    /// No kernel has the name.
    UnknownKernel,
}

/// Why a line, or a part of one, gives nothing.
#[derive(Debug, Drop)]
pub enum LineEnd {
    Refused(Cause),
    NoMemory,
}

impl From<NoMemory> for LineEnd {
    ghost from_gives = { λ _ e. e ≡ LineNoMemory };

    fn from(_error: NoMemory) -> LineEnd {
        LineEnd::NoMemory
    }
}

impl From<AllocError> for LineEnd {
    ghost from_gives = { λ _ e. e ≡ LineNoMemory };

    fn from(_error: AllocError) -> LineEnd {
        LineEnd::NoMemory
    }
}

impl<T: Drop> From<AllocFailed<T>> for LineEnd {
    ghost from_gives = { λ _ e. e ≡ LineNoMemory };

    fn from(_error: AllocFailed<T>) -> LineEnd {
        LineEnd::NoMemory
    }
}

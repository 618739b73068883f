//! The texts of causes. They take no memory.

ghost use Rattle.std.specs.Prelude.{◌≡◌, ◌≤◌, ◌+◌, ◌++◌, length};
ghost use Rattle.std.specs.Fmt.{decimal};
ghost use Rattle.dt_model.specs.CauseText.{argument, cause_arguments, cause_name, cause_text};

use crate::cause::Cause;
use dt_base::{Name, ShortText};

impl Cause {
    /// The cause's name and its arguments, each after a blank, as `WrongExtent io 3 4`. It takes no memory.
    pub fn text(&self) -> ShortText
        ensures text { result ≡ cause_text self.now }
        ensures short { length result ≤ 104 }
    {
        let mut text = ShortText::new();
        text.append(name(self));
        append_arguments(&mut text, self);
        text
    }
}

fn name(cause: &Cause) -> &'static [u8]
    ensures name { result.now ≡ cause_name cause.now }
    ensures short { length result.now ≤ 17 }
{
    match cause {
        Cause::LineTooLong => b"LineTooLong",
        Cause::BadByte(_) => b"BadByte",
        Cause::UnknownWord => b"UnknownWord",
        Cause::OutOfPlace => b"OutOfPlace",
        Cause::Syntax => b"Syntax",
        Cause::BadNumber => b"BadNumber",
        Cause::Unfinished => b"Unfinished",
        Cause::Version => b"Version",
        Cause::BadDim => b"BadDim",
        Cause::NameTaken(_) => b"NameTaken",
        Cause::TooManyTensors => b"TooManyTensors",
        Cause::BadShape => b"BadShape",
        Cause::BadFormat => b"BadFormat",
        Cause::TooManyStored => b"TooManyStored",
        Cause::UnknownTensor(_) => b"UnknownTensor",
        Cause::Twice(_) => b"Twice",
        Cause::WrongOrder(_) => b"WrongOrder",
        Cause::NameTwice(_) => b"NameTwice",
        Cause::WrongDims => b"WrongDims",
        Cause::NzMixed => b"NzMixed",
        Cause::UnknownName(_) => b"UnknownName",
        Cause::NameTwiceInLevel(_) => b"NameTwiceInLevel",
        Cause::ConstOut(_) => b"ConstOut",
        Cause::NotDense(_) => b"NotDense",
        Cause::WrongCount => b"WrongCount",
        Cause::OutOfShape(_) => b"OutOfShape",
        Cause::Repeated(_) => b"Repeated",
        Cause::BadName => b"BadName",
        Cause::Missing(_) => b"Missing",
        Cause::FileTooLong(_) => b"FileTooLong",
        Cause::BadRow(_) => b"BadRow",
        Cause::TooManyStatements => b"TooManyStatements",
        Cause::LhsRepeats(_) => b"LhsRepeats",
        Cause::OutputRead(_) => b"OutputRead",
        Cause::OutputFormat(_) => b"OutputFormat",
        Cause::ExtentClash(_) => b"ExtentClash",
        Cause::UnevenReduction(_) => b"UnevenReduction",
        Cause::TooManyTerms => b"TooManyTerms",
        Cause::TooManyLoops => b"TooManyLoops",
        Cause::UnknownLoop(_) => b"UnknownLoop",
        Cause::Distributed(_) => b"Distributed",
        Cause::Communicated(_) => b"Communicated",
        Cause::Fixed(_) => b"Fixed",
        Cause::NotOneChain => b"NotOneChain",
        Cause::NotAdjacent => b"NotAdjacent",
        Cause::TooLarge => b"TooLarge",
        Cause::NotOuter(_) => b"NotOuter",
        Cause::NotOutermost(_) => b"NotOutermost",
        Cause::WrongExtent(_, _, _) => b"WrongExtent",
        Cause::NotBelowTask(_) => b"NotBelowTask",
        Cause::BelowPre(_) => b"BelowPre",
        Cause::NotOneTerm => b"NotOneTerm",
        Cause::BadFactors => b"BadFactors",
        Cause::BadLoops => b"BadLoops",
        Cause::LhsDepends(_) => b"LhsDepends",
        Cause::Entangled(_) => b"Entangled",
        Cause::NotEveryTerm(_) => b"NotEveryTerm",
        Cause::RepeatedVariable(_) => b"RepeatedVariable",
        Cause::Derived(_) => b"Derived",
        Cause::NotInnermost(_) => b"NotInnermost",
        Cause::WrongFactorCount => b"WrongFactorCount",
        Cause::UnknownKernel => b"UnknownKernel",
    }
}

/// Appends the arguments of a cause, each after a blank.
fn append_arguments(text: &mut ShortText, cause: &Cause)
    requires { length text.old ≤ 64 }
    ensures text { text.new ≡ text.old ++ cause_arguments cause.now }
    ensures short { length text.new ≤ length text.old + 87 }
{
    match cause {
        Cause::WrongExtent(name, extent, dimension) => {
            append_name(text, name);
            append_count(text, *extent);
            append_count(text, *dimension);
        }
        Cause::BadByte(n) | Cause::OutOfShape(n) | Cause::Repeated(n) | Cause::BadRow(n) =>
            append_count(text, *n),
        Cause::NameTaken(name)
        | Cause::UnknownTensor(name)
        | Cause::Twice(name)
        | Cause::WrongOrder(name)
        | Cause::NameTwice(name)
        | Cause::UnknownName(name)
        | Cause::NameTwiceInLevel(name)
        | Cause::ConstOut(name)
        | Cause::NotDense(name)
        | Cause::Missing(name)
        | Cause::FileTooLong(name)
        | Cause::LhsRepeats(name)
        | Cause::OutputRead(name)
        | Cause::OutputFormat(name)
        | Cause::ExtentClash(name)
        | Cause::UnevenReduction(name)
        | Cause::UnknownLoop(name)
        | Cause::Distributed(name)
        | Cause::Communicated(name)
        | Cause::Fixed(name)
        | Cause::NotOuter(name)
        | Cause::NotOutermost(name)
        | Cause::NotBelowTask(name)
        | Cause::BelowPre(name)
        | Cause::LhsDepends(name)
        | Cause::Entangled(name)
        | Cause::NotEveryTerm(name)
        | Cause::RepeatedVariable(name)
        | Cause::Derived(name)
        | Cause::NotInnermost(name) => append_name(text, name),
        Cause::LineTooLong
        | Cause::UnknownWord
        | Cause::OutOfPlace
        | Cause::Syntax
        | Cause::BadNumber
        | Cause::Unfinished
        | Cause::Version
        | Cause::BadDim
        | Cause::TooManyTensors
        | Cause::BadShape
        | Cause::BadFormat
        | Cause::TooManyStored
        | Cause::WrongDims
        | Cause::NzMixed
        | Cause::WrongCount
        | Cause::BadName
        | Cause::TooManyStatements
        | Cause::TooManyTerms
        | Cause::TooManyLoops
        | Cause::NotOneChain
        | Cause::NotAdjacent
        | Cause::TooLarge
        | Cause::NotOneTerm
        | Cause::BadFactors
        | Cause::BadLoops
        | Cause::WrongFactorCount
        | Cause::UnknownKernel => {}
    }
}

fn append_name(text: &mut ShortText, name: &Name)
    requires { length text.old ≤ 127 }
    ensures text { text.new ≡ text.old ++ argument name.now }
    ensures short { length text.new ≤ length text.old + 65 }
{
    text.append(b" ");
    text.append(name.as_slice());
}

fn append_count(text: &mut ShortText, n: u32)
    requires { length text.old ≤ 181 }
    ensures text { text.new ≡ text.old ++ argument (decimal n) }
    ensures short { length text.new ≤ length text.old + 11 }
{
    text.append(b" ");
    text.append_number(n);
}

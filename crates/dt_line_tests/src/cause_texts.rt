//! The text of each cause.

use dt_base::{Bytes, Name};
use dt_model::Cause;
use std::test::Fail;

/// Causes without arguments, with a number, with a name, and with a name and two numbers.
const TEXTS: &str =
    "LineTooLong\nUnknownWord\nOutOfPlace\nSyntax\nBadNumber\nUnfinished\nVersion\nBadDim\nTooManyTensors\nBadShape\nBadFormat\nTooManyStored\nWrongDims\nNzMixed\nWrongCount\nBadName\nTooManyStatements\nTooManyTerms\nTooManyLoops\nNotOneChain\nNotAdjacent\nTooLarge\nNotOneTerm\nBadFactors\nBadLoops\nWrongFactorCount\nUnknownKernel\nBadByte 7\nOutOfShape 7\nRepeated 7\nBadRow 7\nNameTaken k_2\nUnknownTensor k_2\nTwice k_2\nWrongOrder k_2\nNameTwice k_2\nUnknownName k_2\nNameTwiceInLevel k_2\nConstOut k_2\nNotDense k_2\nMissing k_2\nFileTooLong k_2\nLhsRepeats k_2\nOutputRead k_2\nOutputFormat k_2\nExtentClash k_2\nUnevenReduction k_2\nUnknownLoop k_2\nDistributed k_2\nCommunicated k_2\nFixed k_2\nNotOuter k_2\nNotOutermost k_2\nNotBelowTask k_2\nBelowPre k_2\nLhsDepends k_2\nEntangled k_2\nNotEveryTerm k_2\nRepeatedVariable k_2\nDerived k_2\nNotInnermost k_2\nWrongExtent io 3 4\n";

fn name() -> Name {
    Name::from_slice(b"k_2")
}

/// Puts the text of each cause, a line each.
fn put_texts(out: &mut Bytes, causes: &[Cause]) -> Result<(), Fail> {
    for cause in causes {
        out.append(cause.text().as_slice())?;
        out.append(b"\n")?;
    }
    Ok(())
}

#[test]
fn each_cause_has_its_text(rt: HostRuntime) -> Result<(), Fail> {
    let mut out = Bytes::new(rt.alloc());
    put_texts(&mut out, &without_arguments())?;
    put_texts(&mut out, &with_number())?;
    put_texts(&mut out, &with_name())?;
    put_texts(&mut out, &with_later_name())?;
    put_texts(
        &mut out,
        &[Cause::WrongExtent(Name::from_slice(b"io"), 3, 4)],
    )?;
    assert_eq!(rt; out.as_slice(), TEXTS.as_bytes());
    Ok(())
}

fn without_arguments() -> [Cause; 27] {
    [
        Cause::LineTooLong,
        Cause::UnknownWord,
        Cause::OutOfPlace,
        Cause::Syntax,
        Cause::BadNumber,
        Cause::Unfinished,
        Cause::Version,
        Cause::BadDim,
        Cause::TooManyTensors,
        Cause::BadShape,
        Cause::BadFormat,
        Cause::TooManyStored,
        Cause::WrongDims,
        Cause::NzMixed,
        Cause::WrongCount,
        Cause::BadName,
        Cause::TooManyStatements,
        Cause::TooManyTerms,
        Cause::TooManyLoops,
        Cause::NotOneChain,
        Cause::NotAdjacent,
        Cause::TooLarge,
        Cause::NotOneTerm,
        Cause::BadFactors,
        Cause::BadLoops,
        Cause::WrongFactorCount,
        Cause::UnknownKernel,
    ]
}

fn with_number() -> [Cause; 4] {
    [
        Cause::BadByte(7),
        Cause::OutOfShape(7),
        Cause::Repeated(7),
        Cause::BadRow(7),
    ]
}

fn with_name() -> [Cause; 15] {
    [
        Cause::NameTaken(name()),
        Cause::UnknownTensor(name()),
        Cause::Twice(name()),
        Cause::WrongOrder(name()),
        Cause::NameTwice(name()),
        Cause::UnknownName(name()),
        Cause::NameTwiceInLevel(name()),
        Cause::ConstOut(name()),
        Cause::NotDense(name()),
        Cause::Missing(name()),
        Cause::FileTooLong(name()),
        Cause::LhsRepeats(name()),
        Cause::OutputRead(name()),
        Cause::OutputFormat(name()),
        Cause::ExtentClash(name()),
    ]
}

fn with_later_name() -> [Cause; 15] {
    [
        Cause::UnevenReduction(name()),
        Cause::UnknownLoop(name()),
        Cause::Distributed(name()),
        Cause::Communicated(name()),
        Cause::Fixed(name()),
        Cause::NotOuter(name()),
        Cause::NotOutermost(name()),
        Cause::NotBelowTask(name()),
        Cause::BelowPre(name()),
        Cause::LhsDepends(name()),
        Cause::Entangled(name()),
        Cause::NotEveryTerm(name()),
        Cause::RepeatedVariable(name()),
        Cause::Derived(name()),
        Cause::NotInnermost(name()),
    ]
}

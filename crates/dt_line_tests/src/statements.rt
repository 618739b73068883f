//! Statements: what they are refused for, how they are printed, and the numbers that they give.

use crate::fixtures::{Tensors, names, numbers, said, zeros};
use dt_base::{Bytes, Names};
use dt_index::{parse_stmt, print_stmt, printed_is_read_again};
use dt_model::{Stmt, Whole, is_index, is_stmt, value_at};
use std::alloc::Global;
use std::test::Fail;

/// A row: whether A is dense, a text, and what is said to it. For each two causes that can stand in either order there are
/// two rows: the offence of the cause that is tested first stands left of the other one, and right of it. LhsRepeats and
/// OutputFormat stand on the left side only; literals, readings of the left tensor, reduction variables, terms and a ninth
/// variable on the right side only.
const ANSWERS: &str =
    "+|A(i,j) = B(i,k) * C(k,j)|ok\n+|\tA ( i , j )+=B(i,k)*C( k,j )\t|ok\n+|s=1|ok\n+|s = - 1 - 2 + 3|ok\n+|s += 3 * 007|ok\n+|A(A,B) = B(A,s) * C(s,B)|ok\n+|E(i,j,k,l) = 18446744073709551615|ok\n+|s = E(a,b,c,d) * E(e,f,g,h)|ok\n+|A(i,j) = 00000000000000000003|ok\n+||Syntax\n+|s|Syntax\n+|s =|Syntax\n+|s = 1 +|Syntax\n+|s = 1 *|Syntax\n+|s = * 1|Syntax\n+|s = + 1|Syntax\n+|s = - - 1|Syntax\n+|s = 1 + - 2|Syntax\n+|s + = 1|Syntax\n+|s += = 1|Syntax\n+|s == 1|Syntax\n+|s = 3x|Syntax\n+|s = (1)|Syntax\n+|1 = s|Syntax\n+|s() = 1|Syntax\n+|s = 1 2|Syntax\n+|A(i,) = B(i)|Syntax\n+|A(i = B(i)|Syntax\n+|A(i)) = B(i)|Syntax\n+|A(i j) = B(i)|Syntax\n+|A(1,2) = 3|Syntax\n+|A B(i) = C(i)|Syntax\n+|abcdefghijklmnopq = 1|Syntax\n+|s = 99999999999999999999 +|Syntax\n+|s = 18446744073709551616 ; Z|Syntax\n+|s = 18446744073709551616|BadNumber\n+|s = 1 - 000000000000000000001|BadNumber\n+|Z = 18446744073709551616 * Y|BadNumber\n+|A(i,j) = B(i) * Y(j)|UnknownTensor Y\n+|Z(i) = Y(i)|UnknownTensor Z\n+|A(i,i) = B(i)|WrongOrder B\n+|A(i) = A(i) + B|WrongOrder A\n+|A(i,i) = A(i,i)|LhsRepeats i\n+|E(i,j,j,i) = B(i,j)|LhsRepeats i\n+|A(i,j) = 2 * B(j,i) - A(i,j)|OutputRead A\n+|s = s + 1|OutputRead s\n+|A(i,j) = B(j,i)|ExtentClash i\n+|A(i,j) = B(k,k) * C(j,j)|ExtentClash j\n+|s = B(k,k) + 1|ExtentClash k\n+|A(i,j) = B(i,k) * C(k,j) + 1|UnevenReduction k\n+|s = B(i,k) + C(k,j)|UnevenReduction i\n+|s = B(i,k) + 1+1+1+1+1+1+1+1+1+1+1+1+1+1+1+1|UnevenReduction i\n+|s = E(a,b,c,d)*E(e,f,g,h)*E(i,j,k,l) + E(a,b,c,d)|UnevenReduction e\n+|s = 1+1+1+1+1+1+1+1+1+1+1+1+1+1+1+1|ok\n+|s = 1+1+1+1+1+1+1+1+1+1+1+1+1+1+1+1+1|TooManyTerms\n+|s = 1*1*1*1*1*1*1*1|ok\n+|s = 1 - 1*1*1*1*1*1*1*1*1|TooManyTerms\n+|s = E(a,b,c,d)*E(e,f,g,h)*E(i,a,b,c)*1*1*1*1*1*1|TooManyTerms\n+|s = E(a,b,c,d)*E(e,f,g,h)*E(i,a,b,c)|TooManyLoops\n+|B(i,j) = E(a,b,c,d)*E(e,f,g,h)|TooManyLoops\n-|s = (1) * 18446744073709551616|Syntax\n-|s = 18446744073709551616 * (1)|Syntax\n-|s = (1) + Y|Syntax\n-|s = Y + (1)|Syntax\n-|s = (1) + B|Syntax\n-|s = B + (1)|Syntax\n-|1 E(i,i,j,k) = 1|Syntax\n-|E(i,i,j,k) = 1 2|Syntax\n-|s = (1) + s|Syntax\n-|s = s + (1)|Syntax\n-|1 A(i,j) = 1|Syntax\n-|A(i,j) = 1 2|Syntax\n-|s = (1) * B(k,k)|Syntax\n-|s = B(k,k) * (1)|Syntax\n-|s = (1) + B(i,k)|Syntax\n-|s = B(i,k) + (1)|Syntax\n-|s = (1) + 1*1*1*1*1*1*1*1*1|Syntax\n-|s = 1*1*1*1*1*1*1*1*1 + (1)|Syntax\n-|s = (1) * E(a,b,c,d)*E(e,f,g,h)*E(i,a,b,c)|Syntax\n-|s = E(a,b,c,d)*E(e,f,g,h)*E(i,a,b,c) * (1)|Syntax\n-|s = 18446744073709551616 * Y|BadNumber\n-|s = Y * 18446744073709551616|BadNumber\n-|s = 18446744073709551616 * B|BadNumber\n-|s = B * 18446744073709551616|BadNumber\n-|s = 18446744073709551616 * s|BadNumber\n-|s = s * 18446744073709551616|BadNumber\n-|s = 18446744073709551616 * B(k,k)|BadNumber\n-|s = B(k,k) * 18446744073709551616|BadNumber\n-|s = 18446744073709551616 + B(i,k)|BadNumber\n-|s = B(i,k) + 18446744073709551616|BadNumber\n-|s = 18446744073709551616 + 1*1*1*1*1*1*1*1*1|BadNumber\n-|s = 1*1*1*1*1*1*1*1*1 + 18446744073709551616|BadNumber\n-|s = 18446744073709551616 * E(a,b,c,d)*E(e,f,g,h)*E(i,a,b,c)|BadNumber\n-|s = E(a,b,c,d)*E(e,f,g,h)*E(i,a,b,c) * 18446744073709551616|BadNumber\n-|s = Y * B|UnknownTensor Y\n-|s = B * Y|UnknownTensor Y\n-|Y(i,i) = 1|UnknownTensor Y\n-|E(i,i,j,k) = Y|UnknownTensor Y\n-|s = Y * s|UnknownTensor Y\n-|s = s * Y|UnknownTensor Y\n-|s = Y * B(k,k)|UnknownTensor Y\n-|s = B(k,k) * Y|UnknownTensor Y\n-|s = Y + B(i,k)|UnknownTensor Y\n-|s = B(i,k) + Y|UnknownTensor Y\n-|s = Y + 1*1*1*1*1*1*1*1*1|UnknownTensor Y\n-|s = 1*1*1*1*1*1*1*1*1 + Y|UnknownTensor Y\n-|s = Y * E(a,b,c,d)*E(e,f,g,h)*E(i,a,b,c)|UnknownTensor Y\n-|s = E(a,b,c,d)*E(e,f,g,h)*E(i,a,b,c) * Y|UnknownTensor Y\n-|s(i,i) = 1|WrongOrder s\n-|E(i,i,j,k) = s(i)|WrongOrder s\n-|s = B * s|WrongOrder B\n-|s = s * B|WrongOrder B\n-|s = B * C(k,k)|WrongOrder B\n-|s = C(k,k) * B|WrongOrder B\n-|s = B + C(k,j)|WrongOrder B\n-|s = C(k,j) + B|WrongOrder B\n-|s = B + 1*1*1*1*1*1*1*1*1|WrongOrder B\n-|s = 1*1*1*1*1*1*1*1*1 + B|WrongOrder B\n-|s = B * E(a,b,c,d)*E(e,f,g,h)*E(i,a,b,c)|WrongOrder B\n-|s = E(a,b,c,d)*E(e,f,g,h)*E(i,a,b,c) * B|WrongOrder B\n-|E(i,i,j,k) = B(l,l)|LhsRepeats i\n-|E(j,i,i,k) = B(j,l)|LhsRepeats i\n-|s = s * B(k,k)|OutputRead s\n-|s = B(k,k) * s|OutputRead s\n-|s = s + B(i,k)|OutputRead s\n-|s = B(i,k) + s|OutputRead s\n-|s = s + 1*1*1*1*1*1*1*1*1|OutputRead s\n-|s = 1*1*1*1*1*1*1*1*1 + s|OutputRead s\n-|s = s * E(a,b,c,d)*E(e,f,g,h)*E(i,a,b,c)|OutputRead s\n-|s = E(a,b,c,d)*E(e,f,g,h)*E(i,a,b,c) * s|OutputRead s\n-|s = B(k,k) + C(k,l)|ExtentClash k\n-|s = C(l,k) + B(k,k)|ExtentClash k\n-|s = B(k,k) * 1*1*1*1*1*1*1*1*1|ExtentClash k\n-|s = 1*1*1*1*1*1*1*1*1 * B(k,k)|ExtentClash k\n-|s = B(k,k) * E(a,b,c,d)*E(e,f,g,h)*E(i,a,b,c)|ExtentClash k\n-|s = E(a,b,c,d)*E(e,f,g,h)*E(i,a,b,c) * B(k,k)|ExtentClash k\n-|s = B(i,k) + 1*1*1*1*1*1*1*1*1|UnevenReduction i\n-|s = 1*1*1*1*1*1*1*1*1 + B(i,k)|UnevenReduction i\n-|s = B(k,i)*E(a,b,c,d)*E(e,f,g,h) + E(a,b,c,d)*E(e,f,g,h)|UnevenReduction k\n-|s = E(a,b,c,d)*E(e,f,g,h)*B(i,k) + E(a,b,c,d)*E(e,f,g,h)*B(i,l)|UnevenReduction k\n-|s = 1*1*1*1*1*1*1*1*1*E(a,b,c,d)*E(e,f,g,h)*E(i,a,b,c)|TooManyTerms\n-|s = E(a,b,c,d)*E(e,f,g,h)*E(i,a,b,c)*1*1*1*1*1*1|TooManyTerms\n-|A(i,j) = 1|OutputFormat A\n-|A(i) = 1|WrongOrder A\n-|E(i,i,j,k) = 18446744073709551616|BadNumber\n-|A(i,j) = 18446744073709551616|BadNumber\n-|A(i,j) = Y|UnknownTensor Y\n-|A(i,j) = B|WrongOrder B\n-|E(i,i,j,k) = E(i,i,j,k)|LhsRepeats i\n-|A(i,i) = 1|LhsRepeats i\n-|E(i,i,j,k) = B(l,m) + 1|LhsRepeats i\n-|E(i,i,j,k) = 1*1*1*1*1*1*1*1*1|LhsRepeats i\n-|B(i,i) = E(a,b,c,d)*E(e,f,g,h)|LhsRepeats i\n-|A(i,j) = A(i,j)|OutputRead A\n-|A(i,j) = B(j,i)|OutputFormat A\n-|A(i,j) = B(i,k) * C(k,j) + 1|OutputFormat A\n-|A(i,j) = 1*1*1*1*1*1*1*1*1|OutputFormat A\n-|A(i,j) = E(a,b,c,d)*E(e,f,g,h)|OutputFormat A\n-|s = A(i,j)|ok";

/// A row: a text, what is printed of it, and the numbers that it gives its left tensor.
const MEANINGS: &str =
    "b2=s|b2 = s| 7\n\tb2\t+=\t-007*s|b2 += - 7 * s| 18446744073709551567\ns=1+2-3|s = 1 + 2 - 3| 0\ns  =  -  B ( row_1 , V1 )|s = - B(row_1,V1)| 18446744073709551595\nA(i,j)=B(i,k)*C(k,j)|A(i,j) = B(i,k) * C(k,j)| 38 44 50 56 83 98 113 128\nA(E,B) += B(E,s)*C(s,B)*0|A(E,B) += B(E,s) * C(s,B) * 0| 0 0 0 0 0 0 0 0\ns=B(i,k)*C(k,j)|s = B(i,k) * C(k,j)| 610\ns=B(i,j)*B(i,k)|s = B(i,j) * B(i,k)| 261\ns=E(i,i,j,j)*B(k,l)|s = E(i,i,j,j) * B(k,l)| 189\nB(i,j)=s*2-1|B(i,j) = s * 2 - 1| 13 13 13 13 13 13\nE(p,q,r,t)=b2*3+10-b2|E(p,q,r,t) = b2 * 3 + 10 - b2| 14\ns=18446744073709551615*2|s = 18446744073709551615 * 2| 18446744073709551614\ns=-00-18446744073709551615|s = - 0 - 18446744073709551615| 1\ns=B(i,k)*C(k,j)-C(k,j)*B(i,k)|s = B(i,k) * C(k,j) - C(k,j) * B(i,k)| 0";

#[test]
fn the_first_cause_answers(rt: HostRuntime) -> Result<(), Fail> {
    let dense = zeros(rt.alloc(), true)?;
    let other = zeros(rt.alloc(), false)?;
    for row in ANSWERS.lines() {
        let mut parts = row.split('|');
        let kind = parts.next().unwrap_or("");
        let text = parts.next().unwrap_or("");
        let wanted = parts.next().unwrap_or("");
        let tensors = if kind == "+" { &dense } else { &other };
        let answer = said(parse_stmt(rt.alloc(), text.as_bytes(), tensors).err());
        assert_eq!(rt; answer.as_slice(), wanted.as_bytes(), "at {row}");
    }
    Ok(())
}

#[test]
fn statements_are_printed_and_have_values(rt: HostRuntime) -> Result<(), Fail> {
    let tensors = zeros(rt.alloc(), true)?;
    let names = names(rt.alloc())?;
    let wholes = numbers(rt.alloc())?;
    for row in MEANINGS.lines() {
        let text = row.split('|').next().unwrap_or("");
        let mut out = Bytes::from_slice(rt.alloc(), text.as_bytes())?;
        put_meaning(rt.alloc(), &mut out, &tensors, &names, wholes.as_slice())?;
        assert_eq!(rt; out.as_slice(), row.as_bytes());
    }
    printed_is_read_again();
    Ok(())
}

/// Puts the printed text and the numbers of the statement that the text so far is, each behind a bar.
fn put_meaning(
    alloc: Global,
    out: &mut Bytes,
    tensors: &Tensors,
    names: &Names,
    wholes: &[Whole],
) -> Result<(), Fail> {
    let (stmt, variables) = parse_stmt(alloc, out.as_slice(), tensors)?;
    let printed = print_stmt(alloc, &stmt, &variables, names)?;
    out.append(b"|")?;
    out.append(printed.as_slice())?;
    out.append(b"|")?;
    put_numbers(out, &stmt, wholes)
}

/// Puts the numbers at all indices, row-major, each behind a blank.
fn put_numbers(out: &mut Bytes, stmt: &Stmt, wholes: &[Whole]) -> Result<(), Fail> {
    if !is_stmt(stmt, wholes) {
        return Err("no statement over these tensors")?;
    }
    let indices: [&[u32]; 10] = [
        &[],
        &[0, 0, 0, 0],
        &[0, 0],
        &[0, 1],
        &[0, 2],
        &[0, 3],
        &[1, 0],
        &[1, 1],
        &[1, 2],
        &[1, 3],
    ];
    for c in indices {
        if is_index(stmt, wholes, c) {
            out.append(b" ")?;
            out.append_number(value_at(stmt, wholes, c))?;
        }
    }
    Ok(())
}

#[test]
fn variables_have_numbers_by_first_occurrence(rt: HostRuntime) -> Result<(), Fail> {
    let tensors = zeros(rt.alloc(), true)?;
    let (stmt, variables) = parse_stmt(
        rt.alloc(),
        b"A(i,j) += - B(i,k) * 03 - 7 * B(i,k) * C(k,j)",
        &tensors,
    )?;
    assert_eq!(rt; variables.as_slice().len(), 3);
    let text = format!(in rt.alloc(); "{stmt:?}")?;
    assert_eq!(rt; text.as_str(), NUMBERED);
    Ok(())
}

/// A is tensor 0, B 1 and C 2; i, j and k are 0, 1 and 2.
const NUMBERED: &str =
    "Stmt { lhs: Access { tensor: 0, vars: Vars { items: [0, 1] } }, adds: true, terms: Terms { items: [Term { minus: true, factors: Factors { items: [Read(Access { tensor: 1, vars: Vars { items: [0, 2] } }), Literal(3)] } }, Term { minus: true, factors: Factors { items: [Literal(7), Read(Access { tensor: 1, vars: Vars { items: [0, 2] } }), Read(Access { tensor: 2, vars: Vars { items: [2, 1] } })] } }] }, extents: Extents { items: [2, 4, 3] } }";

#[test]
fn names_past_the_lists_are_empty(rt: HostRuntime) -> Result<(), Fail> {
    let tensors = zeros(rt.alloc(), true)?;
    let (stmt, _) = parse_stmt(rt.alloc(), b"s = B(i,j) * 2", &tensors)?;
    let none = Names::new(rt.alloc());
    let text = print_stmt(rt.alloc(), &stmt, &none, &none)?;
    assert_eq!(rt; text.as_slice(), b" = (,) * 2".as_slice());
    Ok(())
}

#[test]
fn accesses_fit_their_tensors(rt: HostRuntime) -> Result<(), Fail> {
    let tensors = zeros(rt.alloc(), true)?;
    let wholes = numbers(rt.alloc())?;
    let (stmt, _) = parse_stmt(rt.alloc(), b"s = B(i,j)", &tensors)?;
    let all = wholes.as_slice();
    assert!(rt; is_stmt(&stmt, all) && !is_stmt(&stmt, &all[..1]) && !is_stmt(&stmt, &all[1..]));
    Ok(())
}

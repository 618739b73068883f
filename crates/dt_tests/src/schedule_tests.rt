//! Command lines in jobs, by hand.

use dt_base::{Bytes, NoMemory};
use dt_job::{Job, JobEnd, read_job};
use dt_nest::put_nest;
use std::alloc::Global;
use std::test::Fail;

/// A machine, the lines behind the statement `A(i,j) = B(i,k) * B(k,j)` on matrices of 2 by 2, which is line 8 of the job, and
/// what comes of them: the nest of each statement, or the line that has a cause with that cause. Lines end in a semicolon; a row
/// that ends in one has no last line `end`.
const ROWS: &str = "\
2x3|splits i a b 2|9 UnknownWord
2x3|precompute z y|9 UnknownWord
2x3|split|9 Syntax
2x3|split z a b|9 Syntax
2x3|split z a b 2 2|9 Syntax
2x3|split 1 a b 2|9 Syntax
2x3|split z 2a b 2|9 Syntax
2x3|split z a 9 18446744073709551616|9 Syntax
2x3|split z a b x|9 Syntax
2x3|split abcdefghijklmnopq a b 2|9 Syntax
2x3|split z a b 18446744073709551616|9 BadNumber
2x3|split z a b 000000000000000000001|9 BadNumber
2x3|split z i b 0|9 UnknownLoop z
2x3|split z i b 4294967296|9 UnknownLoop z
2x3|split i j b 0|9 BadNumber
2x3|split i j b 65537|9 BadNumber
2x3|split i a b 4294967297|9 BadNumber
2x3|split i a b 18446744073709551615|9 BadNumber
2x3|split i j b 65536|9 NameTaken j
2x3|split i a a 2|9 NameTaken a
2x3| split\ti  a b 00002 |[A,B] a:1 b:2 j:2 k:2 leaf
2x3|divide z a b|9 Syntax
2x3|divide z a b 99999999999999999999|9 BadNumber
2x3|divide z i b 0|9 UnknownLoop z
2x3|divide i k b 0|9 BadNumber
2x3|divide i a k 2|9 NameTaken k
2x3|reorder|9 Syntax
2x3|reorder z|9 Syntax
2x3|reorder z 2|9 Syntax
2x3|reorder i z y|9 UnknownLoop z
2x3|reorder i i z|9 UnknownLoop z
2x3|reorder i k i|9 BadLoops
2x3|reorder i k|9 NotOneChain
2x3|collapse z y|9 Syntax
2x3|collapse z y f g|9 Syntax
2x3|collapse z y 4|9 Syntax
2x3|collapse z y k|9 UnknownLoop z
2x3|collapse i y k|9 UnknownLoop y
2x3|collapse i k k|9 NameTaken k
2x3|collapse i k f|9 NotAdjacent
2x3|collapse i i f|9 NotAdjacent
2x3|rotate|9 Syntax
2x3|rotate z|9 Syntax
2x3|rotate z r|9 Syntax
2x3|rotate z y 7|9 Syntax
2x3|rotate z y r|9 UnknownLoop z
2x3|rotate k y z r|9 UnknownLoop y
2x3|rotate i k j|9 NameTaken j
2x3|rotate i k r|9 NotOuter k
2x3|rotate k i k r|9 NotOuter k
2x3|rotate j j r|9 NotOuter j
2x3|rotate k i r|[A,B] i:2 j:2 r:2 leaf
2x3|distribute|9 Syntax
2x3|distribute 2|9 Syntax
2x3|distribute z|9 UnknownLoop z
2x3|distribute i|9 WrongCount
2x3|distribute i j k|9 WrongCount
2x3|distribute j i|9 NotOutermost j
2x3|distribute i i|9 NotOutermost i
2x3|distribute i k|9 NotOutermost k
2x3|distribute i j|9 WrongExtent j 2 3
2x3|communicate|9 Syntax
2x3|communicate z|9 Syntax
2x3|communicate z 2|9 Syntax
2x3|communicate 2 Z|9 Syntax
2x3|communicate z Z b-|9 Syntax
2x3|communicate z Z|9 UnknownLoop z
2x3|communicate i Z|9 UnknownTensor Z
2x3|communicate i i|9 UnknownTensor i
2x3|communicate i C|9 UnknownTensor C
2x3|communicate i C Z|9 UnknownTensor C
2x3|communicate i A A C|9 UnknownTensor C
2x3|communicate i A A|9 Communicated A
2x3| communicate  k\tA|[B] i:2 j:2 k:2[A] leaf
2|split i io ii 2;split j jo ji 2;split i x y 2;split k ko ki 1;rotate ki ii ki|11 UnknownLoop i
2|split i io ii 2;reorder j i|10 UnknownLoop i
2|split i io ii 2;split j i x 2|10 NameTaken i
2|distribute i;reorder j i|10 Distributed i
2|distribute i;distribute i j|10 WrongCount
2|distribute i;distribute j|10 Distributed j
2|distribute i;split i a j 2|10 NameTaken j
2|distribute i;divide i a b 2|10 Distributed i
2|distribute i;reorder i k|10 NotOneChain
2|distribute i;collapse i j f|10 Distributed i
2|reorder j i;distribute j;rotate j i r|11 NotOuter i
2|distribute i;communicate i A;communicate j A|11 Communicated A
2|communicate i A;split i a b 2|10 Communicated i
2|split i a b 2;communicate i A|10 UnknownLoop i
2|distribute i;split k a b 1;split b c d 1;split d e f 1;split f g h 1;split h l m 1;split m n o 1;split o p q 1;split q r s 1;\
split s t u 1;split u v w 1;split w x y 1;split y z aa 1;split aa ab ac 1;split i ad ae 1|23 TooManyLoops
4|divide i io ii 3;distribute io|10 WrongExtent io 3 4
2x2|split i io ii 3|[A,B] io:1 ii:3 j:2 k:2 leaf
2x2|divide j jo ji 3|[A,B] i:2 jo:3 ji:1 k:2 leaf
2x2|reorder k i j|[A,B] k:2 i:2 j:2 leaf
2x2|reorder k j|[A,B] i:2 k:2 j:2 leaf
2x2|collapse i j f|[A,B] f:4 k:2 leaf
2x2|rotate k i j r|[A,B] i:2 j:2 r:2 leaf
2x2|distribute i j|i:2! j:2![A,B] k:2 leaf
2x2|communicate j A;communicate k B|i:2 j:2[A] k:2[B] leaf
2|divide i io ii 2; reorder io j ii;distribute io\r|io:2![A,B] j:2 ii:1 k:2 leaf
2|split i io ii 1;reorder j io ii;collapse ii k g|[A,B] j:2 io:2 g:2 leaf
2|split i io ii 1;reorder j io ii;collapse ii k g;split i a b 2|12 UnknownLoop i
1|split i io ii 2 \u{80}|9 BadByte 17
1|end;spilt i io ii 2|10 UnknownWord
1|split i io ii 2;print A|10 OutOfPlace
1|end;split|10 OutOfPlace
1|end;divide|10 OutOfPlace
1|end;reorder|10 OutOfPlace
1|end;collapse|10 OutOfPlace
1|end;rotate|10 OutOfPlace
1|end;distribute|10 OutOfPlace
1|end;communicate|10 OutOfPlace
1|end;stmt C(i,j) = A(i,j);split k ko ki 2|11 UnknownLoop k
1|end;stmt C(p,q) = A(q,p);split p i j 1|[A,B] i:2 j:2 k:2 leaf; [A,C] i:2 j:1 q:2 leaf
1|# the rows;\tsplit  i io\tii 3 \r;\r;collapse io ii f;|13 Unfinished
1|# the rows;\tsplit  i io\tii 3 \r;\r;collapse io ii f|[A,B] f:3 j:2 k:2 leaf";

/// The text of a job: its lines up to the statement, the lines of a row, and `end`.
fn job_text(alloc: Global, machine: &str, lines: &str) -> Result<Bytes, NoMemory> {
    let mut text = Bytes::new(alloc);
    text.append(b"distal 1\nmachine ")?;
    text.append(machine.as_bytes())?;
    text.append(b"\ntensor A 2x2\ntensor B 2x2\ntensor C 2x2\n")?;
    text.append(b"data B 1 2 3 4\ndata C 5 6 7 8\nstmt A(i,j) = B(i,k) * B(k,j)\n")?;
    let (lines, ends) = match lines.strip_suffix(";") {
        Some(open) => (open, false),
        None => (lines, true),
    };
    for line in lines.split(';') {
        text.append(line.as_bytes())?;
        text.append(b"\n")?;
    }
    if ends {
        text.append(b"end\n")?;
    }
    Ok(text)
}

/// The nests of the statements, one after the other.
fn nests_of(alloc: Global, job: &Job) -> Result<Bytes, NoMemory> {
    let mut text = Bytes::new(alloc);
    for (at, part) in job.parts.as_slice().iter().enumerate() {
        if at > 0 {
            text.append(b"; ")?;
        }
        put_nest(alloc, &mut text, &part.sched)?;
    }
    Ok(text)
}

/// What comes of a job's text.
fn answer(alloc: Global, text: &[u8]) -> Result<Bytes, Fail> {
    if text.len() > 10_000 {
        return Err("too long")?;
    }
    match read_job(alloc, text) {
        Ok(job) => Ok(nests_of(alloc, &job)?),
        Err(JobEnd::Refused(line, cause)) => {
            let mut said = Bytes::new(alloc);
            said.append_number(line)?;
            said.append(b" ")?;
            said.append(cause.text().as_slice())?;
            Ok(said)
        }
        Err(JobEnd::NoMemory) => Err("no memory")?,
    }
}

#[test]
fn the_first_command_with_a_cause_is_told_and_others_make_their_nests(
    rt: HostRuntime,
) -> Result<(), Fail> {
    for row in ROWS.lines() {
        let mut parts = row.split('|');
        let machine = parts.next().unwrap_or("");
        let lines = parts.next().unwrap_or("");
        let wanted = parts.next().unwrap_or("");
        let text = job_text(rt.alloc(), machine, lines)?;
        let said = answer(rt.alloc(), text.as_slice())?;
        assert!(rt; said.as_slice() == wanted.as_bytes(), "at {row}");
    }
    Ok(())
}

/// Two statements over matrices of 2 by 2.
const TWO: &[u8] =
    b"distal 1\nmachine 1\ntensor A 2x2\ntensor B 2x2\ntensor C 2x2\nstmt A( i,j )+= -B(i,j)*03\nend\nstmt C(p,q)=A(q,p)\nend\n";

#[test]
fn statements_keep_their_heads(rt: HostRuntime) -> Result<(), Fail> {
    let job = read_job(rt.alloc(), TWO)?;
    let mut said = Bytes::new(rt.alloc());
    for (head, part) in job.heads.as_slice().iter().zip(job.parts.as_slice()) {
        said.append(head.as_slice())?;
        said.append(if part.adds { b" adds; " } else { b" sets; " })?;
    }
    assert!(rt;
        said.as_slice() == b"A(i,j) += - B(i,j) * 3 adds; C(p,q) = A(q,p) sets; ".as_slice()
    );
    Ok(())
}

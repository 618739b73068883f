//! The top call over sources and sinks in memory.

ghost use Rattle.std.specs.Prelude.{◌≤◌};

use super::*;
use dt_base::{Bytes, Numbers};
use dt_io::{MemSink, MemSource};
use std::alloc::Global;
use std::test::Fail;

/// The job of the product of two matrices.
const PRODUCT: [&[u8]; 10] = [
    b"distal 1",
    b"machine 1",
    b"tensor A 2x2",
    b"tensor B 2x2",
    b"tensor C 2x2",
    b"data B 1 2 3 4",
    b"data C 5 6 7 8",
    b"stmt A(i,j) = B(i,k) * C(k,j)",
    b"end",
    b"print A",
];

const PRINTED: &[u8] = b"distal run\ntensor A 2x2\n19 22\n43 50\n";

/// The product's job with another text as its line `at`, from 1; none is changed where `at` is 0.
fn job(alloc: Global, at: usize, line: &[u8]) -> Result<Bytes, Fail> {
    let mut text = Bytes::new(alloc);
    for (i, old) in PRODUCT.iter().enumerate() {
        text.append(if i + 1 == at { line } else { *old })
            .ok()
            .ok_or("memory")?;
        text.append(b"\n").ok().ok_or("memory")?;
    }
    Ok(text)
}

/// The product's job on a machine, with these commands and the end of the statement.
fn scheduled(alloc: Global, machine: &[u8], commands: &[u8]) -> Result<Bytes, Fail> {
    let mut text = Bytes::new(alloc);
    for (i, old) in PRODUCT.iter().enumerate() {
        let line = match i {
            1 => machine,
            8 => commands,
            _ => *old,
        };
        text.append(line).ok().ok_or("memory")?;
        text.append(b"\n").ok().ok_or("memory")?;
    }
    Ok(text)
}

/// Where a run is to fail: the calls of the source, of the sink, and the sink's room.
#[derive(Clone, Copy, Debug)]
struct Faults {
    reads: u32,
    writes: u32,
    room: u32,
}

const NO_FAULT: Faults = Faults {
    reads: 0,
    writes: 0,
    room: 1000,
};

/// A run by the words, which blanks part, over a source of 16 bytes a call and a sink of one.
fn run(alloc: Global, line: &str, text: Bytes, faults: &Faults) -> Result<(Status, MemSink), Fail> {
    let mut words = Vec::new(alloc);
    for word in line.split_whitespace() {
        words.push(String::from_str(alloc, word)?)?;
    }
    let reads = Numbers::from_slice(alloc, &[faults.reads])
        .ok()
        .ok_or("memory")?;
    let writes = Numbers::from_slice(alloc, &[faults.writes])
        .ok()
        .ok_or("memory")?;
    let mut input = MemSource::new(text, 16, reads);
    let mut out = MemSink::new(alloc, 1, writes, faults.room)
        .ok()
        .ok_or("memory")?;
    let status = distal(alloc, words.as_slice(), &mut input, &mut out);
    Ok((status, out))
}

#[test]
fn prints_the_product(rt: HostRuntime) -> Result<(), Fail> {
    let (status, out) = run(rt.alloc(), "run", job(rt.alloc(), 0, b"")?, &NO_FAULT)?;
    assert_eq!(rt; status, Status::Done);
    assert_eq!(rt; out.written(), PRINTED);
    Ok(())
}

#[test]
fn a_schedule_changes_no_number(rt: HostRuntime) -> Result<(), Fail> {
    let schedules: [(&[u8], &[u8]); 9] = [
        (b"machine 1", b"collapse i j f\nend"),
        (b"machine 1", b"split i io ii 3\nend"),
        (b"machine 1", b"reorder k j i\nend"),
        (b"machine 1", b"rotate k i j r\nend"),
        (b"machine 1", b"divide k ko ki 3\nrotate ki ko i r\nend"),
        (
            b"machine 1",
            b"split j jo ji 1\ncollapse i jo f\nsplit f fo fi 3\nreorder k ji\nend",
        ),
        (b"machine 2", b"divide i io ii 2\ndistribute io\nend"),
        // After Cannon.
        (
            b"machine 2x2",
            b"divide i io ii 2\ndivide j jo ji 2\nreorder io jo ii ji\ndivide k ko ki 2\nreorder ko ii ji\nrotate ko io jo kos\ndistribute io jo\ncommunicate jo A\ncommunicate kos B C\nend",
        ),
        // After Johnson.
        (
            b"machine 2x2x2",
            b"divide i io ii 2\ndivide j jo ji 2\ndivide k ko ki 2\nreorder io jo ko ii ji ki\ndistribute io jo ko\nend",
        ),
    ];
    for (machine, commands) in schedules {
        let text = scheduled(rt.alloc(), machine, commands)?;
        let (status, out) = run(rt.alloc(), "run", text, &NO_FAULT)?;
        assert_eq!(rt; status, Status::Done);
        assert_eq!(rt; out.written(), PRINTED);
    }
    Ok(())
}

#[test]
fn refuses_the_first_line_with_a_cause(rt: HostRuntime) -> Result<(), Fail> {
    let changes: [(usize, &[u8], &[u8]); 15] = [
        (
            8,
            b"stmt A(i,j) = B(i,k) * D(k,j)",
            b"refused line 8: UnknownTensor D\n",
        ),
        (3, b"tensor A 3x2", b"refused line 8: ExtentClash i\n"),
        (9, b"unroll i 2", b"refused line 9: UnknownWord\n"),
        (1, b"distal 2", b"refused line 1: Version\n"),
        (2, b"machine 2 / 2", b"refused line 2: Syntax\n"),
        (2, b"machine 2x33", b"refused line 2: BadDim\n"),
        (7, b"place C x -> x", b"refused line 7: WrongOrder C\n"),
        (7, b"place C xx -> x", b"refused line 7: NameTwice x\n"),
        (7, b"place C xy -> xy", b"refused line 7: WrongDims\n"),
        (6, b"data B 1 2 3", b"refused line 6: WrongCount\n"),
        (7, b"data B 5 6 7 8", b"refused line 7: Twice B\n"),
        (9, b"# no end", b"refused line 10: OutOfPlace\n"),
        (10, b"print D", b"refused line 10: UnknownTensor D\n"),
        (
            9,
            b"split i io ii 2\nsplit j jo ji 2\nsplit i x y 2\nsplit k ko ki 1\nrotate ki ii ki\nend",
            b"refused line 11: UnknownLoop i\n",
        ),
        (9, b"rotate i k r\nend", b"refused line 9: NotOuter k\n"),
    ];
    for (at, line, text) in changes {
        let (status, out) = run(rt.alloc(), "run", job(rt.alloc(), at, line)?, &NO_FAULT)?;
        assert_eq!(rt; status, Status::Refused);
        assert_eq!(rt; out.written(), text);
    }
    Ok(())
}

#[test]
fn whole_jobs_print_their_answers(rt: HostRuntime) -> Result<(), Fail> {
    let jobs: [(&[u8], &[u8]); 16] = [
        (
            b"distal 1\nmachine 1\ntensor s scalar\ntensor b scalar\ndata b 18446744073709551615\nstmt s = b * 2\nend\nprint s\n",
            b"distal run\ntensor s scalar\n18446744073709551614\n",
        ),
        (
            b"distal 1\nmachine 1\ntensor A 2\ntensor B 2x2\ntensor c 2\nstmt A(i) = B(i,k) + c(i)\nend\nprint A\n",
            b"refused line 6: UnevenReduction k\n",
        ),
        (
            b"distal 1\nmachine 1\ntensor A 2x2\ntensor B 2x3\ntensor C 2x2\nstmt A(i,j) = B(i,k) * C(k,j)\nend\n",
            b"refused line 6: ExtentClash k\n",
        ),
        (b"", b"refused line 1: Unfinished\n"),
        // The product's job, cut after its statement.
        (
            b"distal 1\nmachine 1\ntensor A 2x2\ntensor B 2x2\ntensor C 2x2\ndata B 1 2 3 4\ndata C 5 6 7 8\nstmt A(i,j) = B(i,k) * C(k,j)\n",
            b"refused line 9: Unfinished\n",
        ),
        (
            b"distal 1\nmachine 1\ntensor a 3\nfill a seed 7\nprint a\n",
            b"distal run\ntensor a 3\n1059165278 2052263231 1946856753\n",
        ),
        (
            b"distal 1\nmachine 1\ntensor y 3\ntensor x 3\nfill x ramp\nstmt y(i) = x(i) * x(i)\nend\nstmt y(i) += - x(i)\nend\nprint y\nprint x\n",
            b"distal run\ntensor y 3\n0 2 6\ntensor x 3\n1 2 3\n",
        ),
        (
            b"distal 1\nmachine 1\ntensor s scalar\ntensor a 2048\nstmt s = a(i) * a(j)\nend\nstmt s += 1\nend\n",
            b"refused plan: TooManyVisits\n",
        ),
        // Each split gives a loop of 65,536 values.
        (
            b"distal 1\nmachine 1\ntensor s scalar\ntensor a 2\nstmt s = a(i) * a(j)\nsplit i io ii 65536\nsplit j jo ji 65536\nend\n",
            b"refused plan: TooManyVisits\n",
        ),
        (
            b"distal 1\nmachine 1\ntensor s scalar\ntensor a 2\ndata a 3 4\nstmt s = a(i) * a(j)\nsplit i io ii 65\nend\nprint s\n",
            b"distal run\ntensor s scalar\n49\n",
        ),
        // Blocks of two numbers are three, and not four.
        (
            b"distal 1\nmachine 4\ntensor a 5\ntensor b 5\nplace a x -> x\nplace b x -> x\ndata b 1 2 3 4 5\nstmt a(i) = b(i) + 10\ndivide i io ii 3\ndistribute io\nend\nprint a\n",
            b"refused line 10: WrongExtent io 3 4\n",
        ),
        (
            b"distal 1\nmachine 2\ntensor A 2x2\ntensor B 2x2\ntensor C 2x2\ndata B 1 2 3 4\ndata C 5 6 7 8\nstmt A(i,j) = B(i,k) * C(k,j)\ndistribute i\nreorder j i\nend\nprint A\n",
            b"refused line 10: Distributed i\n",
        ),
        // Blocks of 2, 2, 1 and 0 numbers.
        (
            b"distal 1\nmachine 4\ntensor a 5\ntensor b 5\nplace a x -> x\nplace b x -> x\ndata b 1 2 3 4 5\nstmt a(i) = b(i) + 10\ndivide i io ii 4\ndistribute io\nend\nprint a\n",
            b"distal run\ntensor a 5\n11 12 13 14 15\n",
        ),
        (
            b"distal 1\nmachine 1\ntensor y 3\ntensor x 3\ntensor z 3\nfill x ramp\nstmt y(i) = x(i) * x(i)\nsplit i io ii 2\nend\nstmt y(i) += - x(i)\nsplit i io ii 2\nreorder ii io\nend\nstmt z(i) = y(i)\nend\nprint y\nprint z\n",
            b"distal run\ntensor y 3\n0 2 6\ntensor z 3\n0 2 6\n",
        ),
        (b"distal 1\nmachine 1", b"distal run\n"),
        // A machine and placements change nothing of what is printed.
        (
            b"distal 1\nmachine 2x2\ntensor A 2x2\ntensor B 2x2\ntensor C 2x2\nplace A xy -> xy\nplace C xy -> yx\ndata B 1 2 3 4\ndata C 5 6 7 8\nstmt A(i,j) = B(i,k) * C(k,j)\nend\nprint A\n",
            PRINTED,
        ),
    ];
    for (text, answer) in jobs {
        let mut bytes = Bytes::new(rt.alloc());
        bytes.append(text).ok().ok_or("memory")?;
        let (_, out) = run(rt.alloc(), "run", bytes, &NO_FAULT)?;
        assert_eq!(rt; out.written(), answer);
    }
    Ok(())
}

// The source's first call is to fail: with BadWords nothing was read.
#[test]
fn reads_nothing_for_other_words(rt: HostRuntime) -> Result<(), Fail> {
    let faults = Faults {
        reads: 1,
        ..NO_FAULT
    };
    for line in [
        "", "plans", "Run", "--help", "run run", "run plan", "plan run",
    ] {
        let (status, out) = run(rt.alloc(), line, job(rt.alloc(), 0, b"")?, &faults)?;
        assert_eq!(rt; status, Status::BadWords, "at {line}");
        assert_eq!(rt; out.written().len(), 0);
    }
    Ok(())
}

// The job has 130 bytes: nine reads, of 16 bytes and of two at last, and a tenth that finds the end.
#[test]
fn each_read_that_fails_writes_nothing(rt: HostRuntime) -> Result<(), Fail> {
    for k in 1..11u32 {
        let faults = Faults {
            reads: k,
            ..NO_FAULT
        };
        let (status, out) = run(rt.alloc(), "run", job(rt.alloc(), 0, b"")?, &faults)?;
        assert_eq!(rt; status, Status::ReadFault);
        assert_eq!(rt; out.written().len(), 0);
    }
    Ok(())
}

// The text has 36 bytes: a write for each.
#[test]
fn each_write_that_fails_leaves_a_prefix(rt: HostRuntime) -> Result<(), Fail> {
    for k in 1..37u32 {
        let faults = Faults {
            writes: k,
            ..NO_FAULT
        };
        let (status, out) = run(rt.alloc(), "run", job(rt.alloc(), 0, b"")?, &faults)?;
        assert_eq!(rt; status, Status::WriteFault);
        assert!(rt; is_prefix(out.written(), k - 1));
    }
    Ok(())
}

#[test]
fn a_sink_without_room_has_a_prefix(rt: HostRuntime) -> Result<(), Fail> {
    for room in 0..36u32 {
        let faults = Faults { room, ..NO_FAULT };
        let (status, out) = run(rt.alloc(), "run", job(rt.alloc(), 0, b"")?, &faults)?;
        assert_eq!(rt; status, Status::WriteFault);
        assert!(rt; is_prefix(out.written(), room));
    }
    Ok(())
}

/// Whether these are the first `len` bytes of what the product prints.
fn is_prefix(written: &[u8], len: u32) -> bool {
    match PRINTED.get(..len as usize) {
        None => false,
        Some(front) => written == front,
    }
}

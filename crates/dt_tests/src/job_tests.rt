//! Jobs that are read, and texts that are no jobs, each with its first line that has a cause.

ghost use Rattle.std.specs.Prelude.{◌<◌, length};

use dt_base::{Name, NoMemory};
use dt_job::{JobEnd, Show, read_job};
use dt_place::{Placement, Symbol};
use std::alloc::Global;
use std::test::Fail;

const LINES: [&[u8]; 10] = [
    b"distal 1",
    b"machine 1",
    b"tensor A 2x2",
    b"tensor B 2x2",
    b"tensor C 2x2",
    b"data B 1 2 3 4",
    b"data C 5 6 7 8",
    b"stmt A(i,j) = B(i,k) * C(k,j)",
    b"end",
    b"print A",
];

/// The job's text, with these lines in place of its lines from the first number to the second.
fn text_with(alloc: Global, from: usize, to: usize, lines: &[u8]) -> Result<Vec<u8>, NoMemory> {
    let mut text = Vec::new(alloc);
    for (i, line) in LINES.iter().enumerate() {
        let number = i + 1;
        if number == from {
            text.extend_from_slice(lines)?;
        }
        if number < from || to < number {
            text.extend_from_slice(line)?;
            text.push(b'\n')?;
        }
    }
    Ok(text)
}

fn letter(name: &Name) -> u8 {
    match name.as_slice() {
        [letter] => *letter,
        _ => 0,
    }
}

/// Whether the job is refused at this line, with the cause of this text.
fn is_refused(end: &JobEnd, line: u32, text: &[u8]) -> bool {
    match end {
        JobEnd::Refused(at, cause) => *at == line && cause.text().as_slice() == text,
        JobEnd::NoMemory => false,
    }
}

#[test]
fn a_product_is_read(rt: HostRuntime) -> Result<(), Fail> {
    // Blanks, comments and the CR of a line say nothing.
    let first_lines: [&[u8]; 2] = [b"distal 1\n", b"\n  # a product\n\r\n \t\n\tdistal  1 \r\n"];
    for lines in first_lines {
        let text = text_with(rt.alloc(), 1, 1, lines)?;
        assert!(rt; text.len() < 1000);
        let job = read_job(rt.alloc(), text.as_slice())?;
        assert_eq!(rt; job.names.as_slice().len(), 3);
        assert_eq!(rt; job.tensors.len(), 3);
        let wanted = [
            (0, b'A', [0, 0, 0, 0]),
            (1, b'B', [1, 2, 3, 4]),
            (2, b'C', [5, 6, 7, 8]),
        ];
        for (at, name, values) in wanted {
            assert!(rt; at < 3);
            assert_eq!(rt; letter(&job.names.as_slice()[at as usize]), name);
            assert_eq!(rt; job.tensors.get(at).values(), values.as_slice());
        }
        assert_eq!(rt; job.parts.as_slice().len(), 1);
        assert_eq!(rt; job.shows.as_slice(), [Show::Print(0)].as_slice());
    }
    Ok(())
}

#[test]
fn tensors_have_their_numbers(rt: HostRuntime) -> Result<(), Fail> {
    let cases: [(&[u8], &[u64]); 8] = [
        (
            b"tensor a 3\nfill a seed 7\n",
            &[1_059_165_278, 2_052_263_231, 1_946_856_753],
        ),
        (
            b"tensor a 2 d\nfill a seed 18446744073709551615\n",
            &[1_574_552_488, 1_490_332_343],
        ),
        (b"tensor a 2x3\nfill a ramp\n", &[1, 2, 3, 4, 5, 6]),
        (
            b"tensor a 2x01x2 d,d,d\ndata a 1 18446744073709551615 03 0\n",
            &[1, u64::MAX, 3, 0],
        ),
        (b"tensor a scalar\n", &[0]),
        (b"tensor a scalar\ndata a 9\n", &[9]),
        (b"tensor a scalar\nfill a seed 0\n", &[167_951_807]),
        (b"tensor a 1x2x1x2 d,d,d,d\n", &[0, 0, 0, 0]),
    ];
    for (lines, values) in cases {
        let text = text_with(rt.alloc(), 3, 10, lines)?;
        assert!(rt; text.len() < 1000);
        let job = read_job(rt.alloc(), text.as_slice())?;
        assert_eq!(rt; job.tensors.len(), 1);
        assert_eq!(rt; job.tensors.get(0).values(), values);
    }
    Ok(())
}

#[test]
fn statements_and_outputs_may_be_any_number(rt: HostRuntime) -> Result<(), Fail> {
    let cases: [(usize, usize, &[u8], usize, usize); 4] = [
        (2, 10, b"machine 01\n", 0, 0),
        (8, 10, b"print A\n# and again\nprint A\nprint C\n", 0, 3),
        (
            9,
            10,
            b"end\nstmt B(i,j) += 2 * A(i,j)\nend\nstmt C(i,j) = -A(j,i)\nend\n",
            3,
            0,
        ),
        (10, 10, b"print C\n", 1, 1),
    ];
    for (from, to, lines, stmts, shows) in cases {
        let text = text_with(rt.alloc(), from, to, lines)?;
        assert!(rt; text.len() < 1000);
        let job = read_job(rt.alloc(), text.as_slice())?;
        assert_eq!(rt; job.parts.as_slice().len(), stmts);
        assert_eq!(rt; job.shows.len(), shows);
    }
    Ok(())
}

#[test]
fn the_first_line_with_a_cause_is_told(rt: HostRuntime) -> Result<(), Fail> {
    let cases: [(usize, usize, &[u8], u32, &[u8]); 29] = [
        (1, 10, b"", 1, b"Unfinished"),
        (2, 10, b"", 2, b"Unfinished"),
        (9, 10, b"", 9, b"Unfinished"),
        (1, 1, b"distal 2\n", 1, b"Version"),
        (1, 1, b"\n# two\n\r\n \t\ndistal 2\r\n", 5, b"Version"),
        (1, 1, b"distal x\n", 1, b"Syntax"),
        (1, 1, b"distal 18446744073709551616\n", 1, b"BadNumber"),
        (1, 1, b"machine 1\n", 1, b"OutOfPlace"),
        (2, 2, b"distal 1\n", 2, b"OutOfPlace"),
        (2, 2, b"tensor D 2\n", 2, b"OutOfPlace"),
        (2, 2, b"machine 2x2\nmachine 0\n", 3, b"OutOfPlace"),
        (2, 2, b"place A xy -> xy\n", 2, b"OutOfPlace"),
        (2, 2, b"machine \x80 1\n", 2, b"BadByte 9"),
        (3, 3, b"machine 1\n", 3, b"OutOfPlace"),
        (3, 3, b"entries A 0,0=1\n", 3, b"UnknownWord"),
        (8, 8, b"end\n", 8, b"OutOfPlace"),
        (9, 9, b"print A\n", 9, b"OutOfPlace"),
        (9, 9, b"stmt A(i,j) = B(i,j)\n", 9, b"OutOfPlace"),
        (9, 9, b"entries A 0,0=1\n", 9, b"UnknownWord"),
        (9, 9, b"end 1\n", 9, b"Syntax"),
        (9, 9, b"end\nend\n", 10, b"OutOfPlace"),
        (9, 9, b"end\ntensor D 2\n", 10, b"OutOfPlace"),
        (9, 9, b"end\nplace Z\n", 10, b"OutOfPlace"),
        (10, 10, b"print\n", 10, b"Syntax"),
        (10, 10, b"print Z\n", 10, b"UnknownTensor Z"),
        (10, 10, b"print A\nstmt A(i,j) = 1\n", 11, b"OutOfPlace"),
        (8, 8, b"stmt A(i,j) = D(i,j)\n", 8, b"UnknownTensor D"),
        (3, 3, b"tensor A 3x2\n", 8, b"ExtentClash i"),
        (
            3,
            10,
            b"tensor A 2\ntensor B 2x2\ntensor c 2\nstmt A(i) = B(i,k) + c(i)\n",
            6,
            b"UnevenReduction k",
        ),
    ];
    for (from, to, lines, line, cause) in cases {
        let text = text_with(rt.alloc(), from, to, lines)?;
        assert!(rt; text.len() < 1000);
        let end = read_job(rt.alloc(), text.as_slice()).err().ok_or("a job")?;
        assert!(rt; is_refused(&end, line, cause));
    }
    Ok(())
}

#[test]
fn declarations_are_refused(rt: HostRuntime) -> Result<(), Fail> {
    let cases: [(&[u8], &[u8]); 25] = [
        (b"tensor D\n", b"Syntax"),
        (b"tensor 2D 2\n", b"Syntax"),
        (b"tensor D 2x\n", b"Syntax"),
        (b"tensor D 2 c\n", b"Syntax"),
        (b"tensor D 2 d d\n", b"Syntax"),
        (b"tensor D 2x18446744073709551616\n", b"BadNumber"),
        (b"tensor A 0\n", b"NameTaken A"),
        (b"tensor D 2x0\n", b"BadShape"),
        (b"tensor D 4097\n", b"BadShape"),
        (b"tensor D 2x2x2x2x2\n", b"BadShape"),
        (b"tensor D 4096x4096x2 d\n", b"BadShape"),
        (b"tensor D 2x2 d\n", b"BadFormat"),
        (b"tensor D scalar d\n", b"BadFormat"),
        (b"tensor D 1025x1024\n", b"TooManyStored"),
        (b"data B\n", b"Syntax"),
        (b"data B 1 2 3 x\n", b"Syntax"),
        (b"data B 1 2 3 18446744073709551616\n", b"BadNumber"),
        (b"data Z 1\n", b"UnknownTensor Z"),
        (b"data C 1 2 3\n", b"WrongCount"),
        (b"data B 1\n", b"Twice B"),
        (b"fill C up\n", b"Syntax"),
        (b"fill C seed x\n", b"Syntax"),
        (b"fill C seed 18446744073709551616\n", b"BadNumber"),
        (b"fill Z ramp\n", b"UnknownTensor Z"),
        (b"fill B seed 1\n", b"Twice B"),
    ];
    for (lines, cause) in cases {
        let text = text_with(rt.alloc(), 7, 7, lines)?;
        assert!(rt; text.len() < 1000);
        let end = read_job(rt.alloc(), text.as_slice()).err().ok_or("a job")?;
        assert!(rt; is_refused(&end, 7, cause));
    }
    Ok(())
}

#[test]
fn machines_have_1_to_64_nodes(rt: HostRuntime) -> Result<(), Fail> {
    let machines: [(&[u8], &[u32], u32); 6] = [
        (b"machine 1\n", &[1], 1),
        (b"machine 2x2\n", &[2, 2], 4),
        (b" machine\t02x3x1 \n", &[2, 3, 1], 6),
        (b"machine 64\n", &[64], 64),
        (b"machine 2x2x2x2x2x2\n", &[2, 2, 2, 2, 2, 2], 64),
        (b"machine 1x64x1\n", &[1, 64, 1], 64),
    ];
    for (line, dims, nodes) in machines {
        let text = text_with(rt.alloc(), 2, 2, line)?;
        assert!(rt; text.len() < 1000);
        let job = read_job(rt.alloc(), text.as_slice())?;
        assert_eq!(rt; job.machine.dims(), dims);
        assert_eq!(rt; job.machine.nodes(), nodes);
    }
    let refused: [(&[u8], &[u8]); 17] = [
        (b"machine\n", b"Syntax"),
        (b"machine 2 2\n", b"Syntax"),
        (b"machine 2 / 2\n", b"Syntax"),
        (b"machine 2x2/2\n", b"Syntax"),
        (b"machine 2 memory 8\n", b"Syntax"),
        (b"machine 2x\n", b"Syntax"),
        (b"machine x\n", b"Syntax"),
        (b"machine 2,2\n", b"Syntax"),
        (b"machine 0xa\n", b"Syntax"),
        (b"machine 18446744073709551616xa\n", b"Syntax"),
        (b"machine 18446744073709551616\n", b"BadNumber"),
        (b"machine 0x18446744073709551616\n", b"BadNumber"),
        (b"machine 0\n", b"BadDim"),
        (b"machine 2x0\n", b"BadDim"),
        (b"machine 65\n", b"BadDim"),
        (b"machine 2x33\n", b"BadDim"),
        (b"machine 1x1x1x1x1x1x1\n", b"BadDim"),
    ];
    for (line, cause) in refused {
        let text = text_with(rt.alloc(), 2, 2, line)?;
        assert!(rt; text.len() < 1000);
        let end = read_job(rt.alloc(), text.as_slice()).err().ok_or("a job")?;
        assert!(rt; is_refused(&end, 2, cause));
    }
    Ok(())
}

/// Whether a tensor is placed by these symbols, and on the first node where there are none.
fn is_placed(placement: &Placement, symbols: &[Symbol]) -> bool {
    match placement {
        Placement::FirstNode => symbols.is_empty(),
        Placement::ByNames(names) => names.as_slice() == symbols,
        Placement::ByPositions => false,
    }
}

#[test]
fn tensors_are_placed_where_their_lines_say(rt: HostRuntime) -> Result<(), Fail> {
    // Two tensors, of the orders 2 and 1.
    let cases: [(&[u8], &[Symbol], &[Symbol]); 7] = [
        (b"machine 4\ntensor A 2x4\ntensor b 3\n", &[], &[]),
        (
            b"machine 2x2\ntensor A 2x4\ntensor b 3\nplace A xy -> yx\n",
            &[Symbol::Along(1), Symbol::Along(0)],
            &[],
        ),
        (
            b"machine 4\ntensor A 2x4\ntensor b 3\nplace b x -> x\n",
            &[],
            &[Symbol::Along(0)],
        ),
        (
            b"machine 64\ntensor A 2x4\nplace A xy -> y\ntensor b 3\nplace b x -> x\n",
            &[Symbol::Along(1)],
            &[Symbol::Along(0)],
        ),
        // A placement and numbers may come in either order.
        (
            b"machine 4\ntensor A 2x4\ntensor b 3\nplace b i -> i\ndata b 7 8 9\n",
            &[],
            &[Symbol::Along(0)],
        ),
        (
            b"machine 4\ntensor A 2x4\ntensor b 3\ndata b 7 8 9\n place\tb i  -> i\r\n",
            &[],
            &[Symbol::Along(0)],
        ),
        (
            b"machine 1x2\ntensor A 2x4\ntensor b 3\nfill A ramp\nplace A ab -> ab\n",
            &[Symbol::Along(0), Symbol::Along(1)],
            &[],
        ),
    ];
    for (lines, first, second) in cases {
        let text = text_with(rt.alloc(), 2, 10, lines)?;
        assert!(rt; text.len() < 1000);
        let job = read_job(rt.alloc(), text.as_slice())?;
        let places = job.places.as_slice();
        assert_eq!(rt; places.len(), 2);
        assert!(rt; is_placed(&places[0], first));
        assert!(rt; is_placed(&places[1], second));
    }
    Ok(())
}

#[test]
fn a_placed_tensor_keeps_its_numbers(rt: HostRuntime) -> Result<(), Fail> {
    let cases: [&[u8]; 2] = [
        b"tensor b 3\nplace b x -> x\ndata b 7 8 9\n",
        b"tensor b 3\ndata b 7 8 9\nplace b x -> x\n",
    ];
    for lines in cases {
        let text = text_with(rt.alloc(), 3, 10, lines)?;
        assert!(rt; text.len() < 1000);
        let job = read_job(rt.alloc(), text.as_slice())?;
        assert_eq!(rt; job.tensors.len(), 1);
        assert_eq!(rt; job.tensors.get(0).values(), [7, 8, 9].as_slice());
    }
    Ok(())
}

/// Eight lines on a machine of two dimensions, the last of which places `A`, and then these lines.
fn behind_placed(alloc: Global, lines: &[u8]) -> Result<Vec<u8>, NoMemory> {
    let mut text = Vec::new(alloc);
    text.extend_from_slice(b"distal 1\nmachine 2x2\ntensor A 2x2\ntensor b 3\n")?;
    text.extend_from_slice(b"tensor s scalar\ntensor C 2x2\ntensor D 2x2x2x2\n")?;
    text.extend_from_slice(b"place A xy -> xy\n")?;
    text.extend_from_slice(lines)?;
    Ok(text)
}

#[test]
fn places_are_refused(rt: HostRuntime) -> Result<(), Fail> {
    let cases: [(&[u8], u32, &[u8]); 33] = [
        (b"place\n", 9, b"Syntax"),
        (b"place C xy xy\n", 9, b"Syntax"),
        (b"place C xy -> x y\n", 9, b"Syntax"),
        (b"place C xy -> xy / xy\n", 9, b"Syntax"),
        (b"place C xy => xy\n", 9, b"Syntax"),
        (b"place C xY -> xy\n", 9, b"Syntax"),
        (b"place C xy -> x*\n", 9, b"Syntax"),
        (b"place C xy -> x0\n", 9, b"Syntax"),
        (b"place C xy -> -\n", 9, b"Syntax"),
        (b"place C xy -> nz\n", 9, b"Syntax"),
        (b"place 2C xy -> xy\n", 9, b"Syntax"),
        (b"place Z2 xy ->\n", 9, b"Syntax"),
        (b"place Z xy -> xy\n", 9, b"UnknownTensor Z"),
        // Each test comes before those behind it.
        (b"place Z xx -> a\n", 9, b"UnknownTensor Z"),
        (b"place A xy -> xy\n", 9, b"Twice A"),
        (b"place A xxx -> a\n", 9, b"Twice A"),
        (b"place C xy -> yx\nplace C xy -> yx\n", 10, b"Twice C"),
        (b"place b xy -> xy\n", 9, b"WrongOrder b"),
        (b"place b xx -> a\n", 9, b"WrongOrder b"),
        (b"place b - -> xy\n", 9, b"WrongOrder b"),
        (b"place s x -> xy\n", 9, b"WrongOrder s"),
        (b"place C xx -> xx\n", 9, b"NameTwice x"),
        (b"place D yxxy -> a\n", 9, b"NameTwice x"),
        (b"place C xy -> x\n", 9, b"WrongDims"),
        (b"place C xy -> zzz\n", 9, b"WrongDims"),
        (b"place b x -> x\n", 9, b"WrongDims"),
        (b"place C xy -> xz\n", 9, b"UnknownName z"),
        (b"place C xy -> zz\n", 9, b"UnknownName z"),
        (b"place s - -> xy\n", 9, b"UnknownName x"),
        (b"place C xy -> xx\n", 9, b"NameTwiceInLevel x"),
        (b"place D abcd -> dd\n", 9, b"NameTwiceInLevel d"),
        (b"place b x -> xx\n", 9, b"NameTwiceInLevel x"),
        (b"print C\nplace Z\n", 10, b"OutOfPlace"),
    ];
    for (lines, line, cause) in cases {
        let text = behind_placed(rt.alloc(), lines)?;
        assert!(rt; text.len() < 1000);
        let end = read_job(rt.alloc(), text.as_slice()).err().ok_or("a job")?;
        assert!(rt; is_refused(&end, line, cause));
    }
    Ok(())
}

/// `count` lines that declare tensors whose names differ, and then these lines.
fn tensors(alloc: Global, count: u8, lines: &[u8]) -> Result<Vec<u8>, NoMemory> {
    let mut text = Vec::new(alloc);
    text.extend_from_slice(b"distal 1\nmachine 1\n")?;
    for i in 0..count {
        text.extend_from_slice(b"tensor t")?;
        text.push(b'a' + i / 26)?;
        text.push(b'a' + i % 26)?;
        text.extend_from_slice(b" 2\n")?;
    }
    text.extend_from_slice(lines)?;
    Ok(text)
}

/// A job of this many statements.
fn statements(alloc: Global, count: u8) -> Result<Vec<u8>, NoMemory> {
    let mut text = Vec::new(alloc);
    text.extend_from_slice(b"distal 1\nmachine 1\ntensor s scalar\n")?;
    for _i in 0..count {
        text.extend_from_slice(b"stmt s += 1\nend\n")?;
    }
    Ok(text)
}

/// A job with a comment of this many bytes.
fn comment(alloc: Global, count: u32) -> Result<Vec<u8>, NoMemory> {
    let mut text = Vec::new(alloc);
    text.extend_from_slice(b"distal 1\nmachine 1\n")?;
    for _i in 0..count {
        text.push(b'#')?;
    }
    Ok(text)
}

/// Whether the text is a job, or, where a line and a cause are given, is refused with these.
fn comes_of(alloc: Global, text: &[u8], refused: Option<(u32, &[u8])>) -> bool
    requires { length text.now < 2000000 }
{
    match (read_job(alloc, text), refused) {
        (Ok(_job), None) => true,
        (Err(end), Some((line, cause))) => is_refused(&end, line, cause),
        _ => false,
    }
}

#[test]
fn limits_are_kept(rt: HostRuntime) -> Result<(), Fail> {
    let cases: [(Vec<u8>, Option<(u32, &[u8])>); 7] = [
        (tensors(rt.alloc(), 32, b"")?, None),
        (tensors(rt.alloc(), 33, b"")?, Some((35, b"TooManyTensors"))),
        (
            tensors(rt.alloc(), 32, b"tensor x 0\n")?,
            Some((35, b"TooManyTensors")),
        ),
        (statements(rt.alloc(), 32)?, None),
        (
            statements(rt.alloc(), 33)?,
            Some((68, b"TooManyStatements")),
        ),
        (comment(rt.alloc(), 1_048_576)?, None),
        (comment(rt.alloc(), 1_048_577)?, Some((3, b"LineTooLong"))),
    ];
    for (text, refused) in &cases {
        assert!(rt; text.len() < 2_000_000);
        assert!(rt; comes_of(rt.alloc(), text.as_slice(), *refused));
    }
    Ok(())
}

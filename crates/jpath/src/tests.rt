//! What no case asks of a run: streams that give and take little at a time, and that fail; and how often it flushes.
use crate::run::run;
use std::alloc::Global;
use std::io;
use std::io::{ErrorKind, Read, Write};

/// A run, and how it ends where its streams do not fail.
struct Case {
    words: &'static [&'static str],
    document: &'static [u8],
    status: u8,
    output: &'static [u8],
}

static CASES: [Case; 6] = [
    Case {
        words: &["nodes", "$[*]"],
        document: b"[1,2]",
        status: 0,
        output: b"$[0]\t1\n$[1]\t2\n",
    },
    Case {
        words: &["values", "$.x"],
        document: b"{}",
        status: 0,
        output: b"",
    },
    Case {
        words: &["paths", "--depth", "2", "$[?@[0]]"],
        document: b"[[1],2]",
        status: 0,
        output: b"$[0]\n",
    },
    Case {
        words: &["delete", "$[0,0]"],
        document: b"[1,2,3]",
        status: 0,
        output: b"1\n[2,3]\n",
    },
    Case {
        words: &["values", "$"],
        document: b"[1",
        status: 3,
        output: b"",
    },
    Case {
        words: &["delete", "$"],
        document: b"[1.5]",
        status: 4,
        output: b"",
    },
];

/// Gives a byte at a time, and fails once it has no reads left.
#[derive(Drop)]
struct ByteReader<'t> {
    bytes: &'t [u8],
    reads_left: usize,
}

impl Read for ByteReader<'_> {
    fn read(&mut self, buf: &mut [u8]) -> io::Result<usize> {
        if self.reads_left == 0 {
            return Err(io::Error::from(ErrorKind::Other));
        }
        self.reads_left -= 1;
        match self.bytes.split_first() {
            Some((byte, rest)) if !buf.is_empty() => {
                buf[0] = *byte;
                self.bytes = rest;
                Ok(1)
            }
            _ => Ok(0),
        }
    }
}

/// How a `SmallWriter` fails: by the write behind those that it has left, or by each flush.
#[derive(Clone, Copy, Debug)]
enum Failing {
    Write,
    /// The write takes nothing.
    EmptyWrite,
    Flush,
}

/// How much a `SmallWriter` takes: so many bytes at once, and so many times; and how it fails then.
#[derive(Clone, Copy)]
struct Taking {
    at_once: usize,
    writes: usize,
    failing: Failing,
}

/// Takes a few bytes at a time, and counts the flushes.
#[derive(Drop)]
struct SmallWriter {
    written: Vec<u8>,
    left: Taking,
    flushes: usize,
}

impl Write for SmallWriter {
    fn write(&mut self, buf: &[u8]) -> io::Result<usize> {
        if self.left.writes == 0 {
            return match self.left.failing {
                Failing::EmptyWrite => Ok(0),
                Failing::Write | Failing::Flush => Err(io::Error::from(ErrorKind::Other)),
            };
        }
        self.left.writes -= 1;
        let count = buf.len().min(self.left.at_once);
        self.written.extend_from_slice(&buf[..count])?;
        Ok(count)
    }

    fn flush(&mut self) -> io::Result<()> {
        self.flushes = self.flushes.saturating_add(1);
        match self.left.failing {
            Failing::Flush => Err(io::Error::from(ErrorKind::Other)),
            Failing::Write | Failing::EmptyWrite => Ok(()),
        }
    }
}

/// The words of a case, as the program has them.
fn words_of(alloc: Global, case: &Case) -> Option<Vec<String>> {
    let mut words = Vec::new(alloc);
    for word in case.words {
        words.push(String::from_str(alloc, word).ok()?).ok()?;
    }
    Some(words)
}

/// The exit status of the run of a case.
fn status_of<R: Read, W: Write>(
    alloc: Global,
    case: &Case,
    reader: &mut R,
    writer: &mut W,
) -> Option<u8> {
    let words = words_of(alloc, case)?;
    let Some(fault) = run(alloc, &words, reader, writer).err() else {
        return Some(0);
    };
    let status = fault.status();
    drop(fault);
    Some(status)
}

/// Whether the run of a case ends as it should where a reader gives a byte at a time and fails behind so many reads.
fn reads_so(alloc: Global, case: &Case, reads: usize) -> Option<bool> {
    let mut reader = ByteReader {
        bytes: case.document,
        reads_left: reads,
    };
    let mut written = Vec::new(alloc);
    let status = status_of(alloc, case, &mut reader, &mut written)?;
    // A read for each byte, and one of the end.
    let wanted = if reads <= case.document.len() {
        (5, "".as_bytes())
    } else {
        (case.status, case.output)
    };
    Some((status, written.as_slice()) == wanted)
}

#[test]
fn failing_reads(rt: HostRuntime) {
    for case in &CASES {
        for reads in 0..=case.document.len().saturating_add(1) {
            assert_eq!(rt;
                reads_so(rt.alloc(), case, reads),
                Some(true),
                "{:?} and {reads} reads",
                case.words
            );
        }
    }
}

/// The status of the run of a case whose writer takes so much, the bytes that it has taken, if they are a beginning of the output, and the flushes.
fn written(alloc: Global, case: &Case, taking: Taking) -> Option<(u8, usize, usize)> {
    let mut reader = case.document;
    let mut writer = SmallWriter {
        written: Vec::new(alloc),
        left: taking,
        flushes: 0,
    };
    let status = status_of(alloc, case, &mut reader, &mut writer)?;
    if case.output.starts_with(writer.written.as_slice()) {
        Some((status, writer.written.len(), writer.flushes))
    } else {
        None
    }
}

/// The status, the count of bytes and the count of flushes that are wanted there.
fn wanted(case: &Case, taking: Taking) -> (u8, usize, usize) {
    let room = taking.at_once.saturating_mul(taking.writes);
    let length = case.output.len();
    match taking.failing {
        _ if case.status != 0 => (case.status, 0, 0),
        _ if room < length => (5, room, 0),
        Failing::Flush => (5, length, 1),
        Failing::Write | Failing::EmptyWrite => (0, length, 1),
    }
}

/// How many bytes a writer takes at once, and how it fails.
static WRITERS: [(usize, Failing); 6] = [
    (1, Failing::Write),
    (1, Failing::EmptyWrite),
    (1, Failing::Flush),
    (5, Failing::Write),
    (5, Failing::EmptyWrite),
    (5, Failing::Flush),
];

/// The least count of writes of such a writer at which the run of a case does not end as it should.
fn first_wrong(alloc: Global, case: &Case, writer: (usize, Failing)) -> Option<usize> {
    for writes in 0..=case.output.len() {
        let taking = Taking {
            at_once: writer.0,
            writes,
            failing: writer.1,
        };
        if written(alloc, case, taking) != Some(wanted(case, taking)) {
            return Some(writes);
        }
    }
    None
}

#[test]
fn failing_writes_and_flushes(rt: HostRuntime) {
    for case in &CASES {
        for writer in &WRITERS {
            assert_eq!(rt;
                first_wrong(rt.alloc(), case, *writer),
                None,
                "{:?} and a writer of {} bytes, {:?}",
                case.words,
                writer.0,
                writer.1
            );
        }
    }
}

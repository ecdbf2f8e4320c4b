//! Texts read from files and written to sinks, of which calls fail, in memory and over the system.
use crate::made::{stored, words};
use bg_io::ReadError::{ReadFault, TooLong};
use bg_io::{
    Files, MemFiles, MemSink, NoFailFiles, NoFailSink, ReadError, RealFiles, StdSink, read_all,
    write_all,
};
use std::alloc::{AllocError, Global};
use std::test::Fail;
use std::{fs, io};

const ABC: [(&str, &str); 3] = [("a", "xy"), ("b", ""), ("c", "z\n")];

/// Names, a limit, the number of a call that fails, and the text or why there is none.
type Case = (
    &'static [&'static str],
    u64,
    u64,
    Result<&'static str, ReadError>,
);

/// Files are joined by newlines up to the limit. Of `a`, `b` and `c` the calls are: start, read, end; start, end; start, read, end.
const READS: [Case; 21] = [
    (&[], 0, 0, Ok("")),
    (&["b"], 0, 0, Ok("")),
    (&["a"], 2, 0, Ok("xy")),
    (&["a"], 1, 0, Err(TooLong { bytes: 2 })),
    (&["b", "b"], 1, 0, Ok("\n")),
    (&["b", "b"], 0, 0, Err(TooLong { bytes: 1 })),
    (&["a", "b", "c"], 6, 0, Ok("xy\n\nz\n")),
    (&["a", "b", "c"], 5, 0, Err(TooLong { bytes: 6 })),
    (&["a", "b", "c"], 2, 0, Err(TooLong { bytes: 3 })),
    (&["c", "a", "c"], u64::MAX, 0, Ok("z\n\nxy\nz\n")),
    (&["a", "d"], 9, 0, Err(ReadFault { file: 1 })),
    (&["a", "d"], 2, 0, Err(TooLong { bytes: 3 })),
    (&["a", "b", "c"], 6, 1, Err(ReadFault { file: 0 })),
    (&["a", "b", "c"], 6, 2, Err(ReadFault { file: 0 })),
    (&["a", "b", "c"], 6, 3, Err(ReadFault { file: 0 })),
    (&["a", "b", "c"], 6, 4, Err(ReadFault { file: 1 })),
    (&["a", "b", "c"], 6, 5, Err(ReadFault { file: 1 })),
    (&["a", "b", "c"], 6, 6, Err(ReadFault { file: 2 })),
    (&["a", "b", "c"], 6, 7, Err(ReadFault { file: 2 })),
    (&["a", "b", "c"], 6, 8, Err(ReadFault { file: 2 })),
    (&["a", "b", "c"], 6, 9, Ok("xy\n\nz\n")),
];

/// Whether these names give the wanted answer.
fn gives<F: Files>(
    alloc: Global,
    files: &mut F,
    names: &[&str],
    limit: u64,
    wanted: Result<&str, ReadError>,
) -> Result<bool, AllocError> {
    let found = read_all(alloc, files, &words(alloc, names)?, limit);
    Ok(match (found, wanted) {
        (Ok(text), Ok(wanted)) => text.as_slice() == wanted.as_bytes(),
        (Err(e), Err(wanted)) => e == wanted,
        _ => false,
    })
}

fn reads(alloc: Global, case: &Case) -> Result<bool, AllocError> {
    let (names, limit, fails, wanted) = *case;
    let mut files = MemFiles::new(stored(alloc, &ABC)?, vec![in alloc; fails]?);
    gives(alloc, &mut files, names, limit, wanted)
}

#[test]
fn files_are_joined_and_faults_name_theirs(rt: HostRuntime) -> Result<(), Fail> {
    for case in &READS {
        assert!(rt; reads(rt.alloc(), case)?);
    }
    Ok(())
}

const TEXT: &[u8] = b"axioms: consistent\nretained\n";

/// The bytes a call, the room, the call that fails, and how many bytes are then held.
const WRITES: [(Option<usize>, usize, u64, usize); 10] = [
    (None, 28, 0, 28),
    (None, 28, 1, 0),
    (None, 27, 0, 27),
    (Some(16), 99, 0, 28),
    (Some(16), 99, 2, 16),
    (Some(3), 99, 9, 24),
    (Some(3), 99, 0, 28),
    (Some(1), 99, 28, 27),
    (Some(1), 5, 0, 5),
    (Some(0), 99, 0, 0),
];

/// Whether the text is written or else so much of it is held.
fn holds(
    alloc: Global,
    most: Option<usize>,
    room: usize,
    call: u64,
    wanted: usize,
) -> Result<bool, AllocError> {
    let mut sink = MemSink::new(alloc, room, most, vec![in alloc; call]?)?;
    let is_done = write_all(&mut sink, TEXT).is_ok();
    Ok(is_done == (wanted == 28) && sink.bytes().len() == wanted && TEXT.starts_with(sink.bytes()))
}

#[test]
fn a_sink_holds_what_it_took_before_it_failed(rt: HostRuntime) -> Result<(), Fail> {
    for (most, room, call, wanted) in &WRITES {
        assert!(rt; holds(rt.alloc(), *most, *room, *call, *wanted)?);
    }
    Ok(())
}

#[test]
fn nothing_fails_where_nothing_can(rt: HostRuntime) -> Result<(), Fail> {
    let alloc = rt.alloc();
    let mut files = NoFailFiles::new(stored(alloc, &ABC)?);
    assert!(rt; gives(alloc, &mut files, &["a", "d", "c"], 9, Ok("xy\n\nz\n"))?);
    assert!(rt; write_all(&mut NoFailSink, TEXT).is_ok());
    Ok(())
}

/// A file that is removed, and a folder, are faults of theirs.
#[test]
fn files_of_the_system_are_read(rt: HostRuntime) -> Result<(), Fail> {
    let alloc = rt.alloc();
    let [first, empty, second] = ["bg_io.1.tmp", "bg_io.2.tmp", "bg_io.3.tmp"];
    fs::write(&rt, first, "axiom true;")?;
    fs::write(&rt, empty, "")?;
    fs::write(&rt, second, "// second\n")?;
    let mut files = RealFiles::new(&rt);
    let names = [first, empty, second];
    assert!(rt;
        gives(
            alloc,
            &mut files,
            &names,
            99,
            Ok("axiom true;\n\n// second\n")
        )?
    );
    fs::remove_file(&rt, empty)?;
    fs::remove_file(&rt, second)?;
    for name in [second, "."] {
        assert!(rt;
            gives(
                alloc,
                &mut files,
                &[first, name],
                99,
                Err(ReadFault { file: 1 })
            )?
        );
    }
    fs::remove_file(&rt, first)?;
    Ok(())
}

/// A stream that takes a byte a call, and then none.
#[derive(Drop)]
struct Stubborn(usize);

impl io::Write for Stubborn {
    fn write(&mut self, buf: &[u8]) -> io::Result<usize> {
        if self.0 == 0 || buf.is_empty() {
            return Ok(0);
        }
        self.0 -= 1;
        Ok(1)
    }

    fn flush(&mut self) -> io::Result<()> {
        Ok(())
    }
}

#[test]
fn streams_of_the_system_take_bytes(rt: HostRuntime) {
    assert!(rt; write_all(&mut StdSink::new(rt.stdout()), b"to the output\n").is_ok());
    assert!(rt; write_all(&mut StdSink::new(rt.stderr()), b"to the error\n").is_ok());
    assert!(rt; write_all(&mut StdSink::new(Stubborn(4)), b"four").is_ok());
    assert!(rt; write_all(&mut StdSink::new(Stubborn(3)), b"four").is_err());
}

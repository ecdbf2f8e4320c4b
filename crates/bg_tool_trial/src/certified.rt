//! Certificates as the top call writes them, and what it answers of them.
use crate::made::{stored, words};
use bg_claims::FreeGate;
use bg_ends::Status;
use bg_io::{MemFiles, MemSink, StoredFile};
use bg_tool::run;
use std::alloc::AllocError;
use std::test::Fail;
use std::thread::Threads;

const CERTIFY: &[&str] = &["bg", "certify", "--workers", "2", "a.bpl"];

const CHECK: &[&str] = &["bg", "check", "--cert", "c.txt", "a.bpl"];

const COPY: &str = "procedure P(a: bool) { var b: bool; b := a; assert b == a; }";

const COUNT: &str = "const {:existential true} b0, b1, b2: bool;
procedure Count(n: int) returns (i: int) requires 0 <= n; ensures i == n;
{ i := 0; while (i < n) invariant b0 ==> i >= 0; invariant b1 ==> i >= 1; invariant b2 ==> i <= n; { i := i + 1; } }";

/// What the words write of these files, if they end so.
fn written<R: AllocGlobal + Threads + Sync>(
    rt: &R,
    given: &[&str],
    files: Vec<StoredFile>,
    ends: Status,
) -> Result<Option<Vec<u8>>, AllocError> {
    let alloc = rt.alloc();
    let mut files = MemFiles::new(files, Vec::new(alloc));
    let mut out = MemSink::new(alloc, 100_000, None, Vec::new(alloc))?;
    let mut err = MemSink::new(alloc, 10_000, None, Vec::new(alloc))?;
    let words = words(alloc, given)?;
    let status = run(rt, &words, &mut files, &mut out, &mut err, &FreeGate);
    if status == ends && err.bytes().is_empty() {
        Ok(Some(out.bytes().to_vec(alloc)?))
    } else {
        Ok(None)
    }
}

/// Whether what `certify` writes of a text, with status 0, is accepted for it.
fn is_accepted<R: AllocGlobal + Threads + Sync>(rt: &R, text: &str) -> Result<bool, AllocError> {
    let alloc = rt.alloc();
    let files = stored(alloc, &[("a.bpl", text)])?;
    let Some(cert) = written(rt, CERTIFY, files, Status::Verified)? else {
        return Ok(false);
    };
    let mut files = stored(alloc, &[("a.bpl", text)])?;
    files.push(StoredFile {
        name: String::from_str(alloc, "c.txt")?,
        bytes: cert,
    })?;
    match written(rt, CHECK, files, Status::Verified)? {
        None => Ok(false),
        Some(answer) => Ok(answer.as_slice() == b"accepted\n".as_slice()),
    }
}

#[test]
fn what_certify_writes_with_status_0_is_accepted(rt: HostRuntime) -> Result<(), Fail> {
    for text in &[COPY, COUNT] {
        assert!(rt; is_accepted(&rt, text)?);
    }
    Ok(())
}

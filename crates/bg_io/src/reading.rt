//! Whole texts from files.
ghost use Rattle.std.specs.Prelude.{◌≡◌, ◌≤◌, ◌<◌, ◌+◌, [], ◌++◌, IsTrue, IfSome, OnOk, IfOk, map, length, vec_len, string_bytes};
ghost use Rattle.bg_io.specs.Causes.{Rose, counted, IsTextOf, IsTextOver};
ghost use Rattle.bg_io.specs.Errors.{IfReadFault, IfTooLong};
ghost use Rattle.bg_io.specs.Reading.{with_rest, next_piece};

use crate::errors::ReadError;
use crate::outside::Files;
use std::alloc::Global;

// Appends the bytes where the text stays within the limit.
fn append(text: &mut Vec<u8>, bytes: &[u8], limit: u64) -> Result<(), ReadError>
    requires { vec_len text.old ≤ limit }
    ensures ok { OnOk result (text.new.items ≡ text.old.items ++ bytes.now) }
    ensures fits { OnOk result (vec_len text.new ≤ limit) }
    ensures too_long { IfTooLong result (λ n. n ≡ limit + 1) }
    ensures longer { IfTooLong result (λ _. limit < vec_len text.old + length bytes.now) }
    ensures no_fault { IfReadFault result (λ _. ⊥) }
{
    if bytes.len() as u64 > limit - text.len() as u64 {
        return Err(ReadError::TooLong { bytes: limit + 1 });
    }
    text.extend_from_slice(bytes)?;
    Ok(())
}

// Appends what one read gives, and says how many bytes it gave: none at the end of the file.
fn append_some<F: Files>(
    files: &mut F,
    file: usize,
    text: &mut Vec<u8>,
    limit: u64,
) -> Result<usize, ReadError>
    requires started { IsTrue (F.started files.old) }
    requires within { vec_len text.old ≤ limit }
    ensures ok { OnOk result
        (with_rest text.new.items (F.left files.new) ≡ with_rest text.old.items (F.left files.old)) }
    ensures more { IfOk result (λ n. vec_len text.new ≡ vec_len text.old + n) }
    ensures end { IfOk result (λ n. n ≡ 0 → IfSome (F.left files.new) (λ rest. rest ≡ [])) }
    ensures fits { OnOk result (vec_len text.new ≤ limit) }
    ensures too_long { IfTooLong result (λ n. n ≡ limit + 1) }
    ensures longer { IfTooLong result (λ _.
        IfSome (F.left files.old) (λ rest. limit < vec_len text.old + length rest)) }
    ensures fault { IfReadFault result (λ _. Rose (F.faults files.old) (F.faults files.new)) }
    ensures file { IfReadFault result (λ k. k ≡ file) }
    ensures same { F.contents files.new ≡ F.contents files.old }
    ensures started { F.started files.new ≡ F.started files.old }
    ensures starts { F.starts files.new ≡ F.starts files.old }
    ensures later { F.faults files.old ≤ F.faults files.new }
{
    let mut buf = [0u8; 8192];
    match files.read(&mut buf) {
        Err(_) => Err(ReadError::ReadFault { file }),
        Ok(n) => {
            append(text, &buf[..n], limit)?;
            Ok(n)
        }
    }
}

// Appends all that is left of the started file. Each turn takes a byte, or ends the file.
fn append_file<F: Files>(
    files: &mut F,
    file: usize,
    text: &mut Vec<u8>,
    limit: u64,
) -> Result<(), ReadError>
    requires started { IsTrue (F.started files.old) }
    requires within { vec_len text.old ≤ limit }
    ensures ok { OnOk result
        (IfSome (F.left files.old) (λ rest. text.new.items ≡ text.old.items ++ rest)) }
    ensures fits { OnOk result (vec_len text.new ≤ limit) }
    ensures too_long { IfTooLong result (λ n. n ≡ limit + 1) }
    ensures longer { IfTooLong result (λ _.
        IfSome (F.left files.old) (λ rest. limit < vec_len text.old + length rest)) }
    ensures fault { IfReadFault result (λ _. Rose (F.faults files.old) (F.faults files.new)) }
    ensures file { IfReadFault result (λ k. k ≡ file) }
    ensures same { F.contents files.new ≡ F.contents files.old }
    ensures starts { F.starts files.new ≡ F.starts files.old }
    ensures later { F.faults files.old ≤ F.faults files.new }
{
    loop {
        match append_some(files, file, text, limit) {
            Ok(0) => return Ok(()),
            Ok(_) => {}
            Err(e) => return Err(e),
        }
    }
}

// Appends the whole file of this name and number, after a newline byte unless it is the first.
fn append_named<F: Files>(
    files: &mut F,
    name: &str,
    file: usize,
    text: &mut Vec<u8>,
    limit: u64,
) -> Result<(), ReadError>
    requires { vec_len text.old ≤ limit }
    ensures ok { OnOk result
        (IfSome (F.contents files.old) (λ held. text.new.items ≡ text.old.items ++ next_piece file (held name.now))) }
    ensures fits { OnOk result (vec_len text.new ≤ limit) }
    ensures too_long { IfTooLong result (λ n. n ≡ limit + 1) }
    ensures longer { IfTooLong result (λ _.
        IfSome (F.contents files.old) (λ held. limit < vec_len text.old + length (next_piece file (held name.now)))) }
    ensures fault { IfReadFault result (λ _. Rose (F.faults files.old) (F.faults files.new)) }
    ensures file { IfReadFault result (λ k. k ≡ file) }
    ensures started { IfReadFault result (λ _.
        F.starts files.new ≡ counted (F.starts files.old) 1) }
    ensures same { F.contents files.new ≡ F.contents files.old }
    ensures starts { OnOk result (F.starts files.new ≡ counted (F.starts files.old) 1) }
    ensures later { F.faults files.old ≤ F.faults files.new }
{
    if file > 0 {
        append(text, b"\n", limit)?;
    }
    if files.start_file(name).is_err() {
        return Err(ReadError::ReadFault { file });
    }
    append_file(files, file, text, limit)
}

/// The contents of the files in the order of the names, with one newline byte between two.
///
/// # Errors
///
/// - `ReadFault` where the start or a read of a file failed, with its number from 0.
/// - `TooLong` where the text has more than `limit` bytes, with `limit` and 1. The bytes past the
///   limit are not kept, and no later file is started.
/// - `Memory` where there is no memory for the text.
pub fn read_all<F: Files>(
    alloc: Global,
    files: &mut F,
    names: &[String],
    limit: u64,
) -> Result<Vec<u8>, ReadError>
    ensures text { IfOk result (λ v.
        IsTextOf (F.contents files.old) (map string_bytes names.now) v.items) }
    ensures fits { IfOk result (λ v. vec_len v ≤ limit) }
    ensures too_long { IfTooLong result (λ bytes. bytes ≡ limit + 1) }
    ensures longer { IfTooLong result (λ _.
        IsTextOver (F.contents files.old) (map string_bytes names.now) limit) }
    ensures fault { IfReadFault result (λ _. Rose (F.faults files.old) (F.faults files.new)) }
    ensures file { IfReadFault result (λ file.
        F.starts files.new ≡ counted (F.starts files.old) (file + 1)) }
    ensures named { IfReadFault result (λ file. file < length names.now) }
    ensures starts { OnOk result
        (F.starts files.new ≡ counted (F.starts files.old) (length names.now)) }
    ensures same { F.contents files.new ≡ F.contents files.old }
    ensures later { F.faults files.old ≤ F.faults files.new }
{
    let mut text = Vec::new(alloc);
    for (file, name) in names.iter().enumerate() {
        append_named(files, name.as_str(), file, &mut text, limit)?;
    }
    Ok(text)
}

//! Chunks by turns.
ghost use Rattle.std.specs.Prelude.{◌≡◌, ℕ, ◌+◌, ◌*◌, ◌/◌, ◌%◌, ◌<◌, min, length, vec_len, IfOk};
ghost use Rattle.std.specs.Fork.{IsChunk, AcceptsChunks, GivesChunk, GivesChunks};

use crate::turns::map_indices;
use std::alloc::{AllocError, Global};
use std::thread::Threads;

/// How many chunks of this size a list of this length has.
fn chunk_count(len: usize, size: usize) -> usize
    requires { 0 < size }
    ensures is { result ≡ len / size + min 1 (len % size) }
    ensures inside { (n : ℕ) → n < result → n * size < len }
{
    len.div_ceil(size)
}

/// The chunk of this number.
fn chunk_at<T>(s: &[T], size: usize, n: usize) -> &[T]
    requires size { 0 < size }
    requires inside { n * size < length s.now }
    ensures { IsChunk s.now size (n * size) result.now }
{
    let (_, rest) = s.split_at(n * size);
    let (chunk, _) = rest.split_at(size.min(rest.len()));
    chunk
}

/// Calls f(start, chunk) at each chunk of this size, the last of which may be shorter, in at most so many threads, of which each takes the
/// next chunk that none has taken yet, and gives the results in order.
///
/// Only want of memory is an error.
pub fn map_chunks<R: Threads + Sync, T: Sync, X: Send + Drop, F: Fn(usize, &[T]) -> X + Sync>(
    rt: &R,
    alloc: Global,
    s: &[T],
    size: usize,
    threads: u32,
    f: &F,
) -> Result<Vec<X>, AllocError>
    requires size { 0 < size }
    requires accepts { AcceptsChunks F.Fn f.now size s.now }
    ensures len { IfOk result (λ v. vec_len v ≡ length s.now / size + min 1 (length s.now % size)) }
    ensures each { IfOk result (λ v. GivesChunks F.Fn f.now size s.now v.items) }
{
    let part = move |n: usize| -> X
        requires { (0 < size) × (n * size < length s.now) × AcceptsChunks F.Fn f.now size s.now }
        ensures { GivesChunk F.Fn f.entry.now size s.entry.now n result }
    { f(n * size, chunk_at(s, size, n)) };
    map_indices(rt, alloc, chunk_count(s.len(), size), threads, &part)
}

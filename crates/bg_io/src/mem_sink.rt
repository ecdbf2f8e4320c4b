//! A sink in memory, of which chosen calls fail.
ghost use Rattle.std.specs.Prelude.{◌≤◌, vec_len, vec_capacity};

use crate::calls::Calls;
use crate::errors::Failed;
use crate::outside::Sink;
use std::alloc::{AllocError, Global};

/// A sink in memory, with the room that it was made with.
#[derive(Drop)]
pub struct MemSink {
    bytes: Vec<u8>,
    room: usize,
    most: Option<usize>,
    calls: Calls,
    ghost within: { vec_len bytes ≤ room },
    ghost made: { room ≤ vec_capacity bytes },
}

impl MemSink {
    ghost use Rattle.std.specs.Prelude.{◌≡◌, [], IfOk};
    ghost use Rattle.bg_io.specs.Calls.{first_call};
    ghost use Rattle.bg_io.specs.Memory.{most_of, room_of, sink_calls, written_in};

    /// An empty sink with room for `room` bytes, which takes at most `most` bytes a call, or any
    /// number. The calls of `write` whose numbers, from 1, stand in `fails` fail, and so does each
    /// call that finds no room.
    pub fn new(
        alloc: Global,
        room: usize,
        most: Option<usize>,
        fails: Vec<u64>,
    ) -> Result<MemSink, AllocError>
        ensures written { IfOk result (λ s. written_in s ≡ []) }
        ensures room { IfOk result (λ s. room_of s ≡ room) }
        ensures most { IfOk result (λ s. most_of s ≡ most) }
        ensures calls { IfOk result (λ s. sink_calls s ≡ first_call fails) }
    {
        Ok(MemSink {
            bytes: Vec::with_capacity(alloc, room)?,
            room,
            most,
            calls: Calls::new(fails),
        })
    }

    /// The bytes written so far.
    pub fn bytes(&self) -> &[u8]
        ensures { result.now ≡ written_in self.now }
    {
        self.bytes.as_slice()
    }
}

impl Sink for MemSink {
    ghost use Rattle.std.specs.Prelude.{◌≡◌, ◌<◌, ◌↔◌, ◌⊎◌, ◌++◌, Some, IfOk, OnErr, IsErr, take, length};
    ghost use Rattle.bg_io.specs.Calls.{IsToFail, IsCounted};
    ghost use Rattle.bg_io.specs.Memory.{front_len, most_of, room_of, sink_calls, written_in};

    ghost written = { λ s. Some (written_in s) };

    ghost faults = { λ s. (sink_calls s).faults };

    // Takes as many bytes as there is room for, and as may be taken at a time. Fails where these
    // are none, or where the call is to fail.
    fn write(&mut self, bytes: &[u8]) -> Result<usize, Failed>
        requires { 0 < length bytes.now }
        ensures some { IfOk result (λ n. n ≡ front_len self.old (length bytes.now)) }
        ensures ok { IfOk result (λ n.
            written_in self.new ≡ written_in self.old ++ take n bytes.now) }
        ensures err { OnErr result (written_in self.new ≡ written_in self.old) }
        ensures room { room_of self.new ≡ room_of self.old }
        ensures most { most_of self.new ≡ most_of self.old }
        ensures calls { IsCounted (sink_calls self.old) (sink_calls self.new) result }
        ensures fails { IsErr result ↔
            (IsToFail (sink_calls self.old) ⊎ (front_len self.old (length bytes.now) ≡ 0)) }
    {
        let fails = self.calls.next();
        let free = self.room - self.bytes.len();
        let n = bytes.len().min(free).min(self.most.unwrap_or(bytes.len()));
        if fails || n == 0 {
            self.calls.fail();
            return Err(Failed);
        }
        self.bytes.extend_from_slice(&bytes[..n]).unwrap();
        Ok(n)
    }
}

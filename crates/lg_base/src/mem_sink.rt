//! A sink in memory, with room for a number of bytes, which fails where it is told to.
ghost use Rattle.std.specs.Prelude.{Some, ◌≡◌, ◌≢◌, ◌↔◌, IsTrue, OnOk, OnErr, IfOk, IsOk, IsErr, is_err, ◌∷◌, ◌++◌, [], ◌+◌, ◌-◌, ◌≤◌, take, length, vec_len, vec_capacity, if◌then◌else◌};
ghost use Rattle.std.specs.Io.KnownBytes.{Appends};
ghost use Rattle.lg_base.specs.Faults.{raised};
ghost use Rattle.lg_base.specs.Sinks.{AppendsFront, HasWriteCause};
ghost use Rattle.lg_base.specs.MemSink.{next_call, put_fails, taken};

use crate::memory::NoMemory;
use crate::sinks::{Sink, SinkFault};
use std::alloc::Global;
use std::marker::Model;

/// A sink in memory with room for a number of bytes: a fake that tells what was written, and fails where it is told to.
#[derive(Drop)]
pub struct MemSink {
    bytes: Vec<u8>,
    left: usize,
    calls: u128,
    faults: u64,
    failing: Vec<u128>,
}

impl Model for MemSink {
    ghost use Rattle.lg_base.specs.MemSink.{SinkView, sink_code};
    ghost use Rattle.std.specs.Prelude.{◌≤◌, ◌+◌, vec_len, vec_capacity};

    ghost Value = { SinkView };

    ghost coded = { sink_code };

    ghost view = { λ m. record {
      bytes = m.bytes.items;
      left = m.left;
      calls = m.calls;
      faults = m.faults;
      failing = m.failing.items;
    } };

    // there is memory for the room that is left
    ghost invariant = { λ m. vec_len m.bytes + m.left ≤ vec_capacity m.bytes };
}

// Calls are counted up to here, one past each number of 64 bits.
const LAST_CALL: u128 = 1 << 64;

impl MemSink {
    /// An empty sink with room for `room` bytes, for which it takes the memory now.
    pub fn new(alloc: Global, room: u32) -> Result<MemSink, NoMemory>
        ensures { IfOk result (λ sink. sink ≡ record {
          bytes = [];
          left = room;
          calls = 0;
          faults = 0;
          failing = [];
        }) }
    {
        let bytes = Vec::with_capacity(alloc, room as usize)?;
        Ok(MemSink {
            bytes,
            left: room as usize,
            calls: 0,
            faults: 0,
            failing: Vec::new(alloc),
        })
    }

    /// Lists the call of `put` with this number to fail. Calls with bytes are numbered from 1.
    pub fn fail_at(&mut self, call: u64) -> Result<(), NoMemory>
        ensures ok { OnOk result (self.new ≡ record self.old { failing = self.old.failing ++ call ∷ [] }) }
        ensures err { OnErr result (self.new ≡ self.old) }
    {
        self.failing.push(u128::from(call))?;
        Ok(())
    }

    /// The bytes written so far.
    pub fn bytes(&self) -> &[u8]
        ensures { result.now ≡ self.now.bytes }
    {
        &self.bytes
    }
}

// Appends bytes for which there is room already.
fn append(buffer: &mut Vec<u8>, part: &[u8])
    requires { vec_len buffer.old + length part.now ≤ vec_capacity buffer.old }
    ensures items { buffer.new.items ≡ buffer.old.items ++ part.now }
    ensures len { vec_len buffer.new ≡ vec_len buffer.old + length part.now }
    ensures capacity { vec_capacity buffer.old ≤ vec_capacity buffer.new }
{
    match buffer.extend_from_slice(part) {
        Ok(()) => (),
        Err(_) => unreachable!(),
    }
}

impl Sink for MemSink {
    ghost written = { λ m. Some m.bytes };

    ghost faults = { λ m. m.faults };

    /// A listed call writes the first half of its bytes, rounded down, and any other call at fault all of them, in each
    /// case cut to the room that is left.
    fn put(&mut self, bytes: &[u8]) -> Result<(), SinkFault>
        ensures whole { OnOk result (self.new.bytes ≡ self.old.bytes ++ bytes.now) }
        ensures front { OnErr result (AppendsFront (Some self.old.bytes) (Some self.new.bytes) bytes.now) }
        ensures cause { HasWriteCause self.old.faults self.new.faults result }
        ensures nothing { bytes.now ≡ [] → IsOk result × (Some self.new.bytes ≡ Some self.old.bytes)
            × (self.new.faults ≡ self.old.faults) }

        // exactly
        ensures unchanged { bytes.now ≡ [] → self.new ≡ self.old }
        ensures fails { bytes.now ≢ [] → IsErr result ↔ IsTrue (put_fails self.old bytes.now) }
        ensures after { bytes.now ≢ [] → self.new ≡ record self.old {
          bytes = self.old.bytes ++ take (taken self.old bytes.now) bytes.now;
          left = self.old.left - taken self.old bytes.now;
          calls = next_call self.old;
          faults = (if is_err result then raised self.old.faults else self.old.faults);
        } }
    {
        if bytes.is_empty() {
            return Ok(());
        }
        self.calls = self.calls.saturating_add(1).min(LAST_CALL);
        let listed = self.failing.contains(&self.calls);
        let wanted = if listed { bytes.len() / 2 } else { bytes.len() };
        let count = wanted.min(self.left);
        append(&mut self.bytes, &bytes[..count]);
        let fits = bytes.len() <= self.left;
        self.left -= count;
        if fits && !listed {
            return Ok(());
        }
        self.faults = self.faults.saturating_add(1);
        Err(SinkFault)
    }
}

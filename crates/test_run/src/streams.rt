//! A source and a sink in memory of which one call carries only so many bytes. With one byte a
//! call, the number of a failing call is the place of its byte, whatever the pieces are that the
//! caller asks for.
ghost use Rattle.std.specs.Prelude.{Some};

use kr_base::{Failed, MemSink, MemSource, Sink, Source};

/// A source or a sink of which one call carries at most `step` bytes, and one at least.
#[derive(Drop)]
pub struct Stepped<S> {
    /// The source or the sink that its calls go to.
    pub inner: S,
    /// How many bytes one call carries at most.
    pub step: usize,
}

impl Source for Stepped<MemSource> {
    ghost left = { λ it. Some it.inner.bytes };

    ghost count = { λ it. it.inner.calls.faults };

    fn read(&mut self, into: &mut [u8]) -> Result<usize, Failed> {
        let most = into.len().min(self.step.max(1));
        self.inner.read(&mut into[..most])
    }

    fn faults(&self) -> u64 {
        self.inner.faults()
    }
}

impl Sink for Stepped<MemSink> {
    ghost held = { λ it. Some it.inner.bytes };

    ghost count = { λ it. it.inner.calls.faults };

    fn write(&mut self, bytes: &[u8]) -> Result<usize, Failed> {
        let most = bytes.len().min(self.step.max(1));
        self.inner.write(&bytes[..most])
    }

    fn faults(&self) -> u64 {
        self.inner.faults()
    }
}

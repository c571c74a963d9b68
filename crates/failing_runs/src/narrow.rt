//! Sources and sinks that move few bytes at a time.

use n32_outside::{Failed, OutFault, Sink, Source};

/// A source or a sink that moves at most so many bytes in a call, and at least one.
#[derive(Drop)]
pub(crate) struct Narrow<T: Drop> {
    pub(crate) inner: T,
    pub(crate) most: usize,
}

impl<T: Source + Drop> Source for Narrow<T> {
    ghost left = { λ narrow. T.left narrow.inner };

    ghost faults = { λ narrow. T.faults narrow.inner };

    fn read(&mut self, into: &mut [u8]) -> Result<usize, Failed> {
        let most = into.len().min(self.most.max(1));
        self.inner.read(&mut into[..most])
    }
}

impl<T: Sink + Drop> Sink for Narrow<T> {
    ghost written = { λ narrow. T.written narrow.inner };

    ghost faults = { λ narrow. T.faults narrow.inner };

    fn write(&mut self, piece: &[u8]) -> Result<usize, OutFault> {
        let most = piece.len().min(self.most.max(1));
        self.inner.write(&piece[..most])
    }
}

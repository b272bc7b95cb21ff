//! The streams on a side of what is asked for.
use std::alloc::{AllocError, Global};

/// The streams on a side, of which there may be more than one with `--origins`: they are read in
/// turn.
#[derive(Drop)]
pub struct Inputs<R> {
    pub(crate) first: R,
    pub(crate) more: Vec<R>,
    /// How many were begun to be read.
    pub(crate) begun: usize,
}

impl<R> Inputs<R> {
    /// One stream.
    pub fn new(alloc: Global, first: R) -> Inputs<R> {
        Inputs {
            first,
            more: Vec::new(alloc),
            begun: 0,
        }
    }

    /// The one that was read last.
    pub(crate) fn last_read(&self) -> &R {
        match self.begun.checked_sub(2) {
            Some(place) => self.more.get(place).unwrap_or(&self.first),
            None => &self.first,
        }
    }
}

impl<R: Drop> Inputs<R> {
    /// Adds one after these.
    pub fn push(&mut self, stream: R) -> Result<(), AllocError> {
        self.more.push(stream).map_err(AllocError::from)
    }
}

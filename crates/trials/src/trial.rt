//! A trial of one call: its words, and where its preparations end.
use crate::begin::{Begin, Stopped};
use crate::said::Said;
use crate::words::Words;
use std::alloc::Global;

/// How a trial ends.
pub type Ended = Result<Said, Stopped>;

/// The words of a call that aren't read yet, and where its preparations end.
#[derive(Drop)]
pub struct Trial<'a> {
    pub alloc: Global,
    pub words: Words<'a>,
    pub begin: Begin,
}

impl<'a> Trial<'a> {
    /// Of all words, the program's name before them.
    pub fn new(alloc: Global, words: &'a [String]) -> Result<Trial<'a>, Stopped> {
        let mut words = Words::new(words);
        let begin = Begin::new(&mut words)?;
        Ok(Trial {
            alloc,
            words,
            begin,
        })
    }

    /// The preparations are done, and the call begins.
    pub fn begin(&mut self) -> Result<(), Stopped> {
        self.begin.begin(self.alloc)
    }
}

/// What a call answered, and whether it wanted memory first and was then made again.
pub fn answered<T, E: PartialEq + Drop>(
    want: E,
    call: impl Fn() -> Result<T, E>,
) -> (bool, Result<T, E>) {
    match call() {
        Err(fault) if fault == want => (true, call()),
        answered => (false, answered),
    }
}

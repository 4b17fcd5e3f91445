//! The words that tell a call.
use crate::begin::Stopped;
use cg_cgroup::path::Path;
use cg_cgroup::process::Pid;
use cg_cgroup::user::User;
use std::alloc::Global;

/// The words that aren't read yet.
#[derive(Drop)]
pub struct Words<'a> {
    rest: &'a [String],
}

impl<'a> Words<'a> {
    /// All words but the first, which is the program's name.
    pub fn new(words: &'a [String]) -> Words<'a> {
        match words {
            [_, rest @ ..] => Words { rest },
            [] => Words { rest: words },
        }
    }

    pub fn next(&mut self) -> Result<&'a str, Stopped> {
        match self.rest {
            [first, rest @ ..] => {
                self.rest = rest;
                Ok(first.as_str())
            }
            [] => Err(Stopped::BadWords),
        }
    }

    /// Those that are left.
    pub fn rest(&self) -> &'a [String] {
        self.rest
    }

    pub fn number(&mut self) -> Result<usize, Stopped> {
        self.next()?.parse().map_err(|_| Stopped::BadWords)
    }

    pub fn id(&mut self) -> Result<u32, Stopped> {
        self.next()?.parse().map_err(|_| Stopped::BadWords)
    }

    pub fn pid(&mut self) -> Result<Pid, Stopped> {
        Pid::new(self.id()?).ok_or(Stopped::BadWords)
    }

    pub fn user(&mut self) -> Result<User, Stopped> {
        User::new(self.id()?).ok_or(Stopped::BadWords)
    }

    pub fn path(&mut self, alloc: Global) -> Result<Path, Stopped> {
        Ok(Path::parse(alloc, self.next()?)?)
    }
}

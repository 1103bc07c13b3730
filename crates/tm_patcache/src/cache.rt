//! A cache of programs that threads share.
ghost use Rattle.std.specs.Prelude.{◌<◌, ◌≤◌, ℕ, List, IfOk, IfSome};
ghost use Rattle.tm_patcache.specs.Programs.{IsProgramOf};

use crate::programs::Programs;
use std::alloc::Global;
use std::num::NonZeroUsize;
use std::sync::{Arc, Mutex};
use tm_defs::memory::OutOfMemory;
use tm_defs::texts::Name;
use tm_onig_parse::{ParseFault, parse};
use tm_onig_vm::program::{Prog, compile};

/// The program of a pattern's text; none where the text is unreadable.
pub fn program_of(alloc: Global, text: &Name) -> Result<Option<Arc<Prog>>, OutOfMemory>
    ensures { IfOk result (IsProgramOf text.now) }
{
    match parse(alloc, text) {
        Ok(pattern) => {
            let program = compile(alloc, &pattern)?;
            Ok(Some(Arc::new(alloc, program)?))
        }
        Err(ParseFault::Unreadable) => Ok(None),
        Err(ParseFault::OutOfMemory) => Err(OutOfMemory),
    }
}

/// One more owner of a program.
fn shared(program: &Option<Arc<Prog>>) -> Result<Option<Arc<Prog>>, OutOfMemory>
    ensures { (text : List ℕ) → IsProgramOf text program.now → IfOk result (IsProgramOf text) }
{
    match program {
        Some(program) => Ok(Some(Arc::clone(program)?)),
        None => Ok(None),
    }
}

/// Programs of the texts that were asked for last. A contract sees nothing of it: what a lock keeps is not known.
#[derive(Drop)]
pub struct PatCache {
    programs: Mutex<Programs>,
    alloc: Global,
}

impl PatCache {
    /// A cache for this many texts, from 1 to 4,096. It takes its memory from `alloc`, now and in each call.
    pub fn new(alloc: Global, capacity: u32) -> Result<Self, OutOfMemory>
        requires some { 0 < capacity }
        requires few { capacity ≤ 4096 }
    {
        let Some(capacity) = NonZeroUsize::new(capacity as usize) else {
            unreachable!()
        };
        let programs = Programs::new(alloc, capacity)?;
        Ok(PatCache {
            programs: Mutex::new(programs),
            alloc,
        })
    }

    /// The program of a pattern's text; none exactly where the text is unreadable. It waits for no other thread: the
    /// lock is only tried, for a look-up and to keep what was made, and where it is held the program is made anew.
    pub fn get(&self, text: &Name) -> Result<Option<Arc<Prog>>, OutOfMemory>
        ensures { IfOk result (IsProgramOf text.now) }
    {
        if let Some(program) = self.find(text)? {
            return Ok(program);
        }
        let program = program_of(self.alloc, text)?;
        // A program that cannot be kept is given all the same.
        let _kept = self.keep(text, &program);
        Ok(program)
    }

    /// What is kept of a text, if it is and the lock is free.
    fn find(&self, text: &Name) -> Result<Option<Option<Arc<Prog>>>, OutOfMemory>
        ensures { IfOk result (λ found. IfSome found (IsProgramOf text.now)) }
    {
        match self.programs.try_lock() {
            Some(mut programs) => programs.find(text),
            None => Ok(None),
        }
    }

    /// Keeps the program of a text, if the lock is free.
    fn keep(&self, text: &Name, program: &Option<Arc<Prog>>) -> Result<(), OutOfMemory>
        requires { IsProgramOf text.now program.now }
    {
        let text = text.copy()?;
        let program = shared(program)?;
        match self.programs.try_lock() {
            Some(mut programs) => programs.keep(text, program),
            None => Ok(()),
        }
    }
}

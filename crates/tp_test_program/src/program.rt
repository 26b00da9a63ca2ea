//! What makes the calls of a file: on command lines, or on scripts.

use crate::script::Script;
use crate::world::World;
use std::fs::File;
use std::rt::Files;
use tp_test_runner::{Calls, Fault, Words};

/// The worlds of both kinds of files.
#[derive(Drop)]
pub struct Program<'a, R> {
    commands: World<'a, R>,
    script: Script<'a, R>,
    // The rows of the file are on scripts.
    is_script: bool,
}

impl<'a, R: Files + AllocGlobal> Program<'a, R> {
    /// Nothing made yet.
    pub fn new(rt: &'a R) -> Program<'a, R> {
        Program {
            commands: World::new(rt),
            script: Script::new(rt),
            is_script: false,
        }
    }
}

impl<R: Files<File = File> + AllocGlobal + Clone + Drop> Calls for Program<'_, R> {
    fn begin(&mut self, file: &str) {
        self.is_script = file.starts_with("script_");
    }

    fn call(&mut self, words: &mut Words) -> Result<String, Fault> {
        if self.is_script {
            self.script.call(words)
        } else {
            self.commands.call(words)
        }
    }

    fn clear(&mut self) {
        self.script.clear();
        self.commands.clear();
    }

    fn is_partial(&self, _row: &str) -> bool {
        false
    }
}

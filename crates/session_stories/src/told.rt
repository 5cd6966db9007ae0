//! What is told of a story.
use crate::fault::Fault;
use std::alloc::{AllocError, Global};

/// How a story is told.
#[derive(Clone, Copy, PartialEq, Eq, Debug)]
enum Manner {
    /// Each line, and what came of it below.
    Whole,
    /// Nothing so far.
    Silent,
    /// What came of the steps alone, in one line.
    Brief,
}

/// What was told so far.
#[derive(Drop)]
pub struct Told {
    text: String,
    manner: Manner,
}

impl Told {
    /// Nothing was told, and each line will be.
    pub fn whole(alloc: Global) -> Told {
        Told {
            text: String::new(alloc),
            manner: Manner::Whole,
        }
    }

    /// Nothing is told before `begin`.
    pub fn silent(alloc: Global) -> Told {
        Told {
            text: String::new(alloc),
            manner: Manner::Silent,
        }
    }

    /// From here on it is told what comes of the steps.
    pub fn begin(&mut self) {
        self.manner = Manner::Brief;
    }

    pub fn text(&self) -> &str {
        &self.text
    }

    pub fn into_text(self) -> String {
        self.text
    }

    /// Tells a line of the story.
    pub fn line(&mut self, line: &str) -> Result<(), Fault> {
        if self.manner == Manner::Whole {
            self.text.push_str(line)?;
            self.text.push('\n')?;
        }
        Ok(())
    }

    /// Tells what came of a step.
    pub fn outcome(&mut self, outcome: &str) -> Result<(), Fault> {
        match self.manner {
            Manner::Silent => {}
            Manner::Brief => {
                if !self.text.is_empty() {
                    self.text.push_str("; ")?;
                }
                self.text.push_str(outcome)?;
            }
            Manner::Whole => {
                self.text.push_str("  ")?;
                self.text.push_str(outcome)?;
                self.text.push('\n')?;
            }
        }
        Ok(())
    }
}

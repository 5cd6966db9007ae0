//! A text of stories, line by line with what came of each.
use crate::failing::{Played, fail_each};
use crate::lines::{Call, Line, Part, Says};
use crate::looks::{join, look};
use crate::outcomes::Outcome;
use crate::reading::read_line;
use crate::stage::Stage;
use std::alloc::{AllocError, Global};

/// What is written, and whether it is a line that is no step.
#[derive(Drop)]
pub struct Told {
    pub text: String,
    pub refused: bool,
}

/// Tells all stories of a text, or the first line that is no step.
pub fn tell(alloc: Global, texts: &[String]) -> Result<Told, AllocError> {
    let mut lines = Vec::new(alloc);
    if !read_lines(alloc, texts, &mut lines)? {
        return refuse(alloc, texts, lines.len());
    }
    Ok(Told {
        text: tell_lines(alloc, &lines)?,
        refused: false,
    })
}

/// Reads the lines up to the first that is no step, and says whether there is none.
fn read_lines<'a>(
    alloc: Global,
    texts: &'a [String],
    lines: &mut Vec<Line<'a>>,
) -> Result<bool, AllocError> {
    let mut part = Part::Front;
    for text in texts {
        let text = text.as_str();
        match read_at(alloc, &mut part, text)? {
            Some(says) => lines.push(Line { text, says })?,
            None => return Ok(false),
        }
    }
    Ok(true)
}

fn tell_lines(alloc: Global, lines: &[Line]) -> Result<String, AllocError> {
    let mut teller = Teller::new(alloc);
    for line in lines {
        teller.tell(line)?;
    }
    teller.end_story()?;
    teller.flush()?;
    Ok(teller.take_text())
}

/// What a line says, if it may stand in this part.
fn read_at(alloc: Global, part: &mut Part, text: &str) -> Result<Option<Says>, AllocError> {
    let Some(says) = read_line(alloc, text)? else {
        return Ok(None);
    };
    let Some(after) = part.after(&says) else {
        return Ok(None);
    };
    *part = after;
    Ok(Some(says))
}

/// The line behind so many is no step.
fn refuse(alloc: Global, texts: &[String], before: usize) -> Result<Told, AllocError> {
    let text = match texts.get(before) {
        Some(text) => text.as_str(),
        None => "",
    };
    let number = before.saturating_add(1);
    Ok(Told {
        text: format!(in alloc; "line {number} is no step: {text}\n")?,
        refused: true,
    })
}

/// Who tells stories: what was told so far, and the story at hand.
#[derive(Drop)]
struct Teller<'a> {
    alloc: Global,
    text: String,
    /// Comments and empty lines that wait for what comes next.
    waiting: String,
    lines: Vec<Line<'a>>,
    outcomes: Vec<Outcome>,
    stage: Stage,
    /// Whether the story is told again for each call that may fail.
    each: bool,
}

impl<'a> Teller<'a> {
    fn new(alloc: Global) -> Teller<'a> {
        Teller {
            alloc,
            text: String::new(alloc),
            waiting: String::new(alloc),
            lines: Vec::new(alloc),
            outcomes: Vec::new(alloc),
            stage: Stage::new(alloc),
            each: false,
        }
    }

    fn tell(&mut self, line: &Line<'a>) -> Result<(), AllocError> {
        match line.says {
            Says::Nothing => {
                self.waiting.push_str(line.text)?;
                return self.waiting.push('\n');
            }
            Says::Title => self.end_story()?,
            _ => {}
        }
        self.flush()?;
        self.lines.push(*line)?;
        let outcome = self.play(&line.says)?;
        self.text.push_str(line.text)?;
        if let Some(outcome) = outcome {
            self.text.push_str(" -> ")?;
            self.text.push_str(&outcome)?;
        }
        self.text.push('\n')
    }

    /// Does what a line says, and gives what came of it.
    fn play(&mut self, says: &Says) -> Result<Option<String>, AllocError> {
        match *says {
            Says::Calls(times, call) => Ok(Some(self.make(times, call)?)),
            Says::Look(at) => Ok(Some(look(self.alloc, &self.stage, at)?)),
            Says::EachCallFails => {
                self.each = true;
                Ok(None)
            }
            _ => {
                self.stage.set(says)?;
                Ok(None)
            }
        }
    }

    /// Makes a call so many times. Equal outcomes in a row are told once.
    fn make(&mut self, times: u32, call: Call) -> Result<String, AllocError> {
        let mut text = String::new(self.alloc);
        let mut run: Option<(Outcome, u32)> = None;
        for _ in 0..times {
            let outcome = self.stage.make(call)?;
            run = match run {
                Some((same, times)) if same == outcome => Some((same, times.saturating_add(1))),
                _ => {
                    add_run(self.alloc, &mut text, run)?;
                    self.outcomes.push(outcome)?;
                    Some((outcome, 1))
                }
            };
        }
        add_run(self.alloc, &mut text, run)?;
        Ok(text)
    }

    /// Ends the story at hand, which is told again where each of its calls is to fail.
    fn end_story(&mut self) -> Result<(), AllocError> {
        if self.each {
            let played = Played {
                lines: &self.lines,
                outcomes: &self.outcomes,
                stage: &self.stage,
            };
            fail_each(self.alloc, &played, &mut self.text)?;
        }
        self.lines = Vec::new(self.alloc);
        self.outcomes = Vec::new(self.alloc);
        self.stage = Stage::new(self.alloc);
        self.each = false;
        Ok(())
    }

    /// Hands out what was told so far.
    fn take_text(&mut self) -> String {
        let text = String::new(self.alloc);
        std::mem::replace(&mut self.text, text)
    }

    /// Writes the lines that waited.
    fn flush(&mut self) -> Result<(), AllocError> {
        self.text.push_str(&self.waiting)?;
        self.waiting = String::new(self.alloc);
        Ok(())
    }
}

/// Adds an outcome that came so many times in a row.
fn add_run(
    alloc: Global,
    text: &mut String,
    run: Option<(Outcome, u32)>,
) -> Result<(), AllocError> {
    let Some((outcome, times)) = run else {
        return Ok(());
    };
    let part = if times == 1 {
        format!(in alloc; "{outcome}")?
    } else {
        format!(in alloc; "{times} times {outcome}")?
    };
    join(text, ", ", &part)
}

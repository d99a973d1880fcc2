//! Scripts: what the lines of case files have made so far.

use crate::cases::Cases;
use crate::settings::set;
use crate::texts::{Named, change, fill, push_bytes, push_line, text_of};
use crate::{Case, LineFault};
use std::alloc::Global;

/// Where lines of text go.
#[derive(Clone, Copy, Debug, PartialEq, Eq)]
enum Target {
    /// The input of the case.
    Input,
    /// The text that the case wants.
    Wanted,
    /// The last named text.
    Named,
}

/// The case that is being made, and the named texts, which the files behind may use too.
#[derive(Debug, Drop)]
pub struct Script {
    case: Option<Case>,
    texts: Vec<Named>,
    target: Target,
}

impl Script {
    /// No case and no text yet.
    pub fn new(alloc: Global) -> Script {
        Script {
            case: None,
            texts: Vec::new(alloc),
            target: Target::Named,
        }
    }

    /// The cases of a file's text. They are handed out one at a time, so that whoever answers them needs to lend this crate
    /// nothing.
    pub fn cases<'a>(&'a mut self, alloc: Global, text: &'a str) -> Cases<'a> {
        Cases::new(alloc, self, text)
    }

    /// Does what a line says. The line `run` hands out the case that was made.
    pub(crate) fn read(&mut self, alloc: Global, line: &str) -> Result<Option<Case>, LineFault> {
        if line.is_empty() || line.starts_with('#') {
            return Ok(None);
        }
        if line == "run" {
            return self.case.take().ok_or(LineFault::NoCase).map(Some);
        }
        match line.strip_prefix('|') {
            Some(text) => push_line(self.buffer()?, text)?,
            None => self.make(alloc, line)?,
        }
        Ok(None)
    }

    /// Makes a text, a case or a part of one, as the line's first word says.
    fn make(&mut self, alloc: Global, line: &str) -> Result<(), LineFault> {
        let (word, rest) = line.split_once(' ').unwrap_or((line, ""));
        match word {
            "text" => self.name_text(alloc, rest),
            "case" => self.begin(alloc, rest),
            "in" => self.aim(Target::Input),
            "out" => self.aim(Target::Wanted),
            "use" => self.use_text(alloc, rest),
            "bytes" => push_bytes(alloc, self.buffer()?, rest),
            "fill" => fill(alloc, self.buffer()?, rest),
            "cut" => self.cut(),
            "change" => change(alloc, self.buffer()?, rest),
            _ => self.set(alloc, word, rest),
        }
    }

    /// Begins a text, which the lines that follow are.
    fn name_text(&mut self, alloc: Global, name: &str) -> Result<(), LineFault> {
        self.texts.push(Named {
            name: name.to_string(alloc)?,
            text: Vec::new(alloc),
        })?;
        self.target = Target::Named;
        Ok(())
    }

    /// Begins a case, whose input the lines that follow are.
    fn begin(&mut self, alloc: Global, name: &str) -> Result<(), LineFault> {
        self.end()?;
        self.case = Some(Case::new(alloc, name)?);
        self.target = Target::Input;
        Ok(())
    }

    /// Ends the case that was begun and not run, if there is one.
    pub(crate) fn end(&mut self) -> Result<(), LineFault> {
        match self.case.take() {
            Some(_) => Err(LineFault::NotRun),
            None => Ok(()),
        }
    }

    fn aim(&mut self, target: Target) -> Result<(), LineFault> {
        self.target = target;
        Ok(())
    }

    /// The text that is being made.
    fn buffer(&mut self) -> Result<&mut Vec<u8>, LineFault> {
        match (self.target, &mut self.case) {
            (Target::Input, Some(case)) => Ok(&mut case.input),
            (Target::Wanted, Some(case)) => Ok(&mut case.wanted.text),
            (Target::Named, _) => match self.texts.last_mut() {
                Some(named) => Ok(&mut named.text),
                None => Err(LineFault::NoText),
            },
            _ => Err(LineFault::NoCase),
        }
    }

    /// Appends a named text.
    fn use_text(&mut self, alloc: Global, name: &str) -> Result<(), LineFault> {
        let text = text_of(alloc, &self.texts, name)?;
        self.buffer()?.extend_from_slice(&text)?;
        Ok(())
    }

    /// Takes the last byte away.
    fn cut(&mut self) -> Result<(), LineFault> {
        match self.buffer()?.pop() {
            Some(_) => Ok(()),
            None => Err(LineFault::NoText),
        }
    }

    /// Sets the words, a stream or the end of the case.
    fn set(&mut self, alloc: Global, word: &str, rest: &str) -> Result<(), LineFault> {
        match &mut self.case {
            Some(case) => set(alloc, case, word, rest),
            None => Err(LineFault::NoCase),
        }
    }
}

// Commands over files in memory, and what they leave.
use crate::left::{Left, text_of};
use crate::verdict::verdict_on;
use anyhow::Result;
use rsim_io::{MemShelf, MemSink, Shelf, Sink, SureShelf, SureSink};
use rsim_top::{Refusal, run_command};
use std::alloc::Global;

/// A command, and the files that it finds.
#[derive(Clone, Copy)]
pub struct Command<'a> {
    /// The words behind the program's name, parted by spaces; `''` is the empty word.
    pub words: &'a str,
    /// What stands under the name `config`.
    pub config: &'a [u8],
    /// What stands under the name `exe`.
    pub exe: &'a [u8],
    /// The name under which the order is looked for.
    pub order: &'a str,
}

impl Command<'_> {
    /// What it leaves where no call fails.
    pub fn left(self, alloc: Global) -> Result<Left> {
        self.left_by_failing(alloc, Vec::new(alloc), Vec::new(alloc))
    }

    /// The same. Where it is something else over a shelf and a sink that cannot fail, the answer says so.
    pub fn left_both_ways(self, alloc: Global) -> Result<Left> {
        let mut left = self.left(alloc)?;
        let found = left.text(alloc)?;
        let surely = self.left_surely(alloc)?.text(alloc)?;
        if surely != found {
            left.answer = format!(in alloc;
                "otherwise where nothing can fail: {surely}\n{}",
                left.answer
            )?;
        }
        Ok(left)
    }

    /// What it leaves where the calls of the shelf and of the sink with these numbers fail.
    pub fn left_by_failing(
        self,
        alloc: Global,
        of_shelf: Vec<u32>,
        of_sink: Vec<u32>,
    ) -> Result<Left> {
        let mut shelf = MemShelf::make(alloc, of_shelf)?;
        shelf.set("config", self.config)?;
        shelf.set("exe", self.exe)?;
        let mut out = MemSink::make(alloc, of_sink)?;
        let answer = self.answer(alloc, &mut shelf, &mut out)?;
        let keeps = self.keeps(shelf.file("config"), shelf.file("exe"));
        self.left_with(alloc, answer, keeps, out.bytes(), shelf.file(self.order))
    }

    // What it leaves over a shelf and a sink none of whose calls can fail.
    fn left_surely(self, alloc: Global) -> Result<Left> {
        let mut shelf = SureShelf::make(alloc)?;
        shelf.set("config", self.config)?;
        shelf.set("exe", self.exe)?;
        let mut out = SureSink::make(alloc)?;
        let answer = self.answer(alloc, &mut shelf, &mut out)?;
        let keeps = self.keeps(shelf.file("config"), shelf.file("exe"));
        self.left_with(alloc, answer, keeps, out.bytes(), shelf.file(self.order))
    }

    // `done`, the cycles and the retired steps, or the exit status and the text of the refusal.
    fn answer<S: Shelf, K: Sink>(
        self,
        alloc: Global,
        shelf: &mut S,
        out: &mut K,
    ) -> Result<String> {
        let words = words(alloc, self.words)?;
        match run_command(alloc, &words, shelf, out) {
            Ok(done) => Ok(format!(in alloc; "done {} {}", done.cycles, done.retired)?),
            Err(refusal) => refused(alloc, refusal),
        }
    }

    // Whether these are the configuration and the executable, where the order was not to replace them.
    fn keeps(self, config: Option<&[u8]>, exe: Option<&[u8]>) -> bool {
        config == Some(self.config) && (exe == Some(self.exe) || self.order == "exe")
    }

    fn left_with(
        self,
        alloc: Global,
        answer: String,
        keeps: bool,
        report: &[u8],
        order: Option<&[u8]>,
    ) -> Result<Left> {
        let change = if keeps {
            ""
        } else {
            ", and a file was changed"
        };
        let verdict = match order {
            Some(order) => verdict_on(alloc, self.exe, order)?,
            None => String::from_str(alloc, "none")?,
        };
        Ok(Left {
            answer: format!(in alloc; "{answer}{change}")?,
            report: String::from_str(alloc, text_of(report))?,
            order: String::from_str(alloc, order.map_or("none", text_of))?,
            verdict,
        })
    }
}

// Words parted by spaces; `''` is the empty word.
fn words(alloc: Global, line: &str) -> Result<Vec<String>> {
    let mut words = Vec::new(alloc);
    for word in line.split_whitespace() {
        let word = if word == "''" { "" } else { word };
        words.push(String::from_str(alloc, word)?)?;
    }
    Ok(words)
}

/// The exit status and the text of a refusal.
pub fn refused(alloc: Global, refusal: Refusal) -> Result<String> {
    Ok(format!(in alloc; "{} {refusal}", refusal.code())?)
}

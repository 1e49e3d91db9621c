// What a command finds outside: the words of its command line, its files, and the calls that fail.
use anyhow::Result;
use rsim_io::{MemShelf, MemSink};
use rsim_top::{Refusal, Verdict, check_command};
use std::alloc::{AllocError, Global};
use std::str;

#[derive(Drop)]
pub struct Outside {
    pub words: String,
    pub order: String,
    /// The numbers of the shelf's calls that fail, from 0.
    pub failing_shelf: Vec<u32>,
    pub failing_sink: Vec<u32>,
}

impl Outside {
    /// An empty order, and no call that fails.
    pub fn new(alloc: Global) -> Result<Outside, AllocError> {
        Ok(Outside {
            words: String::from_str(alloc, "exe order")?,
            order: String::new(alloc),
            failing_shelf: Vec::new(alloc),
            failing_sink: Vec::new(alloc),
        })
    }

    /// Checks the order for an executable, and tells what the program prints: the verdict, or the exit status and the
    /// refusal.
    pub fn check(&self, alloc: Global, executable: &[u8]) -> Result<String> {
        let mut shelf = MemShelf::make(alloc, copied(alloc, &self.failing_shelf)?)?;
        shelf.set("exe", executable)?;
        shelf.set("order", self.order.as_bytes())?;
        let mut told = MemSink::make(alloc, copied(alloc, &self.failing_sink)?)?;
        let answer = check_command(
            alloc,
            &split(alloc, self.words.as_str())?,
            &mut shelf,
            &mut told,
        );
        if shelf.file("exe") != Some(executable)
            || shelf.file("order") != Some(self.order.as_bytes())
        {
            anyhow::bail!("a file has changed");
        }
        shown(alloc, answer, told.bytes())
    }
}

// What stands on standard output after a verdict, without the line feed; else the refusal and what was told before it.
fn shown(alloc: Global, answer: Result<Verdict, Refusal>, told: &[u8]) -> Result<String> {
    let told = str::from_utf8(told)?;
    match answer {
        Ok(verdict) => match told.strip_suffix('\n') {
            Some(line) => Ok(format!(in alloc; "{line} ({})", verdict.code())?),
            None => anyhow::bail!("the verdict has no line: {told}"),
        },
        Err(refusal) => Ok(format!(in alloc; "{told}{} {refusal}", refusal.code())?),
    }
}

fn copied(alloc: Global, numbers: &Vec<u32>) -> Result<Vec<u32>, AllocError> {
    let mut copy = Vec::new(alloc);
    for number in numbers.iter() {
        copy.push(*number)?;
    }
    Ok(copy)
}

// The words of a command line.
fn split(alloc: Global, line: &str) -> Result<Vec<String>, AllocError> {
    let mut words = Vec::new(alloc);
    for word in line.split_whitespace() {
        words.push(String::from_str(alloc, word)?)?;
    }
    Ok(words)
}

use crate::ran::Ran;
use anyhow::Context;
use sky_io::{MemSink, MemSource};
use sky_run::run_main;
use std::alloc::{AllocError, Global};
use trials::{first_number, no_command, ok};

/// A script, and runs of the program on it.
#[derive(Drop)]
pub struct Runs {
    script: Vec<u8>,
    // What each `@` of the script is replaced by.
    repeated: String,
}

impl Runs {
    pub fn new(alloc: Global) -> Runs {
        Runs {
            script: Vec::new(alloc),
            repeated: String::new(alloc),
        }
    }

    pub fn answer(&mut self, alloc: Global, command: &str, words: &str) -> anyhow::Result<String> {
        match command {
            "script" => self.take_script(alloc, "~", words),
            "days" => self.take_script(alloc, "a: clock +1day\n", words),
            "updates" => self.take_script(alloc, "b: update t 1 set n=1\n", words),
            "inserts" => self.take_inserts(alloc, words),
            "pgqrun" => self.run(alloc, words),
            _ => Err(no_command()),
        }
    }

    // The script of the rows below, in which an `@` is replaced by so many letters or lines.
    fn take_script(&mut self, alloc: Global, one: &str, words: &str) -> anyhow::Result<String> {
        let (count, script) = first_number(words)?;
        self.repeated = one.repeat(alloc, count.max(1) as usize)?;
        self.take(alloc, script)
    }

    // The same, in which it is replaced by lines that insert so many rows.
    fn take_inserts(&mut self, alloc: Global, words: &str) -> anyhow::Result<String> {
        let (count, script) = first_number(words)?;
        self.repeated = String::new(alloc);
        for key in 0..count {
            let line = format!(in alloc; "a: insert t {key} 0\n")?;
            self.repeated.push_str(line.as_str())?;
        }
        self.take(alloc, script)
    }

    fn take(&mut self, alloc: Global, script: &str) -> anyhow::Result<String> {
        let script = script.replace(alloc, "@", self.repeated.as_str())?;
        let script = script.replace(alloc, "\\n", "\n")?;
        self.script = bytes_of(alloc, script.as_str())?;
        ok(alloc)
    }

    // The status, the output and the complaint of a run with these words. The last words say how it is set up.
    fn run(&self, alloc: Global, words: &str) -> anyhow::Result<String> {
        let most = set(words, "last=", u32::MAX)? as usize;
        self.told(alloc, &self.ran(alloc, words)?, most)
    }

    // The same of what a run gave. In the output what was repeated is an `@` again, and at most so many bytes are shown,
    // the last ones.
    fn told(&self, alloc: Global, ran: &Ran, most: usize) -> anyhow::Result<String> {
        let err = str::from_utf8(ran.err.bytes())?;
        let out = str::from_utf8(ran.out.bytes())?;
        let out = out.replace(alloc, self.repeated.as_str(), "@")?;
        let out = end_of(out.as_str(), most)?;
        Ok(format!(in alloc; "{} {out:?} {err:?}", ran.status)?)
    }

    fn ran(&self, alloc: Global, words: &str) -> anyhow::Result<Ran> {
        let mut src = self.source(alloc, words)?;
        let mut out = sink(alloc, set(words, "write=", 0)?)?;
        let mut err = sink(alloc, set(words, "report=", 0)?)?;
        let words = program_words(alloc, words)?;
        let status = run_main(alloc, &words, &mut src, &mut out, &mut err);
        Ok(Ran { status, out, err })
    }

    fn source(&self, alloc: Global, words: &str) -> anyhow::Result<MemSource> {
        let most = set(words, "most=", 65_536)? as usize;
        let failing = Vec::from_array(alloc, [u64::from(set(words, "read=", 0)?)])?;
        let script = Vec::from_slice(alloc, &self.script)?;
        Ok(MemSource::new(script, most.max(1), failing))
    }
}

// The last bytes of a text, at most so many.
fn end_of(text: &str, most: usize) -> anyhow::Result<&str> {
    text.get(text.len().saturating_sub(most)..)
        .context("part of a character")
}

// A byte for each character: the one of its number.
fn bytes_of(alloc: Global, text: &str) -> anyhow::Result<Vec<u8>> {
    let mut bytes = Vec::new(alloc);
    for character in text.chars() {
        bytes.push(u8::try_from(u32::from(character))?)?;
    }
    Ok(bytes)
}

// A sink whose write of this number fails.
fn sink(alloc: Global, failing: u32) -> Result<MemSink, AllocError> {
    Ok(MemSink::new(alloc, Vec::from_array(alloc, [u64::from(failing)])?))
}

// The number that a word such as `most=10` sets, if there is one.
fn set(words: &str, name: &str, otherwise: u32) -> anyhow::Result<u32> {
    match words.split_once(name) {
        Some((_, words)) => Ok(first_number(words)?.0),
        None => Ok(otherwise),
    }
}

// The words without `=`. One of two quotes is empty.
fn program_words(alloc: Global, words: &str) -> anyhow::Result<Vec<String>> {
    let mut found = Vec::new(alloc);
    for word in words.split_whitespace() {
        if !word.contains('=') {
            found.push(String::from_str(alloc, word.trim_matches('\''))?)?;
        }
    }
    Ok(found)
}

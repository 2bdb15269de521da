use sky_io::{MemSink, MemSource, Sink, SinkFault, Source, StdSink, StdSource, write_all};
use std::alloc::{AllocError, Global};
use std::fmt::Debug;
use std::io;
use std::io::{ErrorKind, Read, Write};
use trials::{first_word, no_command};

// What writes answer.
type Answers = Vec<Result<(), SinkFault>>;

/// What a source or a sink gives or takes, call by call.
pub fn answer(alloc: Global, command: &str, words: &str) -> anyhow::Result<String> {
    match command {
        "source" => read_memory(alloc, words, 2),
        "wide_source" => read_memory(alloc, words, 9),
        "std_source" => reads(alloc, StdSource::new(words.as_bytes())),
        "frail_source" => reads(alloc, StdSource::new(Frail { reads: 0 })),
        _ => answer_of_sink(alloc, command, words),
    }
}

fn answer_of_sink(alloc: Global, command: &str, words: &str) -> anyhow::Result<String> {
    match command {
        "sink" => write_memory(alloc, words),
        "std_sink" => write_list(alloc, words),
        "narrow_sink" => write_narrowly(alloc, words),
        _ => Err(no_command()),
    }
}

// A source that gives at most so many bytes a read, and whose second read fails.
fn read_memory(alloc: Global, words: &str, most: usize) -> anyhow::Result<String> {
    let bytes = Vec::from_slice(alloc, words.as_bytes())?;
    let failing = Vec::from_array(alloc, [2])?;
    reads(alloc, MemSource::new(bytes, most.max(1), failing))
}

// A sink whose second write fails.
fn write_memory(alloc: Global, words: &str) -> anyhow::Result<String> {
    let failing = Vec::from_array(alloc, [2])?;
    let mut sink = MemSink::new(alloc, failing);
    let answers = writes(alloc, &mut sink, words)?;
    told(alloc, &answers, sink.bytes())
}

// A sink over a list of bytes.
fn write_list(alloc: Global, words: &str) -> anyhow::Result<String> {
    let mut bytes = Vec::new(alloc);
    let mut sink = StdSink::new(&mut bytes);
    let answers = writes(alloc, &mut sink, words)?;
    told(alloc, &answers, &bytes)
}

// A sink over a writer that takes as many bytes a write as the first word has, and whose second flush fails. It also
// answers how often it was flushed.
fn write_narrowly(alloc: Global, words: &str) -> anyhow::Result<String> {
    let room = first_word(words).0.len();
    let mut narrow = Narrow { room, flushes: 0 };
    let mut sink = StdSink::new(&mut narrow);
    let answers = writes(alloc, &mut sink, words)?;
    Ok(format!(in alloc; "{answers:?} {}", narrow.flushes)?)
}

// What four reads with room for four bytes answer, and the bytes that they give.
fn reads<S: Source + Drop>(alloc: Global, mut source: S) -> anyhow::Result<String> {
    let mut answers = Vec::new(alloc);
    let mut bytes = Vec::new(alloc);
    for _ in 0..4 {
        let mut room = [0; 4];
        let read = source.read(&mut room);
        if let Ok(count) = read {
            bytes.extend_from_slice(&room[..count])?;
        }
        answers.push(read)?;
    }
    told(alloc, &answers, &bytes)
}

// Answers, and the bytes that were given or taken.
fn told<T: Debug>(alloc: Global, answers: &T, bytes: &[u8]) -> anyhow::Result<String> {
    let text = str::from_utf8(bytes)?;
    Ok(format!(in alloc; "{answers:?} {text:?}")?)
}

// What the writes of the words answer.
fn writes<S: Sink>(alloc: Global, sink: &mut S, words: &str) -> Result<Answers, AllocError> {
    let mut answers = Vec::new(alloc);
    for piece in words.split(' ') {
        answers.push(write_all(sink, piece.as_bytes()))?;
    }
    Ok(answers)
}

// Its first read is interrupted by a signal, its second gives a byte, and then it fails.
#[derive(Drop)]
struct Frail {
    reads: u8,
}

impl Read for Frail {
    fn read(&mut self, buf: &mut [u8]) -> io::Result<usize> {
        self.reads = self.reads.saturating_add(1);
        if self.reads == 1 {
            return Err(io::Error::from(ErrorKind::Interrupted));
        }
        if self.reads > 2 || buf.is_empty() {
            return Err(io::Error::from(ErrorKind::Other));
        }
        buf[0] = b'x';
        Ok(1)
    }
}

// Takes at most `room` bytes a write, and its second flush fails.
#[derive(Drop)]
struct Narrow {
    room: usize,
    flushes: u8,
}

impl Write for Narrow {
    fn write(&mut self, buf: &[u8]) -> io::Result<usize> {
        Ok(buf.len().min(self.room))
    }

    fn flush(&mut self) -> io::Result<()> {
        self.flushes = self.flushes.saturating_add(1);
        if self.flushes == 2 {
            return Err(io::Error::from(ErrorKind::Other));
        }
        Ok(())
    }
}

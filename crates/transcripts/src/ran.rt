ghost use Rattle.std.specs.Prelude.{IfOk};
ghost use Rattle.transcripts.specs.Shown.{Shown};

use sky_io::{MemSink, MemSource};
use sky_run::run_main;
use std::alloc::{AllocError, Global};

/// The most bytes that a read gives.
const MOST: usize = 65_536;

/// The result of running a script.
#[derive(Drop)]
pub struct Ran {
    pub status: u8,
    pub out: MemSink,
    pub err: MemSink,
}

/// Runs a script that is in memory, as `pgqrun run` runs one on standard input.
pub fn run_script(alloc: Global, script: Vec<u8>) -> Result<Ran, AllocError>
    ensures { IfOk result (λ ran. Shown script.items ran.status ran.out.held ran.err.held) }
{
    let words = Vec::from_array(alloc, [String::from_str(alloc, "run")?])?;
    let mut src = MemSource::new(script, MOST, Vec::new(alloc));
    let mut out = MemSink::new(alloc, Vec::new(alloc));
    let mut err = MemSink::new(alloc, Vec::new(alloc));
    let status = run_main(alloc, &words, &mut src, &mut out, &mut err);
    Ok(Ran { status, out, err })
}

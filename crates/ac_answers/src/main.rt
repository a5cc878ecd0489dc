//! A driver for single calls: each line of standard input is an ask in JSON, and each gets one line of compact JSON.
//!
//! It serves tests, and whoever holds a layer against another implementation. No promise of the product rests on it.
#![tactic(auto)]

mod ask;

use std::io;
use std::io::{BufRead, BufReader, BufWriter, Write};

fn main(rt: HostRuntime) -> anyhow::Result<()> {
    let alloc = rt.alloc();
    let mut out = BufWriter::new(alloc, io::writer(&rt))?;
    for line in BufReader::new(alloc, rt.reader())?.split(alloc, b'\n') {
        let line = line?;
        let text = ask::answer(alloc, line.as_slice())?.to_string(alloc)?;
        out.write_all(text.as_bytes())?;
        out.write_all(b"\n")?;
    }
    out.flush()?;
    Ok(())
}

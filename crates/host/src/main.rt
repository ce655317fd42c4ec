// The frame tool: reads a form a line from the standard input and answers each with a line.
#![tactic(auto)]

use std::io;
use std::io::{BufRead, BufReader, Write};

fn main(rt: HostRuntime) -> io::Result<()> {
    let heap = rt.alloc();
    let mut out = rt.stdout();
    for line in BufReader::new(heap, rt.stdin())?.split(heap, b'\n') {
        let mut answer = script::reply(heap, line?.as_slice())?;
        answer.push(b'\n')?;
        out.write_all(answer.as_slice())?;
    }
    Ok(())
}

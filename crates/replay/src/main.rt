// Replays a journal from standard input: a line for each of its lines, then the sheet, then a summary.
#![tactic(auto)]

use journal::session::Session;
use std::io;
use std::io::{Read, Write};

// How many bytes are read at a time.
const CHUNK: usize = 65536;

fn main(rt: HostRuntime) -> io::Result<()> {
    let mut session = Session::new();
    let mut bytes = vec![in rt.alloc(); 0u8; CHUNK]?;
    let mut out = String::new(rt.alloc());
    // A counted loop, so that it is proved to end. The library's own loops over input are no plainer here: one gives whole lines, and a rule of the project keeps memory from growing with a line, and one gives single bytes, each a result to be taken apart.
    for _ in 0..u64::MAX {
        let count = rt.stdin().read(&mut bytes)?;
        if count == 0 {
            break;
        }
        session.feed(&bytes[0..count], &mut out)?;
        rt.stdout().write_all(out.as_bytes())?;
        out.clear();
    }
    session.finish(&mut out)?;
    rt.stdout().write_all(out.as_bytes())
}

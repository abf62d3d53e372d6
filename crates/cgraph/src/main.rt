// Serves a commit history: requests on standard input, one a line, and an answer to each on standard output.
#![tactic(auto)]

mod ask;
mod buffers;
mod failure;
mod files;
mod input;
mod open;
mod serve;
mod show;

use input::Requests;
use labels::Blank;
use open::run_kind;
use serve::serve;
use std::io;

fn main(rt: HostRuntime) -> io::Result<()> {
    let mut requests = Requests::new(&rt)?;
    let mut next = serve::<Blank>(&rt, &mut requests, &mut None)?;
    // a count, since the input may never end
    for _ in 0..u64::MAX {
        let Some(opening) = next else {
            break;
        };
        next = run_kind(&rt, &mut requests, opening)?;
    }
    Ok(())
}

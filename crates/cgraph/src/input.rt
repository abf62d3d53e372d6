// Requests from standard input.
ghost use Rattle.std.specs.Prelude.{◌≤◌, length};

use protocol::{LONGEST_LINE, ParseError, Request, parse};
use std::alloc::Global;
use std::io;
use std::io::{BufRead, BufReader, ErrorKind, Stdin};

#[derive(Drop)]
pub struct Requests {
    reader: BufReader<Stdin>,
    line: Vec<u8>,
    is_too_long: bool,
    heap: Global,
}

// How many bytes there are up to the line break and with it; all, where there is none.
fn through_break(held: &[u8]) -> usize
    ensures { result ≤ length held.now }
{
    match held.iter().position(|b| *b == b'\n') {
        Some(end) => end + 1,
        None => held.len(),
    }
}

impl Requests {
    pub fn new(rt: &HostRuntime) -> io::Result<Requests> {
        Ok(Requests {
            reader: BufReader::new(rt.alloc(), rt.stdin())?,
            line: Vec::new(rt.alloc()),
            is_too_long: false,
            heap: rt.alloc(),
        })
    }

    // Takes what the reader holds of the line, and answers whether the line or the input has ended. A line that is too long is passed over. Not by
    // `read_until`: over a limited reader it costs half as much again on short lines, and keeps more of a line that is too long.
    fn take_part(&mut self) -> io::Result<bool> {
        let held = match self.reader.fill_buf() {
            Ok(held) => held,
            Err(e) if e.kind() == ErrorKind::Interrupted => return Ok(false),
            Err(e) => return Err(e),
        };
        let size = through_break(held);
        let has_ended = size == 0 || held[size - 1] == b'\n';
        if self.line.len().saturating_add(size) > LONGEST_LINE {
            self.is_too_long = true;
        } else {
            self.line.extend_from_slice(&held[..size])?;
        }
        self.reader.consume(size);
        Ok(has_ended)
    }

    fn read_line(&mut self) -> io::Result<()> {
        self.line.clear();
        self.is_too_long = false;
        // a count, since the line may never end
        for _ in 0..u64::MAX {
            if self.take_part()? {
                break;
            }
        }
        Ok(())
    }

    // What the next line that asks for something says, or nothing at the end of the input. It is no iterator, since a `for` asks of one that it ends.
    pub fn next(&mut self) -> io::Result<Option<Result<Request, ParseError>>> {
        // a count, since the input may never end
        for _ in 0..u64::MAX {
            self.read_line()?;
            if self.is_too_long {
                return Ok(Some(Err(ParseError::TooLong)));
            }
            if self.line.is_empty() {
                break;
            }
            let Ok(text) = std::str::from_utf8(self.line.as_slice()) else {
                return Ok(Some(Err(ParseError::NotText)));
            };
            let request = parse(self.heap, text);
            if let Ok(Request::Nothing) = request {
                continue;
            }
            return Ok(Some(request));
        }
        Ok(None)
    }
}

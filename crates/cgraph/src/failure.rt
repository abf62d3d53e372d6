// Why a request has no answer.
use history::Refusal;
use protocol::ParseError;
use std::alloc::AllocError;
use std::io;

#[derive(Drop)]
pub enum Failure {
    Unreadable(ParseError),
    NoHistory,
    Refused(Refusal),
    // no memory for the lists of a question
    NoLists,
    // no memory for a file's bytes
    NoBuffer,
    FileNotWritten,
    // the answer could not be written
    Output(io::Error),
}

impl Failure {
    // Tells it in a line. No `Display`: where answers cannot be written the error goes on to the caller, and there is no line.
    pub fn tell(self, rt: &HostRuntime) -> io::Result<()> {
        match self {
            Failure::Unreadable(e) => println!(rt; "error {e}"),
            Failure::NoHistory => rt.println("error no history is open"),
            Failure::Refused(refusal) => {
                let number = refusal.number();
                println!(rt; "refused {number} {refusal}")
            }
            Failure::NoLists => {
                rt.println("error there is no memory for the lists of the question")
            }
            Failure::NoBuffer => rt.println("error there is no memory for the file"),
            Failure::FileNotWritten => rt.println("error the file cannot be written"),
            Failure::Output(e) => Err(e),
        }
    }
}

impl From<Refusal> for Failure {
    fn from(refusal: Refusal) -> Failure {
        Failure::Refused(refusal)
    }
}

impl From<AllocError> for Failure {
    fn from(_e: AllocError) -> Failure {
        Failure::NoLists
    }
}

impl From<io::Error> for Failure {
    fn from(e: io::Error) -> Failure {
        Failure::Output(e)
    }
}

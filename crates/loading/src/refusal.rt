// Why a file cannot be loaded.
ghost use Rattle.std.specs.Prelude.{◌≡◌};
ghost use Rattle.loading.specs.Refusals.{load_refusal_number};
ghost use Rattle.loading.specs.declared.refusal.LoadRefusal.TheVariants.{FileFault, Refused};

use history::{LoadFault, Refusal};
use std::fmt;

#[derive(Clone, Copy, PartialEq, Eq, Debug)]
pub enum LoadRefusal {
    // the history holds a commit
    HistoryNotEmpty,
    // the file is not one that a history has
    FileFault(LoadFault),
    // there is no room for the file's commits or their parents, or the queue or the places are too short
    Refused(Refusal),
}

impl LoadRefusal {
    // The number by which a refusal is told to other programs.
    pub fn number(self) -> u32
        ensures { result ≡ load_refusal_number self }
    {
        match self {
            LoadRefusal::HistoryNotEmpty => 10,
            LoadRefusal::FileFault(fault) => fault.cause(),
            LoadRefusal::Refused(refusal) => refusal.number(),
        }
    }
}

impl From<LoadFault> for LoadRefusal {
    ghost from_gives = { λ fault refusal. refusal ≡ FileFault fault };

    fn from(told: LoadFault) -> LoadRefusal {
        LoadRefusal::FileFault(told)
    }
}

impl From<Refusal> for LoadRefusal {
    ghost from_gives = { λ want refusal. refusal ≡ Refused want };

    fn from(want: Refusal) -> LoadRefusal {
        LoadRefusal::Refused(want)
    }
}

impl fmt::Display for LoadRefusal {
    fn fmt<W: fmt::Write>(&self, f: &mut fmt::Formatter<W>) -> fmt::Result {
        match *self {
            LoadRefusal::HistoryNotEmpty => f.write_str("the history holds a commit already"),
            LoadRefusal::FileFault(fault) => {
                write!(
                    f,
                    "{fault}, layer {} place {}",
                    fault.layer(),
                    fault.place()
                )
            }
            LoadRefusal::Refused(refusal) => write!(f, "{refusal}"),
        }
    }
}

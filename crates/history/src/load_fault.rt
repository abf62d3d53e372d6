// What is wrong with a file, by the layer that found it; each case holds the byte place, from 0, of the first byte of what is wrong.
ghost use Rattle.std.specs.Prelude.{◌≡◌};
ghost use Rattle.history.specs.FaultNumbers.{fault_layer, fault_cause, fault_place};
ghost use Rattle.history.specs.declared.load_fault.LoadFault.TheVariants.{Container, Chunk, History};

use std::fmt;

// Layer 1: the header and the table of chunks.
#[derive(Clone, Copy, PartialEq, Eq, Debug)]
pub enum ContainerFault {
    // fewer bytes than any file has: the place is the file's length
    TooShort(usize),
    WrongHeader(usize),
    // a name or a place in the table of chunks
    WrongContents(usize),
}

// Layer 2: what the chunks hold.
#[derive(Clone, Copy, PartialEq, Eq, Debug)]
pub enum ChunkFault {
    WrongFanOut(usize),
    // an id that is not greater than the one before
    UnorderedId(usize),
    // a parent word or an entry of EDGE
    WrongParent(usize),
}

// Layer 3: the history that the chunks describe.
#[derive(Clone, Copy, PartialEq, Eq, Debug)]
pub enum HistoryFault {
    WrongLevel(usize),
}

#[derive(Clone, Copy, PartialEq, Eq, Debug)]
pub enum LoadFault {
    Container(ContainerFault),
    Chunk(ChunkFault),
    History(HistoryFault),
}

impl From<ContainerFault> for LoadFault {
    ghost from_gives = { λ fault e. e ≡ Container fault };

    fn from(fault: ContainerFault) -> LoadFault {
        LoadFault::Container(fault)
    }
}

impl From<ChunkFault> for LoadFault {
    ghost from_gives = { λ fault e. e ≡ Chunk fault };

    fn from(fault: ChunkFault) -> LoadFault {
        LoadFault::Chunk(fault)
    }
}

impl From<HistoryFault> for LoadFault {
    ghost from_gives = { λ fault e. e ≡ History fault };

    fn from(fault: HistoryFault) -> LoadFault {
        LoadFault::History(fault)
    }
}

impl LoadFault {
    // Other programs are told the layer by its number.
    pub fn layer(self) -> u32
        ensures { result ≡ fault_layer self }
    {
        match self {
            LoadFault::Container(_) => 1,
            LoadFault::Chunk(_) => 2,
            LoadFault::History(_) => 3,
        }
    }

    // The enum is the kind of fault; other programs are told its number.
    pub fn cause(self) -> u32
        ensures { result ≡ fault_cause self }
    {
        match self {
            LoadFault::Container(_) => 11,
            LoadFault::Chunk(ChunkFault::WrongFanOut(_) | ChunkFault::UnorderedId(_)) => 12,
            LoadFault::Chunk(ChunkFault::WrongParent(_)) => 13,
            LoadFault::History(_) => 14,
        }
    }

    pub fn place(self) -> usize
        ensures { result ≡ fault_place self }
    {
        match self {
            LoadFault::Container(
                ContainerFault::TooShort(place)
                | ContainerFault::WrongHeader(place)
                | ContainerFault::WrongContents(place),
            ) => place,
            LoadFault::Chunk(
                ChunkFault::WrongFanOut(place)
                | ChunkFault::UnorderedId(place)
                | ChunkFault::WrongParent(place),
            ) => place,
            LoadFault::History(HistoryFault::WrongLevel(place)) => place,
        }
    }
}

impl fmt::Display for LoadFault {
    fn fmt<W: fmt::Write>(&self, f: &mut fmt::Formatter<W>) -> fmt::Result {
        let words = match *self {
            LoadFault::Container(ContainerFault::TooShort(_)) => "the file is too short",
            LoadFault::Container(ContainerFault::WrongHeader(_)) => "the header is wrong",
            LoadFault::Container(ContainerFault::WrongContents(_)) => {
                "the table of chunks is wrong"
            }
            LoadFault::Chunk(ChunkFault::WrongFanOut(_)) => "a fan-out count is wrong",
            LoadFault::Chunk(ChunkFault::UnorderedId(_)) =>
                "an id is not greater than the one before",
            LoadFault::Chunk(ChunkFault::WrongParent(_)) => "a parent is wrong",
            LoadFault::History(HistoryFault::WrongLevel(_)) => "a level is wrong",
        };
        f.write_str(words)
    }
}

// The container of a file: its header and its table of chunks.
ghost use Rattle.std.specs.Prelude.{◌≡◌, ◌+◌, ◌-◌, ◌*◌, ◌/◌, ◌≤◌, length, cond, Some, None};
ghost use Rattle.std.specs.Option.{option_map};
ghost use Rattle.graph_reader.specs.Bytes.{word_at, long_at, chunks_begin, ids_begin, told_count, data_end, told_edges};
ghost use Rattle.graph_reader.specs.Faults.{first_failing, stepped_by, header_tests, contents_tests, three_tests, four_tests, end_tests, container_fault};
ghost use Rattle.history.specs.Model.{refused_with};
ghost use Rattle.history.specs.declared.load_fault.ContainerFault.TheVariants.{WrongHeader, WrongContents};

use history::ContainerFault;
use history::ContainerFault::{TooShort, WrongContents, WrongHeader};

// the names of the chunks as words, written out: a constant cannot call from_be_bytes
const OIDF: u32 = 0x4f49_4446;

const OIDL: u32 = 0x4f49_444c;

const CDAT: u32 = 0x4344_4154;

const EDGE: u32 = 0x4544_4745;

pub fn word(file: &[u8], at: usize) -> u32
    requires { at + 4 ≤ length file.now }
    ensures { result ≡ word_at file.now at }
{
    u32::from_be_bytes(*file[at..].first_chunk().unwrap())
}

pub fn long_word(file: &[u8], at: usize) -> u64
    requires { at + 8 ≤ length file.now }
    ensures { result ≡ long_at file.now at }
{
    u64::from_be_bytes(*file[at..].first_chunk().unwrap())
}

// Refuses a file that fails a test.
fn expect(passed: bool, fault: ContainerFault) -> Result<(), ContainerFault>
    ensures { refused_with result ≡ cond passed None (Some fault) }
{
    if passed { Ok(()) } else { Err(fault) }
}

// Whether `to` lies a whole number of steps behind `from`, from `least` to `most` of them.
fn is_stepped(step: u64, least: u64, most: u64, from: u64, to: u64) -> bool
    requires { 1 ≤ step }
    ensures { result ≡ stepped_by step least most from to }
{
    if to < from {
        return false;
    }
    let apart = to - from;
    apart % step == 0 && apart / step >= least && apart / step <= most
}

// The header and the table of chunks of a file that is long enough to hold them.
#[derive(Clone, Copy)]
pub struct Front<'f> {
    pub file: &'f [u8],
    ghost long: { 1080 ≤ length file.now },
}

impl Front<'_> {
    // The header: "CGPH", 1, 1, three or four chunks, 0.
    fn check_header(&self) -> Result<(), ContainerFault>
        ensures { refused_with result ≡ option_map WrongHeader (first_failing (header_tests self.now.file.now)) }
    {
        let file = self.file;
        expect(file[0] == b'C', WrongHeader(0))?;
        expect(file[1] == b'G', WrongHeader(1))?;
        expect(file[2] == b'P', WrongHeader(2))?;
        expect(file[3] == b'H', WrongHeader(3))?;
        expect(file[4] == 1, WrongHeader(4))?;
        expect(file[5] == 1, WrongHeader(5))?;
        expect(file[6] == 3 || file[6] == 4, WrongHeader(6))?;
        expect(file[7] == 0, WrongHeader(7))
    }

    pub fn chunks_begin(&self) -> u64
        ensures low { result ≤ 3080 }
        ensures value { result ≡ chunks_begin self.now.file.now }
    {
        8 + 12 * (self.file[6] as u64 + 1)
    }

    pub fn ids_begin(&self) -> u64
        ensures low { result ≤ 4104 }
        ensures value { result ≡ ids_begin self.now.file.now }
    {
        self.chunks_begin() + 1024
    }

    // How many commits the place of CDAT tells of.
    pub fn told_count(&self) -> u64
        ensures { result ≡ told_count self.now.file.now }
    {
        long_word(self.file, 36).saturating_sub(self.ids_begin()) / 20
    }

    // The table of chunks up to the place of CDAT.
    fn check_contents(&self) -> Result<(), ContainerFault>
        ensures { refused_with result ≡ option_map WrongContents (first_failing (contents_tests self.now.file.now)) }
    {
        let file = self.file;
        let ids = self.ids_begin();
        expect(word(file, 8) == OIDF, WrongContents(8))?;
        expect(
            long_word(file, 12) == self.chunks_begin(),
            WrongContents(12),
        )?;
        expect(word(file, 20) == OIDL, WrongContents(20))?;
        expect(long_word(file, 24) == ids, WrongContents(24))?;
        expect(word(file, 32) == CDAT, WrongContents(32))?;
        let stepped = is_stepped(20, 0, 65_536, ids, long_word(file, 36));
        expect(stepped, WrongContents(36))
    }
}

// A front that tells of no more commits than a file may hold.
#[derive(Clone, Copy)]
pub struct Counted<'f> {
    pub front: Front<'f>,
    ghost few: { told_count front.file.now ≤ 65536 },
}

impl Counted<'_> {
    fn data_end(&self) -> u64
        ensures { result ≡ data_end self.now.front.file.now }
    {
        self.front.ids_begin() + 56 * self.front.told_count()
    }

    // How many extra edges the file's end tells of.
    pub fn told_edges(&self) -> u64
        ensures { result ≡ told_edges self.now.front.file.now }
    {
        let file = self.front.file;
        if file[6] == 3 {
            0
        } else {
            long_word(file, 60).saturating_sub(self.data_end()) / 4
        }
    }

    // The end of the table where there are three chunks.
    fn check_end_of_three(&self) -> Result<(), ContainerFault>
        ensures { refused_with result ≡ option_map WrongContents (first_failing (three_tests self.now.front.file.now)) }
    {
        let file = self.front.file;
        let end = long_word(file, 48);
        expect(word(file, 44) == 0, WrongContents(44))?;
        expect(end == self.data_end(), WrongContents(48))?;
        expect(end == file.len() as u64, WrongContents(48))
    }

    // The end of the table where there are four.
    fn check_end_of_four(&self) -> Result<(), ContainerFault>
        ensures { refused_with result ≡ option_map WrongContents (first_failing (four_tests self.now.front.file.now)) }
    {
        let file = self.front.file;
        let rows_end = self.data_end();
        let end = long_word(file, 60);
        expect(word(file, 44) == EDGE, WrongContents(44))?;
        expect(long_word(file, 48) == rows_end, WrongContents(48))?;
        expect(word(file, 56) == 0, WrongContents(56))?;
        let stepped = is_stepped(4, 2, 262_144, rows_end, end);
        expect(stepped, WrongContents(60))?;
        expect(end == file.len() as u64, WrongContents(60))
    }

    // The end of the table.
    fn check_end(&self) -> Result<(), ContainerFault>
        ensures { refused_with result ≡ option_map WrongContents (first_failing (end_tests self.now.front.file.now)) }
    {
        if self.front.file[6] == 3 {
            self.check_end_of_three()
        } else {
            self.check_end_of_four()
        }
    }
}

// Refuses a file for the first fault of its container.
pub fn check_container(file: &[u8]) -> Result<(), ContainerFault>
    ensures { refused_with result ≡ container_fault file.now }
{
    if file.len() < 1080 {
        return Err(TooShort(file.len()));
    }
    let front = Front { file };
    front.check_header()?;
    front.check_contents()?;
    Counted { front }.check_end()
}

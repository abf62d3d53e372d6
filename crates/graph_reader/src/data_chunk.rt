// The chunk CDAT: a row for each commit. Its parts are read one by one, as the tests need them, so each asks that the row is there.
ghost use Rattle.std.specs.Prelude.{◌≡◌, ◌+◌, ◌*◌, ◌%◌, ◌≤◌, length};
ghost use Rattle.graph_reader.specs.Bytes.{row_at};
ghost use Rattle.graph_reader.specs.Levels.{row_level};

use crate::chunk::Chunk;
use history::ObjectId;

pub type DataChunk<'f> = Chunk<'f, 36>;

impl Chunk<'_, 36> {
    pub fn tree(&self, position: usize) -> ObjectId
        requires { 36 * position + 36 ≤ length self.now.bytes.now }
        ensures { result.bytes ≡ (row_at self.now.bytes.now position).tree }
    {
        self.front_id(position)
    }

    // The first parent word.
    pub fn first(&self, position: usize) -> u32
        requires { 36 * position + 36 ≤ length self.now.bytes.now }
        ensures { result ≡ (row_at self.now.bytes.now position).first }
    {
        self.word(position, 20)
    }

    // The second.
    pub fn second(&self, position: usize) -> u32
        requires { 36 * position + 36 ≤ length self.now.bytes.now }
        ensures { result ≡ (row_at self.now.bytes.now position).second }
    {
        self.word(position, 24)
    }

    pub fn level(&self, position: usize) -> u32
        requires { 36 * position + 36 ≤ length self.now.bytes.now }
        ensures small { result ≤ 1073741823 }
        ensures value { result ≡ row_level (row_at self.now.bytes.now position) }
    {
        self.word(position, 28) / 4
    }

    pub fn date(&self, position: usize) -> u64
        requires { 36 * position + 36 ≤ length self.now.bytes.now }
        ensures { result ≡ (row_at self.now.bytes.now position).generation % 4 * 4294967296 + (row_at self.now.bytes.now position).low }
    {
        self.word(position, 28) as u64 % 4 * 4_294_967_296 + self.word(position, 32) as u64
    }
}

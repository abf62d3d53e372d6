// The chunk EDGE: words for the commits with more than two parents.
ghost use Rattle.std.specs.Prelude.{◌≡◌, ◌+◌, ◌*◌, ◌≤◌, length};
ghost use Rattle.graph_reader.specs.Bytes.{word_in};

use crate::chunk::Chunk;

pub type EdgeChunk<'f> = Chunk<'f, 4>;

impl Chunk<'_, 4> {
    pub fn entry(&self, i: usize) -> u32
        requires { 4 * i + 4 ≤ length self.now.bytes.now }
        ensures { result ≡ word_in self.now.bytes.now i }
    {
        self.word(i, 0)
    }
}

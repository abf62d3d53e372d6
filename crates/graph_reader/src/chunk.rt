// A chunk of a file: rows of `WIDTH` bytes each.
ghost use Rattle.std.specs.Prelude.{◌≡◌, ◌+◌, ◌*◌, ◌<◌, ◌≤◌, length, take, drop};
ghost use Rattle.graph_reader.specs.Bytes.{word_at};

use crate::container::word;
use history::ObjectId;

// The part of a file that the chunk takes, with its byte place.
#[derive(Clone, Copy)]
pub struct Chunk<'f, const WIDTH: usize> {
    pub bytes: &'f [u8],
    pub place: usize,
}

impl<const WIDTH: usize> Chunk<'_, WIDTH> {
    // The byte place of a row.
    pub fn place_of(&self, row: usize) -> usize
        requires { self.now.place + WIDTH * row < 4294967296 }
        ensures { result ≡ self.now.place + WIDTH * row }
    {
        self.place + WIDTH * row
    }

    // The word that begins `at` bytes into a row.
    pub fn word(&self, row: usize, at: usize) -> u32
        requires { WIDTH * row + at + 4 ≤ length self.now.bytes.now }
        ensures { result ≡ word_at self.now.bytes.now (WIDTH * row + at) }
    {
        word(self.bytes, WIDTH * row + at)
    }

    // The id at the front of a row.
    pub fn front_id(&self, row: usize) -> ObjectId
        requires { WIDTH * row + 20 ≤ length self.now.bytes.now }
        ensures { result.bytes ≡ take 20 (drop (WIDTH * row) self.now.bytes.now) }
    {
        ObjectId {
            bytes: *self.bytes[WIDTH * row..].first_chunk().unwrap(),
        }
    }
}

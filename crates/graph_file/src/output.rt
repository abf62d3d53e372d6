// A buffer that is filled from its beginning, one part behind another. The history is not in it: the front is written from sizes alone.
ghost use Rattle.std.specs.Prelude.{◌≡◌, ◌%◌, length};
ghost use Rattle.graph_file.specs.Outputs.{Moved, Puts, Room};
ghost use Rattle.graph_file.specs.Words.{word, long_word};

#[derive(Drop)]
pub(crate) struct Output<'b> {
    bytes: &'b mut [u8],
    // where the next part goes: the slice stays whole, so that whoever lent it knows all of it afterwards
    at: usize,
}

// The low 32 bits.
pub(crate) fn low_word(x: u64) -> u32
    ensures { result ≡ x % 4294967296 }
{
    (x % 4_294_967_296) as u32
}

impl<'b> Output<'b> {
    pub(crate) fn over(bytes: &'b mut [u8]) -> Output<'b>
        ensures same_reference { result.bytes.ghost_name ≡ bytes.entry.ghost_name }
        ensures holds { result.bytes.now ≡ bytes.old }
        ensures begins { result.at ≡ 0 }
    {
        Output { bytes, at: 0 }
    }

    pub(crate) fn put_bytes(&mut self, bytes: &[u8])
        requires { Room self.old (length bytes.now) }
        ensures moved { Moved self.old self.new (length bytes.now) }
        ensures puts { Puts self.old self.new bytes.now }
    {
        let buffer = &mut *self.bytes;
        let end = self.at + bytes.len();
        buffer[self.at..end].copy_from_slice(bytes);
        self.at = end;
    }

    // The highest byte first.
    pub(crate) fn put_word(&mut self, x: u32)
        requires { Room self.old 4 }
        ensures moved { Moved self.old self.new 4 }
        ensures puts { Puts self.old self.new (word x) }
    {
        self.put_bytes(&x.to_be_bytes());
    }

    pub(crate) fn put_long(&mut self, x: usize)
        requires { Room self.old 8 }
        ensures moved { Moved self.old self.new 8 }
        ensures puts { Puts self.old self.new (long_word x) }
    {
        self.put_bytes(&(x as u64).to_be_bytes());
    }
}

// The chunk OIDF: how many ids have a first byte of at most each value.
ghost use Rattle.std.specs.Prelude.{◌≡◌, ℕ, ◌<◌, ◌≤◌, List, length, slice_index};
ghost use Rattle.std.specs.Option.{option_map};
ghost use Rattle.graph_reader.specs.ChunkFaults.{fan_out_tests};
ghost use Rattle.graph_reader.specs.Faults.{first_failing};
ghost use Rattle.graph_file.specs.Layout.{fan_out};
ghost use Rattle.history.specs.Model.{refused_with};
ghost use Rattle.history.specs.declared.load_fault.ChunkFault.TheVariants.{WrongFanOut};

use crate::chunk::Chunk;
use history::ChunkFault;

pub type FanOutChunk<'f> = Chunk<'f, 4>;

impl Chunk<'_, 4> {
    // Refuses a word that is not the count it should be.
    #[tactic(auto, using(crate::proofs::CountedTests::fan_out_passes, crate::proofs::CountedTests::fan_out_fails, crate::proofs::CountedTests::fan_out_end))]
    pub fn check_counts(&self, counts: [u32; 256]) -> Result<(), ChunkFault>
        requires within { 1024 ≤ length self.now.bytes.now }
        requires place { self.now.place ≤ 2000000 }
        ensures { (ids : List (List ℕ)) → ((i : ℕ) → i < 256 → slice_index counts i ≡ fan_out ids i) → refused_with result ≡ option_map WrongFanOut (first_failing (fan_out_tests self.now.bytes.now self.now.place ids)) }
    {
        // by index: it finds the word in the bytes, and the place of a fault
        for (i, count) in counts.iter().enumerate() {
            if self.entry(i) != *count {
                return Err(ChunkFault::WrongFanOut(self.place_of(i)));
            }
        }
        Ok(())
    }
}

// The chunk OIDL: ids in rising order.
ghost use Rattle.std.specs.Prelude.{◌≡◌, ℕ, ◌+◌, ◌-◌, ◌*◌, ◌<◌, ◌≤◌, length, slice_index_or, []};
ghost use Rattle.std.specs.Option.{option_map};
ghost use Rattle.graph_reader.specs.ChunkFaults.{order_tests};
ghost use Rattle.graph_reader.specs.Bytes.{id_at, ids_in};
ghost use Rattle.graph_reader.specs.Faults.{first_failing};
ghost use Rattle.history.specs.Ids.{precedes};
ghost use Rattle.history.specs.Model.{refused_with};
ghost use Rattle.history.specs.declared.load_fault.ChunkFault.TheVariants.{UnorderedId};

use crate::chunk::Chunk;
use history::{ChunkFault, ObjectId};

pub type IdChunk<'f> = Chunk<'f, 20>;

// Whether the second of two ids is greater than the first.
fn rises(pair: &[[u8; 20]]) -> bool
    requires { length pair.now ≡ 2 }
    ensures { result ≡ precedes (slice_index_or pair.now 0 []) (slice_index_or pair.now 1 []) }
{
    let (first, second) = (pair[0], pair[1]);
    ObjectId { bytes: first }.is_before(ObjectId { bytes: second })
}

impl Chunk<'_, 20> {
    pub fn ids(&self) -> &[[u8; 20]]
        ensures { (count : ℕ) → length self.now.bytes.now ≡ 20 * count → result.now ≡ ids_in self.now.bytes.now count }
    {
        self.bytes.as_chunks().0
    }

    pub fn id(&self, position: usize) -> ObjectId
        requires { 20 * position + 20 ≤ length self.now.bytes.now }
        ensures { result.bytes ≡ id_at self.now.bytes.now position }
    {
        self.front_id(position)
    }

    // Refuses an id that is not greater than the one before.
    pub fn check_order(&self, count: usize) -> Result<(), ChunkFault>
        requires within { length self.now.bytes.now ≡ 20 * count }
        requires place { self.now.place ≤ 2000000 }
        requires few { count ≤ 65536 }
        ensures { refused_with result ≡ option_map UnorderedId (first_failing (order_tests self.now.bytes.now self.now.place count)) }
    {
        for (p, pair) in self.ids()[..count].windows(2).enumerate() {
            if !rises(pair) {
                return Err(ChunkFault::UnorderedId(self.place_of(p + 1)));
            }
        }
        Ok(())
    }
}

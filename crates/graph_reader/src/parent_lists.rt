// Making and reading a list of parents. Apart from the type: the definition that the clauses cite speaks of it.
ghost use Rattle.std.specs.Prelude.{◌≡◌, ◌+◌, ◌<◌, ◌≤◌, [], ◌∷◌, ◌++◌, length};
ghost use Rattle.graph_reader.specs.Holding.{listed};

use crate::parent_list::ParentList;

impl ParentList {
    pub(crate) fn new() -> ParentList
        ensures size { result.size ≡ 0 }
        ensures list { listed result ≡ [] }
    {
        ParentList {
            positions: [0; 64],
            size: 0,
        }
    }

    pub(crate) fn push(&mut self, position: u32)
        requires { self.old.size < 64 }
        ensures size { self.new.size ≡ self.old.size + 1 }
        ensures list { listed self.new ≡ listed self.old ++ (position ∷ []) }
    {
        self.positions[self.size] = position;
        self.size += 1;
    }

    pub fn as_slice(&self) -> &[u32]
        ensures value { result.now ≡ listed self.now }
        ensures fits { length result.now ≤ 64 }
    {
        &self.positions[..self.size]
    }

    pub fn len(&self) -> usize
        ensures value { result ≡ length (listed self.now) }
        ensures fits { result ≤ 64 }
    {
        self.as_slice().len()
    }
}

impl Default for ParentList {
    ghost use Rattle.std.specs.Prelude.{◌≡◌, []};
    ghost use Rattle.graph_reader.specs.Holding.{listed};

    ghost is_default = { λ l. listed l ≡ [] };

    fn default() -> ParentList {
        ParentList::new()
    }
}

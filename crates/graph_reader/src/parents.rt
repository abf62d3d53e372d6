// The parents that a file names. Positions are taken bare, each with its bound: they come from counting, and from words of the file.
ghost use Rattle.std.specs.Prelude.{◌≡◌, ℕ, ◌+◌, ◌-◌, ◌*◌, ◌<◌, ◌≤◌, cond, List, [], Some, None, Ok, length, nat_lt, slice_index_or};
ghost use Rattle.std.specs.Option.{option_map};
ghost use Rattle.graph_file.specs.ParentWords.{mark};
ghost use Rattle.graph_reader.specs.Holding.{listed};
ghost use Rattle.graph_reader.specs.PartParents.{as_read, as_fault, behind, part_row, list_at, others_at, parents_at, parents_of_all};
ghost use Rattle.graph_reader.specs.Verdict.{failed_at};
ghost use Rattle.history.specs.Model.{refused_with};
ghost use Rattle.history.specs.declared.load_fault.ChunkFault.TheVariants.{WrongParent};

use crate::parent_list::ParentList;
use crate::parts::Parts;
use graph_file::{MARK, NO_PARENT, extra_edges};
use history::ChunkFault;
use history::ChunkFault::WrongParent;

impl Parts<'_> {
    // Adds the list that begins with the word of index `next`. By index: it counts the words of the list, and gives the byte place of a fault.
    fn add_listed(&self, mut list: ParentList, next: usize) -> Result<ParentList, ChunkFault>
        requires short { list.size ≤ 1 }
        requires within { next ≤ self.now.entries }
        ensures { as_read result ≡ as_fault (behind (listed list) (list_at self.now next)) }
    {
        for k in 0..63 {
            let place = self.edges.place_of(next + k);
            let Some(word) = self.entry(next + k) else {
                return Err(WrongParent(place));
            };
            if (word as usize) < self.count {
                list.push(word);
            } else if k > 0 && word >= MARK && ((word - MARK) as usize) < self.count {
                list.push(word - MARK);
                return Ok(list);
            } else {
                return Err(WrongParent(place));
            }
        }
        Err(WrongParent(self.edges.place_of(next + 63)))
    }

    // Adds the parents behind the first.
    fn add_others(
        &self,
        mut list: ParentList,
        position: usize,
        next: usize,
    ) -> Result<ParentList, ChunkFault>
        requires short { list.size ≤ 1 }
        requires held { position < self.now.count }
        requires within { next ≤ 4294967296 }
        ensures { as_read result ≡ as_fault (behind (listed list) (others_at self.now position next)) }
    {
        let second = self.rows.second(position);
        if second == NO_PARENT {
            return Ok(list);
        }
        if (second as usize) < self.count {
            list.push(second);
            return Ok(list);
        }
        if second as usize == MARK as usize + next && next < self.entries {
            return self.add_listed(list, next);
        }
        Err(WrongParent(self.rows.place_of(position) + 24))
    }

    // The parents of the commit at a position, where `next` words of EDGE came before its own.
    fn parents_by(&self, position: usize, next: usize) -> Result<ParentList, ChunkFault>
        requires held { position < self.now.count }
        requires within { next ≤ 4294967296 }
        ensures { as_read result ≡ as_fault (parents_at self.now position next) }
    {
        let mut list = ParentList::new();
        let first = self.rows.first(position);
        if first == NO_PARENT {
            if self.rows.second(position) == NO_PARENT {
                return Ok(list);
            }
            return Err(WrongParent(self.rows.place_of(position) + 24));
        }
        if first as usize >= self.count {
            return Err(WrongParent(self.rows.place_of(position) + 20));
        }
        list.push(first);
        self.add_others(list, position, next)
    }

    // Refuses a word of EDGE that no commit uses, where the commits use `next` words.
    fn check_used_up(&self, next: usize) -> Result<(), ChunkFault>
        ensures { refused_with result ≡ option_map WrongParent (cond (nat_lt next self.now.entries) (Some (self.now.edges.place + 4 * next)) None) }
    {
        if next < self.entries {
            return Err(WrongParent(self.edges.place_of(next)));
        }
        Ok(())
    }

    // Refuses a word that names no parent that it may, and a word of EDGE that no commit uses. By position: it names the commit, and each step goes on
    // in EDGE where the last one stopped.
    #[tactic(auto, using(crate::proofs::ParentPass::onward_fault, crate::proofs::ParentPass::onward_more, crate::proofs::ParentPass::onward_rest, graph_file::proofs::Sources::extra_bound))]
    pub fn check_parents(&self) -> Result<(), ChunkFault>
        ensures { refused_with result ≡ option_map WrongParent (failed_at (parents_of_all self.now)) }
    {
        let mut next = 0;
        for position in 0..self.count {
            let list = self.parents_by(position, next)?;
            next += extra_edges(list.as_slice());
        }
        self.check_used_up(next)
    }

    // Where the words of EDGE of a commit with more than two parents begin.
    fn start(&self, position: usize) -> usize
        requires { position < self.now.count }
        ensures few { result ≤ 4294967296 }
        ensures value { result ≡ (part_row self.now position).second - mark }
    {
        self.rows.second(position).saturating_sub(MARK) as usize
    }

    // The parents of one commit of a file whose parents are right.
    pub fn parents_of(&self, position: usize) -> ParentList
        requires { position < self.now.count }
        ensures { (all : List (List ℕ)) → parents_of_all self.now ≡ Ok all → listed result ≡ slice_index_or all position [] }
    {
        self.parents_by(position, self.start(position))
            .unwrap_or_default()
    }
}

// The commits of a file without fault, by file position. Each is read alone: a load queues by level before it reads the rest.
ghost use Rattle.std.specs.Prelude.{◌≡◌, ◌<◌, ◌≤◌};
ghost use Rattle.graph_reader.specs.Bytes.{told_count};
ghost use Rattle.graph_reader.specs.FileCommits.{file_commit, file_level};
ghost use Rattle.graph_reader.specs.Holding.{listed};
ghost use Rattle.graph_reader.specs.Verdict.{total_of, parents_in};

use crate::file::GraphFile;
use crate::parent_list::ParentList;
use history::ObjectId;

impl GraphFile<'_> {
    // How many commits there are.
    pub fn count(&self) -> usize
        ensures { result ≡ told_count self.now.file.now }
    {
        self.parts.count
    }

    pub fn id(&self, position: usize) -> ObjectId
        requires { position < told_count self.now.file.now }
        ensures { result.bytes ≡ (file_commit self.now.file.now position).id }
    {
        self.parts.ids.id(position)
    }

    pub fn tree(&self, position: usize) -> ObjectId
        requires { position < told_count self.now.file.now }
        ensures { result.bytes ≡ (file_commit self.now.file.now position).tree }
    {
        self.parts.rows.tree(position)
    }

    pub fn date(&self, position: usize) -> u64
        requires { position < told_count self.now.file.now }
        ensures { result ≡ (file_commit self.now.file.now position).date }
    {
        self.parts.rows.date(position)
    }

    pub fn level(&self, position: usize) -> u32
        requires { position < told_count self.now.file.now }
        ensures { result ≡ file_level self.now.file.now position }
    {
        self.parts.rows.level(position)
    }

    // The parents, as file positions.
    pub fn parents(&self, position: usize) -> ParentList
        requires { position < told_count self.now.file.now }
        ensures { listed result ≡ (file_commit self.now.file.now position).parents }
    {
        self.parts.parents_of(position)
    }

    // How many parents the commits list in all.
    pub fn parent_total(&self) -> usize
        ensures few { result ≤ 4194304 }
        ensures told { result ≡ total_of (parents_in self.now.file.now) }
    {
        (0..self.count())
            .map(|position| self.parents(position).len())
            .sum()
    }
}

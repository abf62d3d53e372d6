// The levels that a file gives.
ghost use Rattle.std.specs.Prelude.{◌≡◌, ℕ, All, ◌+◌, ◌<◌, ◌≤◌, List, None, Ok};
ghost use Rattle.std.specs.Option.{option_map};
ghost use Rattle.graph_reader.specs.Faults.{first_failing};
ghost use Rattle.graph_reader.specs.Levels.{row_level, levels_in, level_by, level_tests};
ghost use Rattle.graph_reader.specs.PartParents.{part_row, part_rows, parents_of_all};
ghost use Rattle.graph_reader.specs.Verdict.{failed_at};
ghost use Rattle.history.specs.Model.{refused_with};
ghost use Rattle.history.specs.declared.load_fault.HistoryFault.TheVariants.{WrongLevel};

use crate::parts::Parts;
use history::HistoryFault;

impl Parts<'_> {
    // The least level of a commit with this parent.
    fn above(&self, parent: u32) -> u32
        requires { parent < self.now.count }
        ensures small { result ≤ 1073741824 }
        ensures value { result ≡ row_level (part_row self.now parent) + 1 }
    {
        self.rows.level(parent as usize) + 1
    }

    // The level that the rule gives a commit with these parents.
    fn level_over(&self, parents: &[u32]) -> u32
        requires { All (λ n. n < self.now.count) parents.now }
        ensures { result ≡ level_by (levels_in (part_rows self.now)) parents.now }
    {
        parents
            .iter()
            .map(|parent| self.above(*parent))
            .fold(1, u32::max)
    }

    // Refuses a level that is not what the rule gives, in a file whose parents are right. By position: it names the commit, its parents and its level.
    #[tactic(auto, using(crate::proofs::LevelSteps::level_passes, crate::proofs::LevelSteps::level_fails, crate::proofs::LevelSteps::levels_end))]
    pub fn check_levels(&self) -> Result<(), HistoryFault>
        requires { failed_at (parents_of_all self.now) ≡ None }
        ensures { (all : List (List ℕ)) → parents_of_all self.now ≡ Ok all → refused_with result ≡ option_map WrongLevel (first_failing (level_tests self.now.rows.place (levels_in (part_rows self.now)) all)) }
    {
        for position in 0..self.count {
            let parents = self.parents_of(position);
            if self.rows.level(position) != self.level_over(parents.as_slice()) {
                let row = self.rows.place_of(position);
                return Err(HistoryFault::WrongLevel(row + 28));
            }
        }
        Ok(())
    }
}

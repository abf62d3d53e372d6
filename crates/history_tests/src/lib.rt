// Tests of a history at the bounds of its tables.
#![tactic(auto)]

#[cfg(test)]
mod tests {
    use history::{CommitGraph, CommitRow, ObjectId};
    use labels::{Level, Stepped};
    use std::alloc::{AllocError, Global};
    use std::process::Abort;
    use std::test::Fail;

    type Levels = Stepped<Level>;

    // As the program has them, which a test cannot use: a program is no library.
    #[derive(Drop)]
    struct Tables {
        rows: Vec<CommitRow>,
        labels: Vec<u32>,
        order: Vec<u32>,
        parents: Vec<u32>,
    }

    impl Tables {
        fn open(&mut self) -> CommitGraph<'_, Levels> {
            CommitGraph::open(
                self.rows.as_mut_slice(),
                self.labels.as_mut_slice(),
                self.order.as_mut_slice(),
                self.parents.as_mut_slice(),
            )
        }
    }

    fn make_tables(
        heap: Global,
        rows: usize,
        labels: usize,
        order: usize,
        parents: usize,
    ) -> Result<Tables, AllocError> {
        Ok(Tables {
            rows: vec![in heap; CommitRow::EMPTY; rows]?,
            labels: vec![in heap; 0; labels]?,
            order: vec![in heap; 0; order]?,
            parents: vec![in heap; 0; parents]?,
        })
    }

    // An id that comes after those of the smaller numbers. Each test crate makes its own ids: what they share has no functions.
    fn id_of(n: u32) -> ObjectId {
        let mut bytes = [0; 20];
        bytes[..4].copy_from_slice(&n.to_be_bytes());
        ObjectId { bytes }
    }

    // Adds `count` commits with the same parents, from a number on, or answers the number of the first refusal, by which other programs are told it.
    fn add_many(
        graph: &mut CommitGraph<'_, Levels>,
        from: u32,
        count: u32,
        parents: &[u32],
    ) -> Result<(), u32> {
        // by number: each id is made of one
        for n in from..from.saturating_add(count) {
            graph
                .add(id_of(n), ObjectId::ZERO, 0, parents)
                .map_err(|refusal| refusal.number())?;
        }
        Ok(())
    }

    // Fills the tables with commits of no parents, and tries one more.
    fn fills(rt: &impl Abort, mut tables: Tables, capacity: u32) {
        let mut graph = tables.open();
        assert_eq!(rt; add_many(&mut graph, 0, capacity, &[]), Ok(()));
        assert_eq!(rt; graph.len(), capacity as usize);
        assert_eq!(rt; add_many(&mut graph, capacity, 1, &[]), Err(5));
        assert_eq!(rt; graph.len(), capacity as usize);
        assert_eq!(rt; graph.find(id_of(capacity)), None);
        assert_eq!(rt; graph.find(id_of(capacity / 2)), Some(capacity / 2));
    }

    #[test]
    fn a_history_takes_65536_commits(rt: HostRuntime) -> Result<(), Fail> {
        fills(
            &rt,
            make_tables(rt.alloc(), 65_540, 65_541, 65_542, 0)?,
            65_536,
        );
        Ok(())
    }

    #[test]
    fn the_shortest_table_is_the_capacity(rt: HostRuntime) -> Result<(), Fail> {
        fills(&rt, make_tables(rt.alloc(), 5, 9, 9, 9)?, 5);
        fills(&rt, make_tables(rt.alloc(), 9, 5, 9, 9)?, 5);
        fills(&rt, make_tables(rt.alloc(), 9, 9, 5, 9)?, 5);
        Ok(())
    }

    #[test]
    fn a_history_takes_262144_parents(rt: HostRuntime) -> Result<(), Fail> {
        let mut tables = make_tables(rt.alloc(), 5_000, 5_000, 5_000, 262_200)?;
        let mut graph = tables.open();
        assert_eq!(rt; add_many(&mut graph, 0, 1, &[]), Ok(()));
        assert_eq!(rt; add_many(&mut graph, 1, 4_095, &[0; 64]), Ok(()));
        assert_eq!(rt; add_many(&mut graph, 4_096, 1, &[0; 63]), Ok(()));
        assert_eq!(rt; add_many(&mut graph, 4_097, 1, &[0; 2]), Err(6));
        assert_eq!(rt; add_many(&mut graph, 4_097, 1, &[0]), Ok(()));
        assert_eq!(rt; add_many(&mut graph, 4_098, 1, &[0]), Err(6));
        assert_eq!(rt; add_many(&mut graph, 4_098, 1, &[]), Ok(()));
        assert_eq!(rt; graph.len(), 4_099);
        Ok(())
    }
}

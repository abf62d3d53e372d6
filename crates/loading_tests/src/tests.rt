use crate::git_file::FOUR;
use crate::histories::{write_added, write_loaded};
use history::Refusal;
use loading::LoadRefusal;
use samples::{Given, SEVEN};
use std::test::Fail;

// The length, or the refusal's number, by which other programs are told it.
fn written(reply: Result<usize, Refusal>) -> Result<usize, u32> {
    reply.map_err(|refusal| refusal.number())
}

// The number of commits and the length of the file that was written again, or the refusal's number. Apart from `written`, since a load has refusals
// of its own.
fn loaded(reply: Result<(usize, usize), LoadRefusal>) -> Result<(usize, usize), u32> {
    reply.map_err(|refusal| refusal.number())
}

#[test]
fn seven_commits(rt: HostRuntime) {
    let mut file = [9; 1492];
    assert_eq!(rt; written(write_added(&SEVEN, &mut file)), Ok(1492));
    assert_eq!(rt; &file[1484..1492], [0, 0, 0, 5, 0x80, 0, 0, 0].as_slice());
    let mut places = [9; 7];
    let mut again = [9; 1492];
    assert_eq!(rt;
        loaded(write_loaded(&file, &mut places, &mut again)),
        Ok((7, 1492))
    );
    assert_eq!(rt; places, [0, 4, 2, 3, 1, 5, 6]);
    assert!(rt; again == file);
}

#[test]
fn without_the_end_mark(rt: HostRuntime) -> Result<(), Fail> {
    let mut file = [9; 1492];
    assert_eq!(rt; written(write_added(&SEVEN, &mut file)), Ok(1492));
    file[1488] = 0;
    match write_loaded(&file, &mut [9; 7], &mut [9; 1492]) {
        Err(LoadRefusal::FileFault(fault)) => {
            assert_eq!(rt; fault.cause(), 13);
            assert_eq!(rt; fault.layer(), 2);
            assert_eq!(rt; fault.place(), 1492);
            Ok(())
        }
        _ => Err(Fail::new("the list has no end")),
    }
}

#[test]
fn no_commit(rt: HostRuntime) {
    let mut file = [9; 1080];
    assert_eq!(rt; written(write_added(&[], &mut file)), Ok(1080));
    let mut again = [9; 1080];
    assert_eq!(rt;
        loaded(write_loaded(&file, &mut [], &mut again)),
        Ok((0, 1080))
    );
    assert!(rt; again == file);
}

#[test]
fn a_date_past_32_bits(rt: HostRuntime) {
    let mut file = [9; 1136];
    let root = Given {
        id: 0x50,
        date: 4_294_967_296,
        parents: &[],
    };
    assert_eq!(rt; written(write_added(&[root], &mut file)), Ok(1136));
    assert_eq!(rt; &file[1128..1136], [0, 0, 0, 5, 0, 0, 0, 0].as_slice());
}

#[test]
fn a_file_that_git_wrote(rt: HostRuntime) {
    let mut places = [9; 7];
    let mut again = [9; 1496];
    assert_eq!(rt;
        loaded(write_loaded(FOUR, &mut places, &mut again)),
        Ok((7, 1496))
    );
    assert_eq!(rt; places, [2, 0, 1, 6, 3, 5, 4]);
    assert!(rt; again == *FOUR);
}

// Where no row is kept, what takes rows from the mask writes nothing and leaves the blocks where they are, whatever index they have.
use crate::from_mask::{pass_runs, pass_words};
use gather::Column;
use predicate::{Blocks, Selection};

#[test]
fn no_row_by_words(rt: HostRuntime) {
    let src = [1u8, 2];
    let mut out = [7u8; 4];
    let column = Column {
        src: &src,
        first: 0,
        width: 1,
    };
    let mut blocks = Blocks {
        sel: Selection::Nothing,
        place: 0,
        index: 5,
    };
    assert_eq!(rt; pass_words(&mut out, 3, column, &mut blocks), 3);
    assert_eq!(rt; blocks.place, 0);
    assert_eq!(rt; out, [7u8; 4]);
}

#[test]
fn no_row_by_runs(rt: HostRuntime) {
    let src = [1u8, 2];
    let mut out = [7u8; 4];
    let column = Column {
        src: &src,
        first: 0,
        width: 1,
    };
    let mut blocks = Blocks {
        sel: Selection::Nothing,
        place: 0,
        index: 5,
    };
    assert_eq!(rt; pass_runs(&mut out, 3, column, &mut blocks), 3);
    assert_eq!(rt; blocks.place, 0);
    assert_eq!(rt; out, [7u8; 4]);
}

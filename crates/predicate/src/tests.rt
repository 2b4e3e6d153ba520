// Selections of five slots, 0b1_0111: all but slot 3 are picked, so the runs are [0, 3) and [4, 5). What is expected is worked out by hand.
use crate::*;
use slots::Bits;

const FIVE: Bits = Bits {
    values_at: 0,
    validity: None,
    skip: 0,
    len: 5,
};

#[test]
fn by_a_list_of_runs(rt: HostRuntime) {
    let bytes = [0b1_0111u8];
    let ends = [0u32, 3, 4, 5];
    let source = Source {
        bytes: &bytes,
        bits: FIVE,
    };
    let mut blocks = Blocks::new(selection_of(Route::Slices, source, Some(&ends)));
    assert!(rt; matches!(blocks.next(), Some(Block::Run(0, 3))));
    assert!(rt; matches!(blocks.next(), Some(Block::Run(4, 5))));
    assert!(rt; blocks.next().is_none());
}

#[test]
fn by_a_list_of_rows(rt: HostRuntime) {
    let bytes = [0b1_0111u8];
    let rows = [0u32, 1, 2, 4];
    let source = Source {
        bytes: &bytes,
        bits: FIVE,
    };
    let mut blocks = Blocks::new(selection_of(Route::Indices, source, Some(&rows)));
    assert!(rt;
        matches!(blocks.next(), Some(Block::Listed(list)) if list == [0, 1, 2, 4].as_slice())
    );
    assert!(rt; blocks.next().is_none());
}

#[test]
fn by_words_without_a_list(rt: HostRuntime) {
    let bytes = [0b1_0111u8];
    let source = Source {
        bytes: &bytes,
        bits: FIVE,
    };
    let mut blocks = Blocks::new(selection_of(Route::Indices, source, None));
    assert!(rt; matches!(blocks.next(), Some(Block::Word(0, 0b1_0111))));
    assert!(rt; blocks.next().is_none());
}

#[test]
fn of_none_and_all(rt: HostRuntime) {
    let bytes = [0b1_0111u8];
    let source = Source {
        bytes: &bytes,
        bits: FIVE,
    };
    let no_entry = [0u32; 0];
    let mut none = Blocks::new(selection_of(Route::None, source, Some(&no_entry)));
    assert!(rt; none.next().is_none());
    let mut all = Blocks::new(selection_of(Route::All, source, Some(&no_entry)));
    assert!(rt; matches!(all.next(), Some(Block::Run(0, 5))));
    assert!(rt; all.next().is_none());
}

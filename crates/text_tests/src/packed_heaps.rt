use regions::{compact_marked, renew};

// Three regions of 8 words, whose addresses begin at 8. In each an object of 5 words, after another that is dead or in
// front of it: with two of them in a region the second would not fit. Each names the next, and the last the first.
#[test]
fn leaves_a_gap_in_each_region(rt: HostRuntime) {
    let mut heap = [
        7, 7, 7, 1, 65793, 11, 18, 100, 7, 7, 1, 65793, 12, 24, 101, 7, 1, 65793, 13, 11, 102, 7,
        7, 7,
    ];
    let marks = [
        false, false, false, true, false, false, false, false, false, false, true, false, false,
        false, false, false, true, false, false, false, false, false, false, false,
    ];
    let mut places = [0; 24];
    let mut tops = [9; 3];
    compact_marked(8, 0, &marks, &mut heap, &mut places, &mut tops);
    assert!(rt; tops == [5, 5, 5]);
    assert!(rt; renew(8, &places, 18) == 16);
    assert!(rt;
        heap == [
            1, 65793, 11, 16, 100, 11, 18, 100, 1, 65793, 12, 24, 101, 24, 101, 7, 1, 65793, 13, 8,
            102, 7, 7, 7,
        ]
    );
}

// The same, but the objects of the region in the middle stay where they are, and the others go round it.
#[test]
fn goes_round_a_region_that_is_shut(rt: HostRuntime) {
    let mut heap = [
        7, 7, 7, 1, 65793, 11, 18, 100, 7, 7, 1, 65793, 12, 24, 101, 7, 1, 65793, 13, 11, 102, 7,
        7, 7,
    ];
    let marks = [
        false, false, false, true, false, false, false, false, false, false, true, false, false,
        false, false, false, true, false, false, false, false, false, false, false,
    ];
    let mut places = [0; 24];
    let mut tops = [8; 3];
    compact_marked(8, 2, &marks, &mut heap, &mut places, &mut tops);
    assert!(rt; tops == [5, 8, 5]);
    for (word, renewed) in &[(11, 8), (18, 18), (24, 24)] {
        assert!(rt; renew(8, &places, *word) == *renewed);
    }
    assert!(rt;
        heap == [
            1, 65793, 11, 18, 100, 11, 18, 100, 7, 7, 1, 65793, 12, 24, 101, 7, 1, 65793, 13, 8,
            102, 7, 7, 7,
        ]
    );
}

// Two regions of 8 words. At 8 is an old copy of the object at 19; the object at 11 names the old copy, and after packing
// the new place of the current one, which is right behind its own.
#[test]
fn renews_by_current_copies(rt: HostRuntime) {
    let mut heap = [
        79, 65536, 12, 1, 65793, 11, 8, 100, 7, 7, 7, 1, 65536, 12, 7, 7,
    ];
    let marks = [
        false, false, false, true, false, false, false, false, false, false, false, true, false,
        false, false, false,
    ];
    let mut places = [0; 16];
    let mut tops = [9; 2];
    compact_marked(8, 0, &marks, &mut heap, &mut places, &mut tops);
    assert!(rt; tops == [8, 0]);
    for (word, renewed) in &[(8, 13), (19, 13), (0, 0)] {
        assert!(rt; renew(8, &places, *word) == *renewed);
    }
    assert!(rt;
        heap == [
            1, 65793, 11, 13, 100, 1, 65536, 12, 7, 7, 7, 1, 65536, 12, 7, 7,
        ]
    );
}

//! The `Debug` texts of what is built from many streams. Their wording is not specified.

use rsb_many::{KMerge, MultiwaySortedDisjoint, MultiwaySweep};
use std::test::Fail;
use test_support::{is_shown, three_tens};

#[test]
fn merges_sweeps_and_the_many_way_forms_have_a_text(rt: HostRuntime) -> Result<(), Fail> {
    let alloc = rt.alloc();
    assert!(rt; is_shown(alloc, KMerge::new(alloc, [three_tens(), three_tens()])?));
    assert!(rt;
        is_shown(
            alloc,
            MultiwaySweep::new(alloc, [three_tens(), three_tens()])?
        )
    );
    assert!(rt; is_shown(alloc, [three_tens(), three_tens()].union(alloc)?));
    assert!(rt; is_shown(alloc, [three_tens(), three_tens()].intersection(alloc)?));
    assert!(rt;
        is_shown(
            alloc,
            [three_tens(), three_tens()].symmetric_difference(alloc)?
        )
    );
    assert!(rt; is_shown(alloc, [three_tens(), three_tens()].at_least(alloc, 2)?));
    Ok(())
}

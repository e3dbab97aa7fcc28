//! Laws that callers cite.

use ip_sets::line_laws::{
    blanks_and_comments_do_not_count, blocks_share_their_first_bits, one_meaning,
};
use ip_sets::{
    comments_select_nothing, list_selects_one, maximal_blocks_are_fewest,
    order_mark_selects_nothing,
};

#[test]
fn laws_of_lines_lists_and_blocks_can_be_cited() {
    one_meaning();
    blocks_share_their_first_bits();
    blanks_and_comments_do_not_count();
    list_selects_one();
    comments_select_nothing();
    order_mark_selects_nothing();
    maximal_blocks_are_fewest();
}

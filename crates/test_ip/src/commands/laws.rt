//! Laws that callers cite.

use ip_commands::{diff_applies, output_is_written_again, output_reads_back};

#[test]
fn laws_of_what_is_written_can_be_cited() {
    output_reads_back();
    output_is_written_again();
    diff_applies();
}

// The words of the rows by which calls are refused (docs/SESSIONS.md, Refusals).
#![tactic(auto)]

ghost use Rattle.std.specs.Prelude.{◌≡◌};
ghost use Rattle.trace_output_refusals.specs.Rows.{rows_text, row_words};

use std::io::Stdout;

// the words of a row, by the list of all rows; _ stands for a blank
fn words(rows: &[u8], row: u8) -> &[u8]
    requires { rows.now ≡ rows_text }
    ensures { result.now ≡ row_words row }
{
    trace_input_session::word(rows, row as usize)
}

// a word as text, a blank for _
fn spaced(stdout: Stdout, w: &[u8], out: &mut [u8], at: usize) -> usize {
    let mut p = at;
    for &b in w {
        p = trace_output_show::put(stdout, out, p, &[if b == b'_' { b' ' } else { b }]);
    }
    p
}

// The words of a row.
pub fn put(stdout: Stdout, row: u8, out: &mut [u8], at: usize) -> usize {
    let w = words(
        b"none
a_range_that_ends_above_the_frames
a_voice_outside_its_range
a_source_that_is_not_registered
a_destination_that_is_not_registered
a_slot_that_is_not_below_64
a_number_that_is_not_finite,_or_a_table's_number_beyond_16
a_program_for_another_configuration
a_program_for_more_sources_or_destinations_than_there_are
a_key_or_target_that_is_registered_already
bounds_that_are_NaN,_or_a_minimum_not_below_the_maximum
a_feed_onto_a_slot_that_is_not_below_64
a_registry_that_is_full
a_configuration_or_stride_outside_its_range
a_memory_that_is_too_short,_or_a_signal's_part_outside_it
a_table_that_is_not_513_long,_or_a_key_above_32_bytes",
        row,
    );
    spaced(stdout, w, out, at)
}

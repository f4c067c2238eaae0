//! Worked rows of the driver's machine: what it does with a script is exactly the row's trace, with the answers and their bytes, and
//! its invariant holds after each act. The rows are those of `trace_rows`.
//!
//! What is proved: the scripts of 37 worked traces, played through that machine, give exactly these traces with the answers and their
//! bytes, and the invariant holds after each act, by computation (noise that imitates a right sector is left to `trace_rows`).

ghost use Rattle.trace_rows.specs.Rows1.{answers_in_service_order, attentions_together, burst_across_two_frames, burst_beyond_the_end, each_fault, empty_script, first_read, forwarded_between_other_units, forwarded_read, frames_run_out, last_data_block, locked, marked_replacement, near_enough, offline, offline_behind_a_burst, offline_in_a_transfer};
ghost use Rattle.trace_rows.specs.Rows2.{offset_outlasts, pack_in_a_retry, partition_ends, read_short};
ghost use Rattle.trace_rows.specs.Rows3.{retries_run_out};
ghost use Rattle.trace_rows.specs.Rows4.{retries_run_out_in_the_request, rm03_partition_g, rm05_last_block, second_adapter, short_burst_repaired, turned};
ghost use Rattle.trace_rows.specs.Rows5.{twenty_seven_retries, two_adapters_overlap, two_sweeps, unforwarded, unmarked_block_reads_its_own_sector};
ghost use Rattle.trace_rows.specs.Rows6.{until_offset};
ghost use Rattle.trace_rows.specs.Rows8.{write_by_events, written_as_far_as_done, written_short};
ghost use Rattle.std.specs.Prelude.{[], ◌∷◌};
ghost use Rattle.trace_rows.specs.Accepted.{EachIs};
ghost use Rattle.contract_rows.specs.Player.{Gives, Tells};

/// What the machine does with the scripts of the rows: exactly the moments of their runs.
pub fn rows_law()
    ensures rows { EachIs Gives (answers_in_service_order ∷ attentions_together ∷ burst_across_two_frames ∷ burst_beyond_the_end ∷ each_fault ∷
        empty_script ∷ first_read ∷ forwarded_between_other_units ∷ forwarded_read ∷ last_data_block ∷ locked ∷
        marked_replacement ∷ near_enough ∷ offline ∷ offline_behind_a_burst ∷ offline_in_a_transfer ∷ offset_outlasts ∷
        pack_in_a_retry ∷ partition_ends ∷ read_short ∷ retries_run_out ∷ retries_run_out_in_the_request ∷ rm03_partition_g ∷
        rm05_last_block ∷ second_adapter ∷ short_burst_repaired ∷ turned ∷ twenty_seven_retries ∷ two_adapters_overlap ∷
        two_sweeps ∷ unforwarded ∷ unmarked_block_reads_its_own_sector ∷ until_offset ∷ write_by_events ∷ written_as_far_as_done ∷
        written_short ∷ []) }
    ensures frames_run_out { Tells frames_run_out }
{}

//! Rows of traces: scripts over packs with the traces that belong to them, and lines out of place. Computation proves that each
//! trace is legal, and that its rule refuses each line. The rows stand as text in `docs/trace-rows`, and `rows.py` there writes this
//! crate anew.
//!
//! What is proved: 39 worked traces are legal, and the rule of each of 101 lines out of place refuses that line, by computation.
#![tactic(auto)]

ghost use Rattle.std.specs.Prelude.{◌≡◌, ◌++◌, true, false, replicate, None, [], ◌∷◌, codes};
ghost use Rattle.partitions.specs.declared.Part.TheVariants as part;
ghost use Rattle.drive_registers.specs.declared.OffsetCode.TheVariants.{Minus400, Minus1200};
ghost use Rattle.hardware_table.specs.declared.FaultKind.TheVariants as kind;
ghost use Rattle.hardware_table.specs.declared.Moved.TheVariants as verdict;
ghost use Rattle.hardware_table.specs.declared.Moved.TheVariants.{Clean, Burst, Hard, Marked, Faulted};
ghost use Rattle.trace_replay.specs.requests.Requests.{Offline, Locked, Unforwarded, Fault, ReadOk, WriteOk, OutsidePartition, EndOfPartition, NoFrames, Failed};
ghost use Rattle.trace_replay.specs.Script.{Submit, MoveAt, AttendTo, Drain};
ghost use Rattle.trace_replay.specs.Moments.{Search, Seek, Offset, Centre, Clear, Pack, Transfer, Arrive, Sector, Intr, Try, Attn, End, Played, Told, Idle};
ghost use Rattle.trace_replay.specs.Rules.{Breaks, BreaksAlone, IsUnfinished, Number, Events, Service, Conversation, Drives, Adapters, Packs, Work};
ghost use Rattle.trace_replay.specs.Text.{trace_text, ended};
ghost use Rattle.trace_rows.specs.Accepted.{start_of, moments_of, IsAccepted, EachIs};
ghost use Rattle.trace_rows.specs.Strange.{busy_start, stranded_start, skewed_start};
ghost use Rattle.trace_rows.specs.Rows1.{alias_noise, answers_in_service_order, attentions_together, burst_across_two_frames, burst_beyond_the_end, each_fault, empty_script, first_read, forwarded_between_other_units, forwarded_read, frames_run_out, last_data_block, locked, marked_replacement, near_enough, offline, offline_behind_a_burst, offline_in_a_transfer};
ghost use Rattle.trace_rows.specs.Rows2.{offset_outlasts, pack_in_a_retry, partition_ends, read_short};
ghost use Rattle.trace_rows.specs.Rows3.{retries_run_out};
ghost use Rattle.trace_rows.specs.Rows4.{retries_run_out_in_the_request, rm03_partition_g, rm05_last_block, second_adapter, short_burst_repaired, turned};
ghost use Rattle.trace_rows.specs.Rows5.{twenty_seven_retries, two_adapters_overlap, two_sweeps, unforwarded, unmarked_block_reads_its_own_sector};
ghost use Rattle.trace_rows.specs.Rows6.{until_offset};
ghost use Rattle.trace_rows.specs.Rows7.{users_run};
ghost use Rattle.trace_rows.specs.Rows8.{write_by_events, written_as_far_as_done, written_short};

/// The traces of the rows are legal: each trace plays its script, and its moments may come one after another.
pub fn rows_law()
    ensures { EachIs IsAccepted (alias_noise ∷ answers_in_service_order ∷ attentions_together ∷ burst_across_two_frames ∷ burst_beyond_the_end ∷
        each_fault ∷ empty_script ∷ first_read ∷ forwarded_between_other_units ∷ forwarded_read ∷ frames_run_out ∷
        last_data_block ∷ locked ∷ marked_replacement ∷ near_enough ∷ offline ∷ offline_behind_a_burst ∷ offline_in_a_transfer ∷
        offset_outlasts ∷ pack_in_a_retry ∷ partition_ends ∷ read_short ∷ retries_run_out ∷ retries_run_out_in_the_request ∷
        rm03_partition_g ∷ rm05_last_block ∷ second_adapter ∷ short_burst_repaired ∷ turned ∷ twenty_seven_retries ∷
        two_adapters_overlap ∷ two_sweeps ∷ unforwarded ∷ unmarked_block_reads_its_own_sector ∷ until_offset ∷ users_run ∷
        write_by_events ∷ written_as_far_as_done ∷ written_short ∷ []) }
{}

/// What is refused: after a number of moments of a row, a moment that breaks the rule that is named. For each rule there is a moment
/// that breaks no other rule. Traces that stop too early are refused too.
pub fn refusals_law()
    ensures wrong_search { BreaksAlone Conversation (start_of first_read) (moments_of first_read) 1 (Told 2 0 1 (Search 0 18)) }
    ensures missing_search { Breaks Conversation (start_of first_read) (moments_of first_read) 1 (Told 2 0 1 (Transfer false 0 1)) }
    ensures seek_for_a_first_try { Breaks Conversation (start_of first_read) (moments_of first_read) 1 (Told 2 0 1 (Seek 0)) }
    ensures needless_refusal { Breaks Conversation (start_of first_read) (moments_of first_read) 1 (Told 2 0 1 (End NoFrames)) }
    ensures input_before_search { Breaks Events (start_of first_read) (moments_of first_read) 1 (Played 3 Drain) }
    ensures groundless_arrival { Breaks Events (start_of first_read) (moments_of first_read) 2 (Told 2 0 1 Arrive) }
    ensures early_attention { Breaks Events (start_of first_read) (moments_of first_read) 3 (Told 3 0 1 Attn) }
    ensures early_transfer { Breaks Drives (start_of first_read) (moments_of first_read) 3 (Told 3 0 1 (Transfer false 0 1)) }
    ensures second_search { Breaks Conversation (start_of first_read) (moments_of first_read) 5 (Told 3 0 1 (Search 0 19)) }
    ensures wrong_way { Breaks Conversation (start_of first_read) (moments_of first_read) 5 (Told 3 0 1 (Transfer true 0 1)) }
    ensures long_segment { Breaks Conversation (start_of first_read) (moments_of first_read) 5 (Told 3 0 1 (Transfer false 0 2)) }
    ensures wrong_block { Breaks Conversation (start_of first_read) (moments_of first_read) 5 (Told 3 0 1 (Transfer false 1 1)) }
    ensures needless_pack { Breaks Conversation (start_of first_read) (moments_of first_read) 5 (Told 3 0 1 Pack) }
    ensures missing_start { Breaks Events (start_of first_read) (moments_of first_read) 5 (Played 4 (MoveAt 0)) }
    ensures other_sector { Breaks Adapters (start_of first_read) (moments_of first_read) 6 (Told 3 0 1 (Sector 1 Clean)) }
    ensures groundless_mark { BreaksAlone Packs (start_of first_read) (moments_of first_read) 6 (Told 3 0 1 (Sector 0 Marked)) }
    ensures groundless_ecc { Breaks Packs (start_of first_read) (moments_of first_read) 6 (Told 3 0 1 (Sector 0 Hard)) }
    ensures groundless_fault { Breaks Packs (start_of first_read) (moments_of first_read) 6 (Told 3 0 1 (Sector 0 (Faulted kind.Opi))) }
    ensures groundless_offline { Breaks Packs (start_of first_read) (moments_of first_read) 6 (Told 3 0 1 (Sector 0 verdict.Offline)) }
    ensures groundless_burst { Breaks Packs (start_of first_read) (moments_of first_read) 6 (Told 3 0 1 (Sector 0 (Burst 1 1))) }
    ensures early_interrupt { Breaks Adapters (start_of first_read) (moments_of first_read) 6 (Told 3 0 1 Intr) }
    ensures idle_in_a_drain { Breaks Events (start_of first_read) (moments_of first_read) 6 (Idle 3) }
    ensures interrupt_with_sectors_left { Breaks Conversation (start_of write_by_events) (moments_of write_by_events) 10 (Told 6 0 1 Intr) }
    ensures sector_too_many { Breaks Events (start_of first_read) (moments_of first_read) 7 (Told 3 0 1 (Sector 1 Clean)) }
    ensures needless_clear { Breaks Conversation (start_of first_read) (moments_of first_read) 8 (Told 3 0 1 Clear) }
    ensures needless_centre { Breaks Conversation (start_of first_read) (moments_of first_read) 8 (Told 3 0 1 Centre) }
    ensures needless_try { Breaks Conversation (start_of first_read) (moments_of first_read) 8 (Told 3 0 1 (Try 0 1)) }
    ensures wrong_bytes { Breaks Conversation (start_of first_read) (moments_of first_read) 8 (Told 3 0 1 (End (ReadOk (replicate 512 1)))) }
    ensures bytes_too_few { Breaks Conversation (start_of first_read) (moments_of first_read) 8 (Told 3 0 1 (End (ReadOk (replicate 511 0)))) }
    ensures read_answered_as_write { Breaks Conversation (start_of first_read) (moments_of first_read) 8 (Told 3 0 1 (End WriteOk)) }
    ensures groundless_cause { Breaks Conversation (start_of first_read) (moments_of first_read) 8 (Told 3 0 1 (End (Failed Fault 0))) }
    ensures groundless_offline_end { Breaks Conversation (start_of first_read) (moments_of first_read) 8 (Told 3 0 1 (End (Failed Offline 1))) }
    ensures wrong_number { BreaksAlone Number (start_of first_read) (moments_of first_read) 8 (Told 4 0 1 (End (ReadOk (replicate 512 0)))) }
    ensures number_of_the_line_before { Breaks Number (start_of first_read) (moments_of first_read) 8 (Told 2 0 1 (End (ReadOk (replicate 512 0)))) }
    ensures wrong_id { BreaksAlone Service (start_of first_read) (moments_of first_read) 8 (Told 3 0 2 (End (ReadOk (replicate 512 0)))) }
    ensures second_end { Breaks Service (start_of first_read) (moments_of first_read) 9 (Told 3 0 1 (End (ReadOk (replicate 512 0)))) }
    ensures number_of_a_line_again { Breaks Number (start_of first_read) (moments_of first_read) 9 (Played 3 Drain) }
    ensures next_is_never_a_move { Breaks Events (start_of retries_run_out) (moments_of retries_run_out) 9 (Played 5 Drain) }
    ensures idle_with_work { Breaks Events (start_of second_adapter) (moments_of second_adapter) 9 (Idle 6) }
    ensures event_without_idle { Breaks Events (start_of second_adapter) (moments_of second_adapter) 3 (Played 4 (AttendTo 0)) }
    ensures number_of_an_idle_line { Breaks Number (start_of second_adapter) (moments_of second_adapter) 3 (Idle 4) }
    ensures next_in_order_of_joining { Breaks Service (start_of two_sweeps) (moments_of two_sweeps) 13 (Told 7 0 2 (Search 50 19)) }
    ensures next_before_its_sweep { Breaks Service (start_of two_sweeps) (moments_of two_sweeps) 13 (Told 7 0 4 (Search 5 19)) }
    ensures attentions_descending { BreaksAlone Events (start_of attentions_together) (moments_of attentions_together) 10 (Told 8 1 2 Attn) }
    ensures attend_clears_nothing { Breaks Events (start_of attentions_together) (moments_of attentions_together) 10 (Played 9 (MoveAt 0)) }
    ensures lowest_attention_only { Breaks Events (start_of attentions_together) (moments_of attentions_together) 11 (Played 9 (MoveAt 0)) }
    ensures adapter_start_before_the_attentions { Breaks Events (start_of attentions_together) (moments_of attentions_together) 11 (Told 8 0 1 (Transfer false 4180 1)) }
    ensures second_ready_first { Breaks Events (start_of attentions_together) (moments_of attentions_together) 12 (Told 8 1 2 (Transfer false 20900 1)) }
    ensures adapter_not_started { Breaks Events (start_of attentions_together) (moments_of attentions_together) 12 (Played 9 (MoveAt 0)) }
    ensures busy_adapter { Breaks Adapters (start_of attentions_together) (moments_of attentions_together) 13 (Told 8 1 2 (Transfer false 20900 1)) }
    ensures other_unit_before_end { Breaks Events (start_of attentions_together) (moments_of attentions_together) 17 (Told 10 1 2 (Transfer false 20900 1)) }
    ensures other_unit_before_search { Breaks Events (start_of attentions_together) (moments_of attentions_together) 18 (Told 10 1 2 (Transfer false 20900 1)) }
    ensures drain_takes_a_sector_first { Breaks Events (start_of attentions_together) (moments_of attentions_together) 21 (Told 11 1 2 (Sector 20900 Clean)) }
    ensures drain_attends_first { Breaks Events (start_of attentions_together) (moments_of attentions_together) 22 (Told 11 0 3 Attn) }
    ensures burst_as_clean { Breaks Packs (start_of short_burst_repaired) (moments_of short_burst_repaired) 4 (Told 4 0 1 (Sector 5 Clean)) }
    ensures other_burst { Breaks Packs (start_of short_burst_repaired) (moments_of short_burst_repaired) 4 (Told 4 0 1 (Sector 5 Hard)) }
    ensures burst_not_cleared { Breaks Conversation (start_of short_burst_repaired) (moments_of short_burst_repaired) 6 (Told 4 0 1 (End (ReadOk (replicate 512 0)))) }
    ensures burst_tried_again { Breaks Conversation (start_of short_burst_repaired) (moments_of short_burst_repaired) 7 (Told 4 0 1 (Transfer false 5 1)) }
    ensures burst_not_repaired { Breaks Conversation (start_of burst_across_two_frames) (moments_of burst_across_two_frames) 7 (Told 4 0 1 (End (ReadOk (replicate 211 0 ++ replicate 2 4 ++ replicate 299 0)))) }
    ensures repaired_beyond_the_end { Breaks Conversation (start_of burst_beyond_the_end) (moments_of burst_beyond_the_end) 7 (Told 4 0 1 (End (ReadOk (replicate 3 0 ++ replicate 1 16)))) }
    ensures alias_taken_back { Breaks Conversation (start_of alias_noise) (moments_of alias_noise) 6 (Told 4 0 1 (End (ReadOk (replicate 512 0)))) }
    ensures wrong_try { Breaks Conversation (start_of retries_run_out) (moments_of retries_run_out) 12 (Told 4 0 1 (Try 5 3)) }
    ensures try_at_another_block { Breaks Conversation (start_of retries_run_out) (moments_of retries_run_out) 12 (Told 4 0 1 (Try 6 2)) }
    ensures missing_try { Breaks Conversation (start_of retries_run_out) (moments_of retries_run_out) 7 (Told 4 0 1 (Transfer false 5 1)) }
    ensures missing_recal { Breaks Conversation (start_of retries_run_out) (moments_of retries_run_out) 23 (Told 4 0 1 (Transfer false 5 1)) }
    ensures needless_seek { Breaks Conversation (start_of retries_run_out) (moments_of retries_run_out) 26 (Told 4 0 1 (Seek 0)) }
    ensures wrong_offset { Breaks Conversation (start_of retries_run_out) (moments_of retries_run_out) 89 (Told 4 0 1 (Offset Minus400)) }
    ensures rtc_forgotten { Breaks Conversation (start_of retries_run_out) (moments_of retries_run_out) 96 (Told 4 0 1 (Try 5 17)) }
    ensures gives_up_early { Breaks Conversation (start_of retries_run_out) (moments_of retries_run_out) 191 (Told 4 0 1 (End (Failed Fault 0))) }
    ensures try_29 { Breaks Conversation (start_of retries_run_out) (moments_of retries_run_out) 200 (Told 4 0 1 (Offset Minus1200)) }
    ensures fault_out_of_order { Breaks Packs (start_of each_fault) (moments_of each_fault) 8 (Told 8 0 1 (Sector 5 (Faulted kind.Opi))) }
    ensures offset_of_a_write { Breaks Conversation (start_of each_fault) (moments_of each_fault) 38 (Told 8 0 1 Centre) }
    ensures wrong_replacement { Breaks Conversation (start_of forwarded_read) (moments_of forwarded_read) 11 (Told 3 0 1 (Transfer false 340646 1)) }
    ensures listed_but_unforwarded { Breaks Conversation (start_of forwarded_read) (moments_of forwarded_read) 11 (Told 3 0 1 (End (Failed Unforwarded 2))) }
    ensures mark_not_seen { Breaks Packs (start_of forwarded_read) (moments_of forwarded_read) 8 (Told 3 0 1 (Sector 1000 Clean)) }
    ensures continues_a_block_late { Breaks Conversation (start_of forwarded_read) (moments_of forwarded_read) 14 (Told 3 0 1 (Transfer false 1002 1)) }
    ensures continues_a_block_early { Breaks Conversation (start_of forwarded_read) (moments_of forwarded_read) 14 (Told 3 0 1 (Transfer false 1000 3)) }
    ensures bytes_of_the_marked_sector { Breaks Conversation (start_of forwarded_read) (moments_of forwarded_read) 18 (Told 3 0 1 (End (ReadOk (replicate 2560 0)))) }
    ensures forwarded_without_table { Breaks Conversation (start_of unforwarded) (moments_of unforwarded) 11 (Told 3 0 1 (Transfer false 340647 1)) }
    ensures done_one_too_many { Breaks Conversation (start_of unforwarded) (moments_of unforwarded) 11 (Told 3 0 1 (End (Failed Unforwarded 3))) }
    ensures forwarded_unmarked { Breaks Packs (start_of unmarked_block_reads_its_own_sector) (moments_of unmarked_block_reads_its_own_sector) 8 (Told 3 0 1 (Sector 1000 Marked)) }
    ensures write_on_locked { Breaks Conversation (start_of locked) (moments_of locked) 2 (Told 3 0 1 (Transfer true 5 1)) }
    ensures locked_when_unlocked { Breaks Conversation (start_of locked) (moments_of locked) 5 (Told 5 0 2 (End (Failed Locked 0))) }
    ensures transfer_offline { Breaks Conversation (start_of offline) (moments_of offline) 8 (Told 6 0 1 (Transfer false 418 1)) }
    ensures missing_pack { Breaks Conversation (start_of offline) (moments_of offline) 12 (Told 8 0 3 (Search 0 19)) }
    ensures sector_of_other_adapter { Breaks Events (start_of two_adapters_overlap) (moments_of two_adapters_overlap) 23 (Told 13 0 10 (Sector 1000 Clean)) }
    ensures old_bytes { Breaks Conversation (start_of write_by_events) (moments_of write_by_events) 23 (Told 9 0 2 (End (ReadOk (replicate 1024 0)))) }
    ensures eof_as_partition { Breaks Conversation (start_of partition_ends) (moments_of partition_ends) 1 (Told 2 0 1 (End OutsidePartition)) }
    ensures refusal_of_other_id { Breaks Service (start_of partition_ends) (moments_of partition_ends) 1 (Told 2 0 2 (End EndOfPartition)) }
    ensures refusal_of_other_unit { Breaks Events (start_of partition_ends) (moments_of partition_ends) 1 (Told 2 1 1 (End EndOfPartition)) }
    ensures refusal_of_other_number { Breaks Number (start_of partition_ends) (moments_of partition_ends) 1 (Told 3 0 1 (End EndOfPartition)) }
    ensures refusal_unanswered { Breaks Events (start_of partition_ends) (moments_of partition_ends) 1 (Played 3 (Submit (record { id = 2; unit = 0; part = part.C; block = 340521; count = 2; last = 512; offset = 0; written = None }))) }
    ensures frames_as_transfer { Breaks Conversation (start_of frames_run_out) (moments_of frames_run_out) 1 (Told 2 0 1 (Transfer false 5 1)) }
    ensures frames_that_are_there { Breaks Conversation (start_of frames_run_out) (moments_of frames_run_out) 3 (Told 3 0 2 (End NoFrames)) }
    ensures skewed_adapter { BreaksAlone Adapters skewed_start (moments_of first_read) 0 (Told 3 0 1 (Sector 0 Clean)) }
    ensures busy_drive { BreaksAlone Drives busy_start (moments_of first_read) 1 (Told 2 0 1 (Search 0 19)) }
    ensures stranded_unit { BreaksAlone Work stranded_start (moments_of first_read) 4 (Told 3 0 1 Attn) }
    ensures stranded_unit_at_a_line { Breaks Work stranded_start (moments_of first_read) 2 (Played 3 Drain) }
    ensures one_seek_at_a_time { Breaks Events (start_of attentions_together) (moments_of attentions_together) 3 (Played 5 (Submit (record { id = 3; unit = 0; part = part.C; block = 0; count = 1; last = 512; offset = 0; written = None }))) }
    ensures first_failure_is_final { Breaks Conversation (start_of retries_run_out) (moments_of retries_run_out) 7 (Told 4 0 1 (End (Failed Fault 0))) }
    ensures one_deed_in_an_event { Breaks Events (start_of until_offset) (moments_of until_offset) 7 (Played 5 Drain) }
    ensures empty_script_unfinished { IsUnfinished (start_of empty_script) (moments_of empty_script) 1 }
    ensures first_read_unfinished { IsUnfinished (start_of first_read) (moments_of first_read) 8 }
    ensures retries_run_out_unfinished { IsUnfinished (start_of retries_run_out) (moments_of retries_run_out) 40 }
    ensures attentions_together_unfinished { IsUnfinished (start_of attentions_together) (moments_of attentions_together) 20 }
{}

/// The texts of the traces of some rows, byte for byte.
pub fn text_law()
    ensures first_read { trace_text (moments_of first_read) ≡ ended (codes "cmd 2 0 1 search 0 19" ∷ codes "arrive 3 0 1" ∷ codes "attn 3 0 1" ∷ codes "cmd 3 0 1 rcom 0 1" ∷ codes "sector 3 0 1 0 clean" ∷ codes "intr 3 0 1" ∷ codes "end 3 0 1" ∷ []) }
    ensures empty_script { trace_text (moments_of empty_script) ≡ ended (codes "idle 1" ∷ []) }
    ensures short_burst_repaired { trace_text (moments_of short_burst_repaired) ≡ ended (codes "cmd 3 0 1 rcom 5 1" ∷ codes "sector 4 0 1 5 burst 4091 2001" ∷ codes "intr 4 0 1" ∷ codes "cmd 4 0 1 dclr" ∷ codes "end 4 0 1" ∷ []) }
    ensures until_offset { trace_text (moments_of until_offset) ≡ ended (codes "cmd 3 0 1 rcom 5 1" ∷ codes "sector 4 0 1 5 ecc" ∷ codes "intr 4 0 1" ∷ codes "cmd 4 0 1 dclr" ∷ codes "try 4 0 1 5 1" ∷ codes "cmd 4 0 1 rcom 5 1" ∷ codes "sector 4 0 1 5 ecc" ∷ codes "intr 4 0 1" ∷ codes "cmd 4 0 1 dclr" ∷ codes "try 4 0 1 5 2" ∷ codes "cmd 4 0 1 rcom 5 1" ∷ codes "sector 4 0 1 5 ecc" ∷ codes "intr 4 0 1" ∷ codes "cmd 4 0 1 dclr" ∷ codes "try 4 0 1 5 3" ∷ codes "cmd 4 0 1 rcom 5 1" ∷ codes "sector 4 0 1 5 ecc" ∷ codes "intr 4 0 1" ∷ codes "cmd 4 0 1 dclr" ∷ codes "try 4 0 1 5 4" ∷ codes "cmd 4 0 1 recal" ∷ codes "arrive 4 0 1" ∷ codes "attn 4 0 1" ∷ codes "cmd 4 0 1 rcom 5 1" ∷ codes "sector 4 0 1 5 ecc" ∷ codes "intr 4 0 1" ∷ codes "cmd 4 0 1 dclr" ∷ codes "try 4 0 1 5 5" ∷ codes "cmd 4 0 1 rcom 5 1" ∷ codes "sector 4 0 1 5 ecc" ∷ codes "intr 4 0 1" ∷ codes "cmd 4 0 1 dclr" ∷ codes "try 4 0 1 5 6" ∷ codes "cmd 4 0 1 rcom 5 1" ∷ codes "sector 4 0 1 5 ecc" ∷ codes "intr 4 0 1" ∷ codes "cmd 4 0 1 dclr" ∷ codes "try 4 0 1 5 7" ∷ codes "cmd 4 0 1 rcom 5 1" ∷ codes "sector 4 0 1 5 ecc" ∷ codes "intr 4 0 1" ∷ codes "cmd 4 0 1 dclr" ∷ codes "try 4 0 1 5 8" ∷ codes "cmd 4 0 1 rcom 5 1" ∷ codes "sector 4 0 1 5 ecc" ∷ codes "intr 4 0 1" ∷ codes "cmd 4 0 1 dclr" ∷ codes "try 4 0 1 5 9" ∷ codes "cmd 4 0 1 rcom 5 1" ∷ codes "sector 4 0 1 5 ecc" ∷ codes "intr 4 0 1" ∷ codes "cmd 4 0 1 dclr" ∷ codes "try 4 0 1 5 10" ∷ codes "cmd 4 0 1 rcom 5 1" ∷ codes "sector 4 0 1 5 ecc" ∷ codes "intr 4 0 1" ∷ codes "cmd 4 0 1 dclr" ∷ codes "try 4 0 1 5 11" ∷ codes "cmd 4 0 1 rcom 5 1" ∷ codes "sector 4 0 1 5 ecc" ∷ codes "intr 4 0 1" ∷ codes "cmd 4 0 1 dclr" ∷ codes "try 4 0 1 5 12" ∷ codes "cmd 4 0 1 recal" ∷ codes "arrive 4 0 1" ∷ codes "attn 4 0 1" ∷ codes "cmd 4 0 1 rcom 5 1" ∷ codes "sector 4 0 1 5 ecc" ∷ codes "intr 4 0 1" ∷ codes "cmd 4 0 1 dclr" ∷ codes "try 4 0 1 5 13" ∷ codes "cmd 4 0 1 rcom 5 1" ∷ codes "sector 4 0 1 5 ecc" ∷ codes "intr 4 0 1" ∷ codes "cmd 4 0 1 dclr" ∷ codes "try 4 0 1 5 14" ∷ codes "cmd 4 0 1 rcom 5 1" ∷ codes "sector 4 0 1 5 ecc" ∷ codes "intr 4 0 1" ∷ codes "cmd 4 0 1 dclr" ∷ codes "try 4 0 1 5 15" ∷ codes "cmd 4 0 1 rcom 5 1" ∷ codes "sector 4 0 1 5 ecc" ∷ codes "intr 4 0 1" ∷ codes "cmd 4 0 1 dclr" ∷ codes "try 4 0 1 5 16" ∷ codes "cmd 4 0 1 offset +400" ∷ codes "arrive 4 0 1" ∷ codes "attn 4 0 1" ∷ codes "cmd 4 0 1 rcom 5 1" ∷ codes "sector 4 0 1 5 ecc" ∷ codes "intr 4 0 1" ∷ codes "cmd 4 0 1 dclr" ∷ codes "cmd 4 0 1 rtc" ∷ codes "try 4 0 1 5 17" ∷ codes "cmd 4 0 1 offset -400" ∷ codes "arrive 4 0 1" ∷ codes "attn 4 0 1" ∷ codes "cmd 4 0 1 rcom 5 1" ∷ codes "sector 4 0 1 5 clean" ∷ codes "intr 4 0 1" ∷ codes "cmd 4 0 1 rtc" ∷ codes "end 4 0 1" ∷ []) }
    ensures written_as_far_as_done { trace_text (moments_of written_as_far_as_done) ≡ ended (codes "cmd 2 0 1 wcom 5 4" ∷ codes "sector 3 0 1 5 clean" ∷ codes "sector 4 0 1 6 clean" ∷ codes "sector 6 0 1 7 opi" ∷ codes "intr 6 0 1" ∷ codes "cmd 6 0 1 dclr" ∷ codes "try 6 0 1 7 1" ∷ codes "cmd 6 0 1 wcom 7 2" ∷ codes "sector 6 0 1 7 opi" ∷ codes "intr 6 0 1" ∷ codes "cmd 6 0 1 dclr" ∷ codes "try 6 0 1 7 2" ∷ codes "cmd 6 0 1 wcom 7 2" ∷ codes "sector 6 0 1 7 opi" ∷ codes "intr 6 0 1" ∷ codes "cmd 6 0 1 dclr" ∷ codes "try 6 0 1 7 3" ∷ codes "cmd 6 0 1 wcom 7 2" ∷ codes "sector 6 0 1 7 opi" ∷ codes "intr 6 0 1" ∷ codes "cmd 6 0 1 dclr" ∷ codes "try 6 0 1 7 4" ∷ codes "cmd 6 0 1 recal" ∷ codes "arrive 6 0 1" ∷ codes "attn 6 0 1" ∷ codes "cmd 6 0 1 wcom 7 2" ∷ codes "sector 6 0 1 7 opi" ∷ codes "intr 6 0 1" ∷ codes "cmd 6 0 1 dclr" ∷ codes "try 6 0 1 7 5" ∷ codes "cmd 6 0 1 wcom 7 2" ∷ codes "sector 6 0 1 7 clean" ∷ codes "sector 6 0 1 8 clean" ∷ codes "intr 6 0 1" ∷ codes "end 6 0 1" ∷ codes "cmd 7 0 2 search 0 2" ∷ codes "arrive 8 0 2" ∷ codes "attn 8 0 2" ∷ codes "cmd 8 0 2 rcom 5 4" ∷ codes "sector 8 0 2 5 clean" ∷ codes "sector 8 0 2 6 clean" ∷ codes "sector 8 0 2 7 clean" ∷ codes "sector 8 0 2 8 clean" ∷ codes "intr 8 0 2" ∷ codes "end 8 0 2" ∷ []) }
    ensures offline { trace_text (moments_of offline) ≡ ended (codes "cmd 2 0 1 search 1 19" ∷ codes "arrive 5 0 1" ∷ codes "attn 6 0 1" ∷ codes "end 6 0 1" ∷ codes "end 6 0 2" ∷ codes "cmd 8 0 3 pack" ∷ codes "cmd 8 0 3 search 0 19" ∷ codes "arrive 9 0 3" ∷ codes "attn 9 0 3" ∷ codes "cmd 9 0 3 rcom 0 1" ∷ codes "sector 9 0 3 0 clean" ∷ codes "intr 9 0 3" ∷ codes "end 9 0 3" ∷ []) }
    ensures partition_ends { trace_text (moments_of partition_ends) ≡ ended (codes "end 2 0 1" ∷ codes "end 3 0 2" ∷ codes "end 4 0 3" ∷ codes "idle 5" ∷ []) }
    ensures each_fault { trace_text (moments_of each_fault) ≡ ended (codes "cmd 7 0 1 wcom 5 1" ∷ codes "sector 8 0 1 5 seek" ∷ codes "intr 8 0 1" ∷ codes "cmd 8 0 1 dclr" ∷ codes "try 8 0 1 5 1" ∷ codes "cmd 8 0 1 wcom 5 1" ∷ codes "sector 8 0 1 5 opi" ∷ codes "intr 8 0 1" ∷ codes "cmd 8 0 1 dclr" ∷ codes "try 8 0 1 5 2" ∷ codes "cmd 8 0 1 wcom 5 1" ∷ codes "sector 8 0 1 5 dte" ∷ codes "intr 8 0 1" ∷ codes "cmd 8 0 1 dclr" ∷ codes "try 8 0 1 5 3" ∷ codes "cmd 8 0 1 wcom 5 1" ∷ codes "sector 8 0 1 5 hcrc" ∷ codes "intr 8 0 1" ∷ codes "cmd 8 0 1 dclr" ∷ codes "try 8 0 1 5 4" ∷ codes "cmd 8 0 1 recal" ∷ codes "arrive 8 0 1" ∷ codes "attn 8 0 1" ∷ codes "cmd 8 0 1 wcom 5 1" ∷ codes "sector 8 0 1 5 late" ∷ codes "intr 8 0 1" ∷ codes "cmd 8 0 1 dclr" ∷ codes "try 8 0 1 5 5" ∷ codes "cmd 8 0 1 wcom 5 1" ∷ codes "sector 8 0 1 5 clean" ∷ codes "intr 8 0 1" ∷ codes "end 8 0 1" ∷ []) }
{}

//! Outcomes of wrong bodies in the crates that read and write packs, from streams to the commands `bad144` and `format`. The contract
//! that each body would have to keep rules them out. The functions here do nothing: each stands for a law.

ghost use Rattle.promise_rows.specs.Reads.{ReadOfAnotherUnit, NextBlockRead, FirstByteLeftOut, WholePieceKept, WindowKeptAfterFailedWrite};
ghost use Rattle.promise_rows.specs.Tables.{EntryAfterTheEnd, ReplacementsLeftBehind, LastCopyTaken, MarkedCopyTaken, TooLongAtTheLastByte, WiderMask};
ghost use Rattle.promise_rows.specs.Formats.{HeadsLeftWhereTheyAre, AnotherBlockTold, CopyLeftOut, ZerosLeftOut, FailedReadingPassedOver, AnotherUnitNamedTooLong, KindTakenForAnother, FormatLengthensTheImage, DiffersAtALaterByte};

/// Rules out wrong reads and writes of packs and streams, and wrong contents of windows and texts.
pub fn reads_law()
    ensures read_of_another_unit { ReadOfAnotherUnit }
    ensures next_block_read { NextBlockRead }
    ensures first_byte_left_out { FirstByteLeftOut }
    ensures whole_piece_kept { WholePieceKept }
    ensures window_kept_after_failed_write { WindowKeptAfterFailedWrite }
{}

/// Rules out wrong reads, edits and choices of tables, and a wrong kind of drive.
pub fn tables_law()
    ensures entry_after_the_end { EntryAfterTheEnd }
    ensures replacements_left_behind { ReplacementsLeftBehind }
    ensures last_copy_taken { LastCopyTaken }
    ensures marked_copy_taken { MarkedCopyTaken }
    ensures too_long_at_the_last_byte { TooLongAtTheLastByte }
    ensures wider_mask { WiderMask }
{}

/// Rules out wrong polls, tests and formatting of packs, and wrong texts of commands.
pub fn formats_law()
    ensures heads_left_where_they_are { HeadsLeftWhereTheyAre }
    ensures another_block_told { AnotherBlockTold }
    ensures copy_left_out { CopyLeftOut }
    ensures zeros_left_out { ZerosLeftOut }
    ensures failed_reading_passed_over { FailedReadingPassedOver }
    ensures another_unit_named_too_long { AnotherUnitNamedTooLong }
    ensures kind_taken_for_another { KindTakenForAnother }
    ensures format_lengthens_the_image { FormatLengthensTheImage }
    ensures differs_at_a_later_byte { DiffersAtALaterByte }
{}

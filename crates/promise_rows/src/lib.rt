//! Wrong outcomes of the program. Each function here states outcomes that a wrong program could produce, and proves that what is
//! promised rules them out: for `play`, the tool and `exercise` in this file, for packs and the commands over them in `packs`, and for
//! blocking requests, raw transfers and the cache in `transfers`. The functions do nothing: each stands for a law.
#![tactic(auto)]

pub mod caller;
pub mod packs;
pub mod transfers;

ghost use Rattle.promise_rows.specs.Playing.{AlwaysAFault, AnswersKeptBack, BlockBeforeItsEvent, BlockBehindAStop, BlockOfNoUnit, NoiseLineUncounted, ShortLastBlockWhole};
ghost use Rattle.promise_rows.specs.Naming.{LaterUnitNamed, FittingLengthNamed, FirstEventUntold, OtherRunByOtherTables, ReadsLengthen, NotAsLongAsWritten, MarkGoneBehindAFailure};
ghost use Rattle.promise_rows.specs.Stopping.{AnswerBeforeItsLine, AnswersDroppedAtARead, TextDropped, TextSentTwice, TwoBlocksAhead};
ghost use Rattle.promise_rows.specs.Saying.{AnswersBeforeLines, TextNotSaid, LinesDropped, RestNotSent};
ghost use Rattle.promise_rows.specs.Strikes.{FailedByFewStrikes};
ghost use Rattle.promise_rows.specs.Headers.{HeadersAreAsTheDriveHasThem};
ghost use Rattle.promise_rows.specs.Others.{DoneWhereTheTextWasNotTaken, FaultThatPrints, HandedInPacksPlayed, ListOfAnotherTable, PlayedAsRefusedByTheTool};
ghost use Rattle.promise_rows.specs.Commands.{NumberBeforeItsCommand, TwoRefusalsOfOneStatus, HalfOfTheSource, HalfTheNumberPlayed, SeedFromTheGreatestByteOn};
ghost use Rattle.promise_rows.specs.Texts.{UnitAndIdSwapped, ErrorWithoutDone, OkCountsReadsAlone, SumThatSaturates};

/// What `play` rules out: a fault without its cause, a missing answer, a change of a block that no request wrote, a line of noise that
/// is not counted, a short last block that is told as a whole one, and a request that fails by tries though the script's faults and
/// noise strike its unit too seldom for that.
pub fn play_rows()
    ensures always_a_fault { AlwaysAFault }
    ensures answers_kept_back { AnswersKeptBack }
    ensures block_before_its_event { BlockBeforeItsEvent }
    ensures block_of_no_unit { BlockOfNoUnit }
    ensures block_behind_a_stop { BlockBehindAStop }
    ensures tally_without_noise_lines { NoiseLineUncounted }
    ensures short_last_block_whole { ShortLastBlockWhole }
    ensures refused_by_the_tool { PlayedAsRefusedByTheTool }
    ensures failed_by_few_strikes { FailedByFewStrikes }
{}

/// What the tool and `exercise` promise: after status 0 the text was taken whole, and after status 6 nothing was printed. What is
/// printed of a table belongs to a table, whatever the packs tell. An exercise prints its own four lines.
pub fn other_rows()
    ensures done_where_the_text_was_not_taken { DoneWhereTheTextWasNotTaken }
    ensures fault_that_prints { FaultThatPrints }
    ensures handed_in_packs_played { HandedInPacksPlayed }
    ensures list_of_another_table { ListOfAnotherTable }
{}

/// What `play` promises further. The unit that is named as too long is the first such unit, with a length that does not fit. The first
/// event of a drain is told. There is no other run with other tables. Reads lengthen no image, and writes lengthen it as far as they
/// reach. At a stop one event is under way, and it belongs to at most one line of the script. The packs that a failure leaves have
/// their marks.
pub fn naming_rows()
    ensures later_unit_named { LaterUnitNamed }
    ensures fitting_length_named { FittingLengthNamed }
    ensures first_event_untold { FirstEventUntold }
    ensures other_run_by_other_tables { OtherRunByOtherTables }
    ensures reads_lengthen { ReadsLengthen }
    ensures not_as_long_as_written { NotAsLongAsWritten }
    ensures mark_gone_behind_a_failure { MarkGoneBehindAFailure }
{}

/// The fault of a header is that of the drive: the header of a marked block shows the fault whose error bit the drive sets at a marked
/// sector.
pub fn header_rows()
    ensures { HeadersAreAsTheDriveHasThem }
{}

/// What holds at a stop: no answer comes before its line; of the blocks that were written, at most one has no line that was sent; and
/// if the packs failed and the trace did not, all lines were sent, once. If they failed at a read, no answer is dropped.
pub fn stop_rows()
    ensures answer_before_its_line { AnswerBeforeItsLine }
    ensures write_before_its_lines { TwoBlocksAhead }
    ensures text_dropped_at_a_stop { TextDropped }
    ensures text_sent_twice { TextSentTwice }
    ensures answers_dropped_at_a_read { AnswersDroppedAtARead }
{}

/// What holds of text that is kept and sent: lines go out before answers, no text or line is lost, and behind a failure of the packs the
/// rest is sent.
pub fn saying_rows()
    ensures answers_before_lines { AnswersBeforeLines }
    ensures text_not_said { TextNotSaid }
    ensures lines_dropped { LinesDropped }
    ensures rest_not_sent { RestNotSent }
{}

/// What holds of the words of the command line, which name a command before its number; of statuses, each of which belongs to one end;
/// of a transfer, which takes its source whole; and of an exercise, which plays the script of its own number, by the number's bytes,
/// the least one first.
pub fn command_rows()
    ensures number_before_its_command { NumberBeforeItsCommand }
    ensures two_refusals_of_one_status { TwoRefusalsOfOneStatus }
    ensures half_of_the_source { HalfOfTheSource }
    ensures half_the_number_played { HalfTheNumberPlayed }
    ensures seed_from_the_greatest_byte_on { SeedFromTheGreatestByteOn }
{}

/// What holds of the lines of a trace, which name the unit before the id; of the answers, which say how much was done; and of the
/// counts of a run, in which a write counts as ok too, and the sum wraps around.
pub fn text_rows()
    ensures unit_and_id_swapped { UnitAndIdSwapped }
    ensures error_without_done { ErrorWithoutDone }
    ensures ok_counts_reads_alone { OkCountsReadsAlone }
    ensures sum_that_saturates { SumThatSaturates }
{}

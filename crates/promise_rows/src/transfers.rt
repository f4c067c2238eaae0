//! Wrong outcomes of blocking requests, of raw transfers and of the cache. What is promised of them rules these outcomes out. The
//! functions here do nothing: each stands for a law.

ghost use Rattle.promise_rows.specs.Raw.{DrainEndsEarly, ReadComesFromThePack, DriveIsOffline, WriteBeforeItsLines, DoneInBlocks, DumpAtTheFront, OutsideByOne, EdgeWithoutItsBytes, AnyTraceAtAStoppedTransfer, LinesDroppedAtARead, RawLengthensTheImage};
ghost use Rattle.promise_rows.specs.Waited.{AnswerLeftUntaken, UnforwardedCountsTheBadBlock};
ghost use Rattle.promise_rows.specs.Cache.{ChangedEntryDropped, AnotherBlockWrittenBack, RefusedInsertionNotCounted, RefusedRisesAtAStop, SyncStopsEarly, RefusedInsertionPromotes, AnotherBlockWritten, BlockAlwaysFound};
ghost use Rattle.promise_rows.specs.Cached.{LastSyncForgotten, BlockOlderThanTheLastSync, CachedBytesBeyondTheDrive, CachedNotAsLongAsWritten, LaterLinesPlayedBehindASinkThatFailed, CacheOfAnotherSize, SyncThatWritesNothing, LastUnusableBlockOk, FaultCalledThatOfASink, WriteAnsweredBeforeItIsDone, UnitBehindASync};

/// What holds of a blocking request: it has ended, a read gives the bytes of its blocks, a driver that is ready can always take one,
/// and all lines are sent before a block is written. After the request no answer waits, and a block that can't be used does not count
/// as done.
pub fn asked_rows()
    ensures drain_ends_early { DrainEndsEarly }
    ensures read_comes_from_the_pack { ReadComesFromThePack }
    ensures drive_is_offline { DriveIsOffline }
    ensures write_before_its_lines { WriteBeforeItsLines }
    ensures answer_left_untaken { AnswerLeftUntaken }
    ensures unforwarded_counts_the_bad_block { UnforwardedCountsTheBadBlock }
{}

/// What holds of a raw transfer: bytes are counted, a dump ends its partition, the last byte of a partition is inside, a block that is
/// written in part keeps its other bytes, and an image is as long as what was written makes it, also if the trace failed. A read leaves
/// every image as it was, whether it ended or stopped. If the packs failed, the trace has the lines of a legal session,
/// and if they failed at a read, all of them.
pub fn raw_rows()
    ensures done_in_blocks { DoneInBlocks }
    ensures dump_at_the_front { DumpAtTheFront }
    ensures outside_by_one { OutsideByOne }
    ensures edge_without_its_bytes { EdgeWithoutItsBytes }
    ensures any_trace_at_a_stopped_transfer { AnyTraceAtAStoppedTransfer }
    ensures lines_dropped_at_a_read { LinesDroppedAtARead }
    ensures raw_lengthens_the_image { RawLengthensTheImage }
{}

/// What holds of the cache: what is cached stays when its entry goes, no other block changes, and a sync writes everything. Each
/// refused insertion is counted, one in a call at most, and leaves the entries as they are. What holds of single blocks: only the block
/// that is named is written, and one that can't be used is not found.
pub fn cache_rows()
    ensures changed_entry_is_dropped_unwritten { ChangedEntryDropped }
    ensures another_block_is_written_back { AnotherBlockWrittenBack }
    ensures refused_insertion_is_not_counted { RefusedInsertionNotCounted }
    ensures refused_rises_at_a_stop { RefusedRisesAtAStop }
    ensures sync_stops_at_an_unchanged_entry { SyncStopsEarly }
    ensures refused_insertion_promotes { RefusedInsertionPromotes }
    ensures another_block_is_written { AnotherBlockWritten }
    ensures block_is_always_found { BlockAlwaysFound }
{}

/// What holds of a script of the cache. At its end the packs hold what the requests left, and after a stop what was there at the last
/// sync, or something later. Images are as long as what was written makes them, and none grows beyond its drive. No line is played
/// after a sink failed. The requests are those of a cache of the size that was named. A write is ok only if all its blocks can be used,
/// and it is answered only once it is done. A sink failed only if its count rose. Units are declared before anything else.
pub fn cached_rows()
    ensures last_sync_is_forgotten { LastSyncForgotten }
    ensures block_older_than_the_last_sync { BlockOlderThanTheLastSync }
    ensures cached_bytes_beyond_the_drive { CachedBytesBeyondTheDrive }
    ensures cached_not_as_long_as_written { CachedNotAsLongAsWritten }
    ensures later_lines_played_behind_a_sink_that_failed { LaterLinesPlayedBehindASinkThatFailed }
    ensures cache_of_another_size { CacheOfAnotherSize }
    ensures sync_that_writes_nothing { SyncThatWritesNothing }
    ensures last_unusable_block_is_answered_ok { LastUnusableBlockOk }
    ensures fault_of_the_packs_is_called_that_of_a_sink { FaultCalledThatOfASink }
    ensures write_is_answered_before_it_is_done { WriteAnsweredBeforeItIsDone }
    ensures unit_behind_a_sync { UnitBehindASync }
{}

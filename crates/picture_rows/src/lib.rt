//! Worked rows of the program that draws: the picture of each run of `examples/` is byte for byte the one that stands beside its
//! script, by its SHA-256, and charts and refusals are the texts that stand here. `examples/rows.py` writes those of `examples/`.
//! Laws state outcomes that a wrong program could produce, and prove that the contracts rule them out.
#![tactic(auto)]

ghost use Rattle.picture_rows.specs.Outcomes.{ColumnDropsAnEvent, IdleEventLeftOut, AmpersandAsItIs, CoordinateOf20000, WindowFromTheFirstEvent, LeadOfEqualsTheFirst, AllAdaptersTakenTogether, RequestBehindTheWindowShown, LineOfAnotherDrive, GroupEndedAroundAnArm, TooltipEndedTwice};
ghost use Rattle.picture_rows.specs.Nested.{GroupLeftOpen, LettersLeftOpen, ScriptLineLeftOpen, MarksOfAnotherUnit, LinesDropped, DriveDrawnTwice};
ghost use Rattle.picture_rows.specs.Charted.{PanelDropsAColumn, RowOfAnotherUnit, LaneLeftOut, ShownNotListed, RowLeftOut, LetterNotOnceInTheLegend};
ghost use Rattle.picture_rows.specs.Runs.{LastPlayNotSeen, PlayedBehindItsLines, LineInAColumnLate, TryCountedTwice, WindowOneEventEarly, NoMemoryTakenForUsage, SecondFaultRefused, TwoEndsOfOneRequest};
ghost use Rattle.picture_rows.specs.Planned.{RequestLeftOut, ColumnLeftOut, BarOfAnotherUnit, CaptionOfAnotherRun, LegendWithoutALetter};
ghost use Rattle.picture_rows.specs.Placed.{ScaleTurnedRound, ColumnsTurnedRound, CylindersTurnedRound, BottomOffItsBound, TopOffItsBound, EventsLeftOut, HeldAtAnotherAdapter};

#[cfg(test)]
mod ends;
#[cfg(test)]
mod pictures;
#[cfg(test)]
mod refused;
#[cfg(test)]
mod texts;
#[cfg(test)]
mod views;

/// Refused outcomes of a picture: of its columns, windows, letters, requests and texts.
pub fn picture_law()
    ensures column_drops_an_event { ColumnDropsAnEvent }
    ensures idle_event_left_out { IdleEventLeftOut }
    ensures ampersand_as_it_is { AmpersandAsItIs }
    ensures coordinate_of_20000 { CoordinateOf20000 }
    ensures window_from_the_first_event { WindowFromTheFirstEvent }
    ensures lead_of_equals_the_first { LeadOfEqualsTheFirst }
    ensures all_adapters_taken_together { AllAdaptersTakenTogether }
    ensures request_behind_the_window_shown { RequestBehindTheWindowShown }
    ensures line_of_another_drive { LineOfAnotherDrive }
    ensures group_ended_around_an_arm { GroupEndedAroundAnArm }
    ensures tooltip_ended_twice { TooltipEndedTwice }
{}

/// Refused outcomes of elements that are left open, and of lines that are told.
pub fn nested_law()
    ensures group_left_open { GroupLeftOpen }
    ensures letters_left_open { LettersLeftOpen }
    ensures script_line_left_open { ScriptLineLeftOpen }
    ensures marks_of_another_unit { MarksOfAnotherUnit }
    ensures lines_dropped { LinesDropped }
    ensures drive_drawn_twice { DriveDrawnTwice }
{}

/// Refused outcomes of a chart: of its panels, lanes, rows and legend.
pub fn chart_law()
    ensures panel_drops_a_column { PanelDropsAColumn }
    ensures row_of_another_unit { RowOfAnotherUnit }
    ensures lane_left_out { LaneLeftOut }
    ensures shown_not_listed { ShownNotListed }
    ensures row_left_out { RowLeftOut }
    ensures letter_not_once_in_the_legend { LetterNotOnceInTheLegend }
{}

/// Refused outcomes of how a run is seen, how a trace is refused, and how the program ends.
pub fn runs_law()
    ensures last_play_not_seen { LastPlayNotSeen }
    ensures played_behind_its_lines { PlayedBehindItsLines }
    ensures line_in_a_column_late { LineInAColumnLate }
    ensures try_counted_twice { TryCountedTwice }
    ensures window_one_event_early { WindowOneEventEarly }
    ensures no_memory_taken_for_usage { NoMemoryTakenForUsage }
    ensures second_fault_refused { SecondFaultRefused }
    ensures two_ends_of_one_request { TwoEndsOfOneRequest }
{}

/// Refused outcomes of what a plan leaves out, and of what stands at the head of a picture.
pub fn plan_law()
    ensures request_left_out { RequestLeftOut }
    ensures column_left_out { ColumnLeftOut }
    ensures bar_of_another_unit { BarOfAnotherUnit }
    ensures caption_of_another_run { CaptionOfAnotherRun }
    ensures legend_without_a_letter { LegendWithoutALetter }
{}

/// Refused outcomes of where columns and cylinders stand, and of which events are counted.
pub fn placed_law()
    ensures scale_turned_round { ScaleTurnedRound }
    ensures columns_turned_round { ColumnsTurnedRound }
    ensures cylinders_turned_round { CylindersTurnedRound }
    ensures bottom_off_its_bound { BottomOffItsBound }
    ensures top_off_its_bound { TopOffItsBound }
    ensures events_left_out { EventsLeftOut }
    ensures held_at_another_adapter { HeldAtAnotherAdapter }
{}

// The laws over whole runs. The calls do nothing: their contracts have the laws proved.
ghost use Rattle.part.specs.Rows.{PrintedRowsHold, WorkedRunsHold, TwinsExist};
ghost use Rattle.part.specs.Laws.{LockedTwinsAnswerAlike, OpensOnlyErased, ChecksAnswerForTheStretch};

// What a rival learns of a locked part's user words, whatever he sends and whenever he pulls the supply: nothing.
pub fn locked_twins()
    ensures locked_twins_answer_alike { LockedTwinsAnswerAlike }
{}

// When a locked part opens: once every page has been erased since the last unprotect frame.
pub fn openings()
    ensures opens_only_erased { OpensOnlyErased }
{}

// What the end of a Memory CRC compares: the checksum of all its words.
pub fn whole_checks()
    ensures checks_answer_for_the_stretch { ChecksAnswerForTheStretch }
{}

// The printed examples of the protocol, and worked runs, as the checker computes them from the definitions.
pub fn rows()
    ensures printed_rows_hold { PrintedRowsHold }
    ensures worked_runs_hold { WorkedRunsHold }
    ensures twins_exist { TwinsExist }
{}

ghost use Rattle.generated_runs.specs.FixedRuns.{AllAreAnswered, HistoriesAreShort, ImagesAreFixed, NoHistoryIsFull, SplitsFillHistories};
ghost use Rattle.generated_runs.specs.GeneratedRuns.{FiguresAreFixed, GeneratedScriptsFit, SumsAreFixed, SummariesAreFixed};

/// In a legal transcript the history has no more entries than the script has splits, since each entry is that of an accepted
/// split. So the history is not full where the script has fewer commands than a history has room for.
pub fn histories_are_short()
    ensures law { HistoriesAreShort }
    ensures room { NoHistoryIsFull }
{}

/// Where each split is accepted, the history has as many entries as the script has splits.
pub fn splits_fill_histories()
    ensures law { SplitsFillHistories }
{}

/// Legal transcripts of a script whose commands nothing refuses have the same reply to an `image` line, whatever the versions
/// at which they answer it.
pub fn images_are_fixed()
    ensures law { ImagesAreFixed }
{}

/// Where nothing refuses the commands of a script, a legal run without want of memory has an answer to each command, accepts
/// each split, and has as many versions as the script has splits. Its columns are as many as the distinct pairs that its
/// commands demand. For its operators keep the relations and commute, by Merel's theorem.
pub fn all_are_answered()
    ensures law { AllAreAnswered }
{}

/// Nothing refuses a command of a script that is made from a number, and it has fewer commands than a history has room for. So
/// of two legal runs of it without want of memory the coordinates of images have one sum.
pub fn generated_images_are_fixed()
    ensures fit { GeneratedScriptsFit }
    ensures sums { SumsAreFixed }
{}

/// The counts of such a run are those of its drawing, and the summary is a function of the number: two legal runs have one
/// summary, whatever hosts made them.
pub fn generated_summaries_are_fixed()
    ensures figures { FiguresAreFixed }
    ensures summaries { SummariesAreFixed }
{}

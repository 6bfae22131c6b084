ghost use Rattle.legal_runs.specs.Agreement.{OneSessionIsFixed, OtherRepliesAreFixed, RepliesAreFixedByVersions, RepliesWithoutSplitsAreFixed};
ghost use Rattle.legal_runs.specs.Columns.{ColumnsAreBounded};
ghost use Rattle.legal_runs.specs.GeneratedTexts.{GeneratedTextsAreRead};
ghost use Rattle.legal_runs.specs.Readable.{RunsCanBeRead, RunsHaveTheirTexts, TranscriptsCanBeRead};

/// A legal run keeps the rules of transcripts, so its text is read back as this run, and no other legal run has it: each
/// number in it fits, where the script's text has fewer than 2^32 - 1 bytes.
pub fn legal_runs_can_be_read()
    ensures transcripts { TranscriptsCanBeRead }
    ensures runs { RunsCanBeRead }
    ensures texts { RunsHaveTheirTexts }
{}

/// A legal run counts at most as many columns as there are distinct pairs (n, symbol) that its commands demand. A command
/// that is refused without a look at an operator demands none.
pub fn columns_are_bounded()
    ensures law { ColumnsAreBounded }
{}

/// Two legal runs of one script reply the same to a line where the entries before its version are the same, and to each line
/// that is no `show`, `part` or `split` at any versions, unless one of the replies is want of memory. Where none is, all
/// replies are the same if the script has one session, or if no split is accepted in either run.
pub fn legal_runs_agree()
    ensures versions { RepliesAreFixedByVersions }
    ensures others { OtherRepliesAreFixed }
    ensures one_session { OneSessionIsFixed }
    ensures unsplit { RepliesWithoutSplitsAreFixed }
{}

/// The text of the script of a number is read as that script, to the number of each line.
pub fn generated_texts_are_read()
    ensures law { GeneratedTextsAreRead }
{}

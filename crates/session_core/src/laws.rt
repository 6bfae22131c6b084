ghost use Rattle.session_core.specs.Histories.{LegalHistoriesAreVersions};
ghost use Rattle.session_core.specs.OneSession.{OneSessionRunsAreSolo, OneSessionRunsAreUnique};
ghost use Rattle.session_core.specs.Operators.{ImagesAreSums};
ghost use Rattle.session_core.specs.SoloRuns.{SoloColumnsAreDemanded, SoloRunsAreLegal, SoloRunsAreUnique};
ghost use Rattle.session_core.specs.Transcripts.{ColumnsAreDemanded};

/// Lines that are answered one after another make a legal run: each reply stands at the version that the accepted splits
/// before it made, these splits are the history, and the columns are those that its lines demand.
pub fn solo_runs_are_legal()
    ensures law { SoloRunsAreLegal }
{}

/// A script has one such run, where no reply is want of memory, and its columns are as many as the distinct pairs that
/// its commands demand, each at the version of its reply.
pub fn solo_runs_are_unique()
    ensures law { SoloRunsAreUnique }
    ensures columns { SoloColumnsAreDemanded }
{}

/// The columns of a legal run of any host are as many as the distinct pairs that its commands demand, where no reply is
/// want of memory and the history is not full.
pub fn columns_are_demanded()
    ensures law { ColumnsAreDemanded }
{}

/// The reply to `apply`, where its operator is accepted, is the coordinates of Merel's sum, or of star, of every combination
/// that has the given coordinates. So congruent combinations have congruent images.
pub fn images_are_sums()
    ensures law { ImagesAreSums }
{}

/// In a legal transcript the first v entries of the history have a version, for each v that there is. It is a splitting of
/// the space, and the version of one entry more refines it. So it is with every legal run, of one thread or of many.
pub fn legal_histories_are_versions()
    ensures law { LegalHistoriesAreVersions }
{}

/// A legal run of a script of one session is a run of one thread: each version is the number of accepted splits in the
/// lines before. So the script has one legal run, where no reply is want of memory and the history is not full.
pub fn one_session_runs_are_solo()
    ensures law { OneSessionRunsAreSolo }
    ensures unique { OneSessionRunsAreUnique }
{}

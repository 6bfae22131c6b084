ghost use Rattle.legal_runs.specs.OperatorAnswers.{OperatorsAreNeverRefused};

/// No reply of a legal run is `err relation` or `err commutator`. An operator that is coprime to the level keeps the
/// relations, by Merel's theorem, and any two such operators commute.
pub fn operators_are_never_refused()
    ensures law { OperatorsAreNeverRefused }
{}

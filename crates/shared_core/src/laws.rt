ghost use Rattle.std.specs.Prelude.{◌≡◌, ℕ, List};
ghost use Rattle.field_table.specs.Table.{IsListed};
ghost use Rattle.quotient_coords.specs.Quotient.{Ground};
ghost use Rattle.shared_core.specs.declared.run.CoreRun.{CoreRun as Run};
ghost use Rattle.shared_core.specs.declared.step.CoreStep.{CoreStep as Step};
ghost use Rattle.shared_core.specs.declared.step.Outcome.{Outcome as Answer};
ghost use Rattle.shared_core.specs.Core.{CoreState, IsFirstIllegal, IsRun, core_start};
ghost use Rattle.shared_core.specs.Growth.{Follows, IsWithin};
ghost use Rattle.shared_core.specs.Results.{IsCoreRun};

/// A list of steps has one run, and none where a step of it is the first that is not legal.
pub fn runs_are_exact()
    ensures one { (setting : Ground) (sessions : ℕ) (s : CoreState) (steps : List Step)
        (os others : List Answer) (t u : CoreState) → IsListed setting.characteristic →
        IsRun setting sessions s steps os t → IsRun setting sessions s steps others u →
        (os ≡ others) × (t ≡ u) }
    ensures illegal { (setting : Ground) (sessions : ℕ) (steps : List Step) (run : Run)
        (place : ℕ) → IsListed setting.characteristic →
        IsCoreRun setting sessions steps run →
        ¬ (IsFirstIllegal setting sessions steps place) }
{}

/// The history only grows, and no session has learnt more than it has, nor learns less later.
pub fn sessions_learn_more()
    ensures start { (sessions : ℕ) → IsWithin (core_start sessions) }
    ensures run { (setting : Ground) (sessions : ℕ) (s : CoreState) (steps : List Step)
        (os : List Answer) (t : CoreState) → IsWithin s →
        IsRun setting sessions s steps os t → IsWithin t × Follows s t }
{}

ghost use Rattle.std.specs.Prelude.{◌≡◌, ◌+◌, ◌<◌, ◌≤◌, ℕ};
ghost use Rattle.p1_normal.specs.Units.{gcd};
ghost use Rattle.script_text.specs.Draws.{HasFourSessions, index_from};

/// The script of every number has four sessions of forty commands, each on a line, at a level of 100 to 200.
pub fn generated_scripts_have_four_sessions()
    ensures { (seed : ℕ) → HasFourSessions seed }
{}

/// At every level the index from a number on is the least number from there on that is coprime to the level:
/// there is one, no further away than the level.
pub fn indices_are_least()
    ensures from { (N k : ℕ) → 0 < N → k ≤ index_from N k }
    ensures coprime { (N k : ℕ) → 0 < N → gcd (index_from N k) N ≡ 1 }
    ensures near { (N k : ℕ) → 0 < N → index_from N k ≤ k + N }
    ensures least { (N k n : ℕ) → 0 < N → k ≤ n → gcd n N ≡ 1 → index_from N k ≤ n }
{}

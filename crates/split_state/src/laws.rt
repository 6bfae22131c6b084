ghost use Rattle.std.specs.Prelude.{◌≡◌, ◌↔◌, ◌++◌, ℕ, List, [], ◌∷◌, Contains};
ghost use Rattle.linear_algebra.specs.Dense.{dense_rows};
ghost use Rattle.field_table.specs.Table.{IsListed};
ghost use Rattle.op_polynomials.specs.declared.entry.SplitEntry.{SplitEntry};
ghost use Rattle.op_polynomials.specs.declared.name.OpName.{OpName};
ghost use Rattle.quotient_coords.specs.Quotient.{Ground, dimension};
ghost use Rattle.split_state.specs.Decomposition.{Decomposition, IsSplitting, IsSized, Centralises, MatchesListed};
ghost use Rattle.split_state.specs.Difference.{AgreesWithListed, IsFirstDifference};
ghost use Rattle.split_state.specs.Refinement.{Refines};
ghost use Rattle.split_state.specs.Step.{IsStep, IsWhole};
ghost use Rattle.split_state.specs.Versions.{IsEntryStep, IsOperatorMatrix, IsVersion, ListsOperators, OperatorsCommute, operators};

/// A step by an operator that commutes with every listed one, and is the listed one where its name
/// is listed, makes a splitting of a splitting, in which it is the listed one; and every step
/// refines.
pub fn steps_keep_splittings()
    ensures law { (s r : Decomposition) (op : OpName) (m : List (List ℕ)) (f : List ℕ) →
        IsSplitting s → IsSized s.characteristic s.dim m →
        Centralises s.characteristic s.matrices (dense_rows s.characteristic m) →
        MatchesListed s op m → IsStep s op m f r → IsSplitting r }
    ensures matches { (s r : Decomposition) (op : OpName) (m : List (List ℕ)) (f : List ℕ) →
        IsSplitting s → MatchesListed s op m → IsStep s op m f r → MatchesListed r op m }
    ensures refines { (s r : Decomposition) (op : OpName) (m : List (List ℕ)) (f : List ℕ) →
        IsStep s op m f r → Refines r s }
{}

/// A step has one outcome.
pub fn steps_are_unique()
    ensures law { (s : Decomposition) (op : OpName) (m : List (List ℕ)) (f : List ℕ)
        (r t : Decomposition) → IsListed s.characteristic → IsStep s op m f r →
        IsStep s op m f t → r ≡ t }
{}

/// By a matrix that commutes with every listed one, and every polynomial in it, there is a next
/// splitting.
pub fn steps_exist()
    ensures law { (s : Decomposition) (op : OpName) (m : List (List ℕ)) (f : List ℕ) →
        IsSplitting s → IsSized s.characteristic s.dim m →
        Centralises s.characteristic s.matrices (dense_rows s.characteristic m) →
        (r : Decomposition) × IsStep s op m f r }
{}

/// A matrix has one first difference from the listed operators of a splitting: one operator, row,
/// column and pair of entries; and none where its products with each agree, in which case it
/// commutes with each.
pub fn first_differences_are_unique()
    ensures law { (s : Decomposition) (a : List (List ℕ)) (op other : OpName)
        (i j x y k l z w : ℕ) → IsSplitting s → IsFirstDifference s a op i j x y →
        IsFirstDifference s a other k l z w →
        (op ≡ other) × (i ≡ k) × (j ≡ l) × (x ≡ z) × (y ≡ w) }
    ensures none { (s : Decomposition) (a : List (List ℕ)) (op : OpName) (i j x y : ℕ) →
        AgreesWithListed s a → ¬ (IsFirstDifference s a op i j x y) }
    ensures commute { (s : Decomposition) (a : List (List ℕ)) → IsSplitting s →
        IsSized s.characteristic s.dim a → AgreesWithListed s a →
        Centralises s.characteristic s.matrices (dense_rows s.characteristic a) }
{}

/// A list of entries has at most one version, and an operator one matrix.
pub fn versions_are_unique()
    ensures law { (g : Ground) (entries : List SplitEntry) (s t : Decomposition) →
        IsListed g.characteristic → IsVersion g entries s → IsVersion g entries t → s ≡ t }
    ensures matrix { (g : Ground) (op : OpName) (m o : List (List ℕ)) →
        IsListed g.characteristic → IsOperatorMatrix g op m → IsOperatorMatrix g op o → m ≡ o }
{}

/// The list of no entry has a version. A version that is a splitting has a next one by each entry
/// whose operator has a matrix that commutes with the listed ones. So each list of entries has a
/// version whose operators have matrices, where these commute.
pub fn versions_exist()
    ensures none { (g : Ground) → IsListed g.characteristic →
        (s : Decomposition) × IsVersion g [] s }
    ensures more { (g : Ground) (entries : List SplitEntry) (e : SplitEntry) (s : Decomposition)
        (m : List (List ℕ)) → IsVersion g entries s → IsSplitting s →
        IsOperatorMatrix g e.op m →
        Centralises s.characteristic s.matrices (dense_rows s.characteristic m) →
        (r : Decomposition) × IsVersion g (entries ++ e ∷ []) r }
    ensures law { (g : Ground) (entries : List SplitEntry) → IsListed g.characteristic →
        OperatorsCommute g entries →
        ((op : OpName) → Contains (operators entries) op →
        (m : List (List ℕ)) × IsOperatorMatrix g op m) →
        (s : Decomposition) × IsVersion g entries s }
{}

/// Without an entry the version is the whole space, and with one entry more at the end it is one
/// step more.
pub fn versions_grow_by_steps()
    ensures none { (g : Ground) (s : Decomposition) → IsVersion g [] s ↔
        IsWhole g.characteristic (dimension g.level g.characteristic) s }
    ensures more { (g : Ground) (entries : List SplitEntry) (e : SplitEntry)
        (s r : Decomposition) → IsVersion g entries s → IsEntryStep g s e r →
        IsVersion g (entries ++ e ∷ []) r }
    ensures last { (g : Ground) (entries : List SplitEntry) (e : SplitEntry)
        (r : Decomposition) → IsVersion g (entries ++ e ∷ []) r →
        (s : Decomposition) × IsVersion g entries s × IsEntryStep g s e r }
{}

/// A version lists exactly the operators of its entries, each once and with its matrix. So the
/// matrix of an operator is of its size, and the listed one where its name is listed: what a step
/// asks for.
pub fn versions_list_operators()
    ensures operators { (g : Ground) (entries : List SplitEntry) (s : Decomposition) →
        IsVersion g entries s → ListsOperators g entries s }
    ensures characteristic { (g : Ground) (entries : List SplitEntry) (s : Decomposition) →
        IsVersion g entries s → s.characteristic ≡ g.characteristic }
    ensures dim { (g : Ground) (entries : List SplitEntry) (s : Decomposition) →
        IsVersion g entries s → s.dim ≡ dimension g.level g.characteristic }
    ensures sized { (g : Ground) (entries : List SplitEntry) (s : Decomposition) (op : OpName)
        (m : List (List ℕ)) → IsVersion g entries s → IsOperatorMatrix g op m →
        IsSized s.characteristic s.dim m }
    ensures matches { (g : Ground) (entries : List SplitEntry) (s : Decomposition) (op : OpName)
        (m : List (List ℕ)) → IsListed g.characteristic → IsVersion g entries s →
        IsOperatorMatrix g op m → MatchesListed s op m }
{}

/// The version of no entry is a splitting. Where the matrix of an entry's operator commutes with
/// those that a version lists, the next version is a splitting with it, and it refines the version.
/// So every version of entries whose operators commute is a splitting.
pub fn versions_are_splittings()
    ensures none { (g : Ground) (s : Decomposition) → IsListed g.characteristic →
        IsVersion g [] s → IsSplitting s }
    ensures more { (g : Ground) (entries : List SplitEntry) (e : SplitEntry) (s r : Decomposition)
        (k : IsEntryStep g s e r) → IsListed g.characteristic → IsVersion g entries s →
        IsSplitting s →
        Centralises s.characteristic s.matrices (dense_rows s.characteristic k.matrix) →
        IsSplitting r }
    ensures refines { (g : Ground) (e : SplitEntry) (s r : Decomposition) →
        IsEntryStep g s e r → Refines r s }
    ensures law { (g : Ground) (entries : List SplitEntry) (s : Decomposition) →
        IsListed g.characteristic → OperatorsCommute g entries → IsVersion g entries s →
        IsSplitting s }
{}

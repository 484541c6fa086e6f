//! Laws of both grammars of scripts, as contracts of functions that do nothing.

ghost use Rattle.std.specs.Prelude.{◌≡◌, ℕ, ◌⊎◌, List};
ghost use Rattle.commons.specs.declared.limits.Limits.{Limits};
ghost use Rattle.script_text.specs.declared.lines.Pools.{Pools};
ghost use Rattle.script_text.specs.Commands.{Line};
ghost use Rattle.script_text.specs.StepGrammar.{IsStepScript, IsFirstStepFault, HasBadStepPool, IsSomeStepScript, HasSomeStepFault};
ghost use Rattle.script_text.specs.StepLine.{StepLine};
ghost use Rattle.script_text.specs.Grammar.{IsScript, IsFirstFault, HasBadPool, IsSomeScript, HasSomeFault};

/// No text is two scripts.
pub fn one_reading()
    ensures { (bytes : List ℕ) (pools other_pools : Pools) (lines other_lines : List Line) →
        IsScript bytes pools lines → IsScript bytes other_pools other_lines →
        (pools ≡ other_pools) × (lines ≡ other_lines) }
{}

/// No text has two first faulty lines, and none has both a faulty line and a bad pool.
pub fn one_fault()
    ensures line { (bytes : List ℕ) (number other : ℕ) →
        IsFirstFault bytes number → IsFirstFault bytes other → number ≡ other }
    ensures pool { (bytes : List ℕ) (number : ℕ) →
        IsFirstFault bytes number → HasBadPool bytes → ⊥ }
{}

/// No text with a faulty line or a bad pool is a script.
pub fn no_faulty_script()
    ensures line { (bytes : List ℕ) (number : ℕ) (pools : Pools) (lines : List Line) →
        IsFirstFault bytes number → IsScript bytes pools lines → ⊥ }
    ensures pool { (bytes : List ℕ) (pools : Pools) (lines : List Line) →
        HasBadPool bytes → IsScript bytes pools lines → ⊥ }
{}

/// Every text is a script, or has a first faulty line, or has a bad pool.
pub fn no_gap()
    ensures { (bytes : List ℕ) → IsSomeScript bytes ⊎ (HasSomeFault bytes ⊎ HasBadPool bytes) }
{}

/// No text is two scripts of steps.
pub fn one_reading_as_steps()
    ensures { (bytes : List ℕ) (limits other_limits : Limits) (lines other_lines : List StepLine) →
        IsStepScript bytes limits lines → IsStepScript bytes other_limits other_lines →
        (limits ≡ other_limits) × (lines ≡ other_lines) }
{}

/// No text has two first lines that are faulty in a script of steps, and none has both such a line
/// and a bad pool.
pub fn one_fault_as_steps()
    ensures line { (bytes : List ℕ) (number other : ℕ) →
        IsFirstStepFault bytes number → IsFirstStepFault bytes other → number ≡ other }
    ensures pool { (bytes : List ℕ) (number : ℕ) →
        IsFirstStepFault bytes number → HasBadStepPool bytes → ⊥ }
{}

/// No text with a line that is faulty in a script of steps, or with a bad pool, is one.
pub fn no_faulty_script_of_steps()
    ensures line { (bytes : List ℕ) (number : ℕ) (limits : Limits) (lines : List StepLine) →
        IsFirstStepFault bytes number → IsStepScript bytes limits lines → ⊥ }
    ensures pool { (bytes : List ℕ) (limits : Limits) (lines : List StepLine) →
        HasBadStepPool bytes → IsStepScript bytes limits lines → ⊥ }
{}

/// Every text is a script of steps, or has a first faulty line, or has a bad pool.
pub fn no_gap_as_steps()
    ensures { (bytes : List ℕ) →
        IsSomeStepScript bytes ⊎ (HasSomeStepFault bytes ⊎ HasBadStepPool bytes) }
{}

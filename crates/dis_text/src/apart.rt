//! That the texts of the two tables are told apart.
ghost use Rattle.std.specs.Prelude.{ℕ, List};
ghost use Rattle.text_model.specs.Statement.{Statement};
ghost use Rattle.dis_text.specs.Both.{IsA64, IsSve};

/// No statement is read as an A64 instruction and as an SVE instruction.
pub fn no_statement_is_of_both()
    ensures { (name rest : List ℕ) (s t : Statement) → IsA64 name rest s → IsSve name rest t → ⊥ }
{}

//! Laws of a statement's JSON.

ghost use Rattle.std.specs.Prelude.{◌≡◌};
ghost use Rattle.pool_statement.specs.declared.statement.Statement.{Statement};
ghost use Rattle.statement_text.specs.StatementData.{HasWords, statement_data};

/// The JSON leaves nothing of a statement out: two statements that have the same are the same.
pub fn a_statements_json_is_its_own()
    ensures { (a b : Statement) → HasWords a → HasWords b → statement_data a ≡ statement_data b → a ≡ b }
{}

//! The names of operations on predicates, and the laws of first and last places.
ghost use Rattle.std.specs.Prelude.{ℕ, Bool};
ghost use Rattle.lane_model.specs.FirstLast.{first_where, last_where};
ghost use Rattle.lane_model.specs.FirstLastLaws.{IsFirstWhere, IsLastWhere};

/// A logical operation of two predicates under a third: bic, orn, nor and nand complement as their names say, and sel
/// chooses.
#[derive(Clone, Copy, PartialEq, Eq, Debug)]
pub enum LogicOp {
    And,
    Bic,
    Eor,
    Orr,
    Orn,
    Nor,
    Nand,
    Sel,
}

/// The condition of a loop's counter: less, less or equal (signed), lower, lower or same (unsigned).
#[derive(Clone, Copy, PartialEq, Eq, Debug)]
pub enum WhileTest {
    Lt,
    Le,
    Lo,
    Ls,
}

/// The first place and the last place meet the test, and nothing before the first or behind the last does. Where there
/// is none, nothing meets the test.
pub fn first_and_last_meet_the_test()
    ensures first { (n : ℕ) (test : ℕ → Bool) → IsFirstWhere n test (first_where n test) }
    ensures last { (n : ℕ) (test : ℕ → Bool) → IsLastWhere n test (last_where n test) }
{}

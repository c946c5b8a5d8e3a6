// Arithmetic between two numbers.
ghost use Rattle.std.specs.Prelude.{◌≡◌};
ghost use Rattle.term_eval.specs.Values.{calculate};

use rule_ast::Calc;

// The exact result, where there is one.
#[tactic(auto, using(crate::proofs::Checked::results))]
pub(crate) fn calculate(calc: Calc, x: i64, y: i64) -> Option<i64>
    ensures { result ≡ calculate calc x y }
{
    match calc {
        Calc::Add => x.checked_add(y),
        Calc::Sub => x.checked_sub(y),
        Calc::Mul => x.checked_mul(y),
        Calc::Div => x.checked_div(y),
        Calc::Rem => x.checked_rem(y),
    }
}

// Operators: how tightly they bind, and what they give.
#![tactic(auto)]

ghost use Rattle.std.specs.Prelude.{◌≡◌};
ghost use Rattle.rules.specs.Expressions as rules;
ghost use Rattle.rules.specs.Evaluate.{evaluate as exactly};
ghost use Rattle.refusals.specs.Refusals.{number_of};
ghost use Rattle.operators.specs.Operators.{operator_number, prefix_level_of, error_number, result_of, Numbers};

use refusals::Reason;

// The numbers are those that PF and IN have.
#[derive(Clone, Copy, PartialEq, Eq)]
pub enum Operator {
    Add = 0,
    Subtract = 1,
    Multiply = 2,
    Divide = 3,
}

// A number that no operator has.
#[derive(Clone, Copy, PartialEq, Eq)]
pub struct UnknownOperator;

// Beyond 32 signed bits (50); a divisor of 0 (51).
#[derive(Clone, Copy, PartialEq, Eq)]
pub enum EvaluateError {
    Beyond32Bits,
    ZeroDivisor,
}

impl From<EvaluateError> for Reason {
    ghost from_gives = { λ e r. number_of r ≡ error_number e };

    fn from(e: EvaluateError) -> Reason {
        match e {
            EvaluateError::Beyond32Bits => Reason::Beyond32Bits,
            EvaluateError::ZeroDivisor => Reason::ZeroDivisor,
        }
    }
}

impl TryFrom<u8> for Operator {
    type Error = UnknownOperator;

    ghost try_from_gives = { Numbers };

    fn try_from(number: u8) -> Result<Self, UnknownOperator> {
        match number {
            0 => Ok(Operator::Add),
            1 => Ok(Operator::Subtract),
            2 => Ok(Operator::Multiply),
            3 => Ok(Operator::Divide),
            _ => Err(UnknownOperator),
        }
    }
}

impl Operator {
    const SUM: u8 = 1;

    const PRODUCT: u8 = 3;

    const PREFIX: u8 = 5;

    // How tightly an operator between two operands binds; its right operand binds one tighter.
    #[tactic(auto, unfolding(rules::specs::Expressions::left_level))]
    pub fn infix_level(self) -> u8
        ensures { result ≡ rules.left_level (operator_number self) }
    {
        match self {
            Operator::Add | Operator::Subtract => Self::SUM,
            Operator::Multiply | Operator::Divide => Self::PRODUCT,
        }
    }

    // Before an operand only `+` and `-` stand; they bind tightest.
    #[tactic(auto, unfolding(rules::specs::Expressions::prefix_level))]
    pub fn prefix_level(self) -> Option<u8>
        ensures { result ≡ prefix_level_of self }
    {
        match self {
            Operator::Add | Operator::Subtract => Some(Self::PREFIX),
            Operator::Multiply | Operator::Divide => None,
        }
    }

    // As PF and IN have it. A method and no `From`, so that a caller's line says what the u32 is.
    pub fn number(self) -> u32
        ensures { result ≡ operator_number self }
    {
        self as u32
    }

    // The exact result; a quotient is truncated toward zero.
    pub fn evaluate(self, left: i32, right: i32) -> Result<i32, EvaluateError>
        ensures { result_of result ≡ exactly (operator_number self) left right }
    {
        let value = match self {
            Operator::Add => left.checked_add(right),
            Operator::Subtract => left.checked_sub(right),
            Operator::Multiply => left.checked_mul(right),
            Operator::Divide if right == 0 => return Err(EvaluateError::ZeroDivisor),
            Operator::Divide => left.checked_div(right),
        };
        value.ok_or(EvaluateError::Beyond32Bits)
    }
}

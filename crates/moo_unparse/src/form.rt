//! The forms of a listing.
ghost use Rattle.std.specs.Prelude.{◌≡◌};
ghost use Rattle.moo_syntax_ast.specs.View.{tree};
ghost use Rattle.moo_unparse.specs.Parts.{rank, operator_part, part_of, left_of, right_of, needs};

use moo_syntax_ast::Expr;
use moo_syntax_ast::operator::BinaryOperator;
use moo_syntax_listing::shape::is_compound;

/// Which operands are put in parentheses.
#[derive(Clone, Copy)]
pub(crate) enum Parentheses {
    /// Each operator, conditional and assignment.
    All,
    /// Those that the grammar requires.
    Needed,
}

/// The form of a listing.
#[derive(Clone, Copy)]
pub(crate) struct Form {
    pub(crate) parentheses: Parentheses,
    /// Whether a line is indented by two blanks for each statement around it.
    pub(crate) indent: bool,
}

/// The precedence levels of expressions, the loosest first.
#[derive(Clone, Copy)]
pub(crate) enum Part {
    Assignment,
    Conditional,
    /// `&&` and `||`
    Logic,
    /// Comparisons and `in`
    Relation,
    /// `+` and `-`
    Sum,
    /// `*`, `/` and `%`
    Product,
    /// `^`
    Power,
    /// `!` and `-` before an operand
    Sign,
    /// Neither an operator, a conditional nor an assignment.
    Plain,
}

impl Part {
    /// Returns how tightly the part binds.
    fn rank(self) -> u8
        ensures { result ≡ rank self }
    {
        match self {
            Part::Assignment => 0,
            Part::Conditional => 1,
            Part::Logic => 2,
            Part::Relation => 3,
            Part::Sum => 4,
            Part::Product => 5,
            Part::Power => 6,
            Part::Sign => 7,
            Part::Plain => 8,
        }
    }

    /// Returns the loosest part that needs no parentheses to the left of an operator of this part.
    pub(crate) fn left(self) -> Part
        ensures { result ≡ left_of self }
    {
        match self {
            Part::Power => Part::Sign,
            _ => self,
        }
    }

    /// Returns the loosest part that needs no parentheses to the right of an operator of this part.
    pub(crate) fn right(self) -> Part
        ensures { result ≡ right_of self }
    {
        match self {
            Part::Logic => Part::Relation,
            Part::Relation => Part::Sum,
            Part::Sum => Part::Product,
            Part::Product => Part::Power,
            _ => self,
        }
    }
}

pub(crate) fn operator_part(operator: BinaryOperator) -> Part
    ensures { result ≡ operator_part operator }
{
    match operator {
        BinaryOperator::Add | BinaryOperator::Subtract => Part::Sum,
        BinaryOperator::Multiply | BinaryOperator::Divide | BinaryOperator::Remainder => {
            Part::Product
        }
        BinaryOperator::Power => Part::Power,
        BinaryOperator::Equal
        | BinaryOperator::NotEqual
        | BinaryOperator::Less
        | BinaryOperator::LessOrEqual
        | BinaryOperator::Greater
        | BinaryOperator::GreaterOrEqual
        | BinaryOperator::In => Part::Relation,
    }
}

fn part_of(value: &Expr) -> Part
    ensures { result ≡ part_of (tree value.now) }
{
    match value {
        Expr::Assign(..) => Part::Assignment,
        Expr::Conditional(..) => Part::Conditional,
        Expr::Logic(..) => Part::Logic,
        Expr::Binary(operator, ..) => operator_part(*operator),
        Expr::Unary(..) => Part::Sign,
        _ => Part::Plain,
    }
}

impl Parentheses {
    /// Is true if the operand is put in parentheses at a place where `least` is the loosest part without them.
    pub(crate) fn needs(self, least: Part, operand: &Expr) -> bool
        ensures { result ≡ needs self least (tree operand.now) }
    {
        match self {
            Parentheses::All => is_compound(operand),
            Parentheses::Needed => part_of(operand).rank() < least.rank(),
        }
    }
}

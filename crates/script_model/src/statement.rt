//! Statements, nested by their blocks.
ghost use Rattle.std.specs.Prelude.{◌≡◌};
ghost use Rattle.script_model.specs.Steps.{steps_in, steps_view};

use crate::action::Action;
use crate::expression::Expression;
use crate::operand::Operand;
use schema_model::Text;

/// What opens a block, and how often its lines are run.
#[derive(Debug, Drop)]
pub enum Opener {
    /// Once, where the operand is true.
    If(Operand),
    /// For each key, position or value of a collection, under a variable's name.
    Each(Text, Operand),
    /// For each text of a stored set.
    EachMember(Text, Operand),
}

/// A statement.
#[cycle(script)]
#[derive(Debug, Drop)]
pub enum Statement {
    /// Sets a variable.
    Let(Text, Expression),
    Do(Action),
    Open(Opener, Block),
}

/// Statements one behind another.
#[cycle(script)]
#[derive(Debug, Drop)]
pub struct Block {
    statements: Vec<Statement>,
}

/// What a room does when something happens.
pub type Handler = Block;

impl Block {
    /// Statements, taken over as they are.
    pub fn from_vec(statements: Vec<Statement>) -> Block
        ensures { steps_in result ≡ steps_view statements.items }
    {
        Block { statements }
    }

    pub fn as_slice(&self) -> &[Statement]
        ensures { steps_view result.now ≡ steps_in self.now }
    {
        self.statements.as_slice()
    }
}

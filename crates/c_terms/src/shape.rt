// What a label is: an expression, a statement, a head with bodies, a list.
ghost use Rattle.std.specs.Prelude.{◌≡◌};
ghost use Rattle.c_terms.specs.Shapes.{is_expression_part};

use crate::{Label, TokenKind, Tree};

/// How a pattern is compared with a tree.
#[derive(Clone, Copy, Debug, PartialEq, Eq)]
pub enum Shape {
    /// One of several branches: [`Label::PatOr`]
    Or,
    /// All of several branches: [`Label::PatAnd`]
    And,
    /// Member by member: [`Label::Args`], [`Label::Params`]
    List,
    /// Child by child
    Plain,
}

impl TokenKind {
    ghost use Rattle.c_terms.specs.Shapes.{is_operand};

    /// Whether a token of this kind is an expression of C by itself.
    pub fn is_operand(self) -> bool
        ensures value { result ≡ is_operand self }
    {
        matches!(
            self,
            TokenKind::Name | TokenKind::Number | TokenKind::Char | TokenKind::Str
        )
    }
}

impl Label {
    ghost use Rattle.c_terms.specs.Shapes.{is_expression_label, is_declarator_label, is_type_label, is_statement_label, is_item_label, is_head_label, is_body, is_tail, shape_of, may_hold};

    /// Whether a branch of this label is an expression of C (6.5). A list of arguments is not one.
    pub fn is_expression(self) -> bool
        ensures value { result ≡ is_expression_label self }
    {
        matches!(
            self,
            Label::Strings
                | Label::Paren
                | Label::Index
                | Label::Call
                | Label::Member
                | Label::Arrow
                | Label::PostOp
                | Label::Literal
                | Label::PreOp
                | Label::Unary
                | Label::SizeofExpr
                | Label::SizeofType
                | Label::Cast
                | Label::Binary
                | Label::Cond
                | Label::CondShort
                | Label::Assign
                | Label::Comma
        )
    }

    /// Whether a branch of this label is a declarator (6.7.6). A plain name is one too.
    pub fn is_declarator(self) -> bool
        ensures value { result ≡ is_declarator_label self }
    {
        matches!(
            self,
            Label::Pointer | Label::DParen | Label::DArray | Label::DFun
        )
    }

    /// Whether a branch of this label is a type: [`Label::TypeName`], [`Label::Specs`].
    pub fn is_type(self) -> bool
        ensures value { result ≡ is_type_label self }
    {
        matches!(self, Label::TypeName | Label::Specs)
    }

    /// Whether a branch of this label is a statement (6.8), or a declaration among statements.
    pub fn is_statement(self) -> bool
        ensures value { result ≡ is_statement_label self }
    {
        matches!(
            self,
            Label::Decl
                | Label::ExprStat
                | Label::Empty
                | Label::Block
                | Label::If
                | Label::IfElse
                | Label::While
                | Label::Do
                | Label::For
                | Label::ForDecl
                | Label::Switch
                | Label::Iterator
                | Label::Case
                | Label::CaseRange
                | Label::Default
                | Label::Label
                | Label::Return
                | Label::Goto
                | Label::Break
                | Label::Continue
        )
    }

    /// Whether a branch of this label is an item of a file (6.9).
    pub fn is_item(self) -> bool
        ensures value { result ≡ is_item_label self }
    {
        matches!(
            self,
            Label::Decl | Label::MacroItem | Label::Empty | Label::FunDef | Label::MacroFun
        )
    }

    /// Whether a branch of this label has bodies: a conditional, a loop, a `switch`, a function.
    pub fn is_head(self) -> bool
        ensures value { result ≡ is_head_label self }
    {
        matches!(
            self,
            Label::If
                | Label::IfElse
                | Label::While
                | Label::Do
                | Label::For
                | Label::ForDecl
                | Label::Switch
                | Label::Iterator
                | Label::FunDef
                | Label::MacroFun
        )
    }

    /// Whether child `i` of a branch with `n` children is a body: the last one, the one before
    /// `else`, or that of `do`.
    pub fn is_body(self, n: usize, i: usize) -> bool
        ensures value { result ≡ is_body self n i }
    {
        match self {
            Label::IfElse => i == 4 || i == 6,
            Label::Do => i == 1,
            _ => self.is_head() && i < n && n - i == 1,
        }
    }

    /// Whether child `i` belongs to the tail of `do`, which is `while (c);`.
    pub fn is_tail(self, i: usize) -> bool
        ensures value { result ≡ is_tail self i }
    {
        match self {
            Label::Do => 1 < i,
            _ => false,
        }
    }

    /// Returns how a pattern of this label is compared with a tree.
    pub fn shape(self) -> Shape
        ensures value { result ≡ shape_of self }
    {
        match self {
            Label::Args | Label::Params => Shape::List,
            Label::PatOr => Shape::Or,
            Label::PatAnd => Shape::And,
            _ => Shape::Plain,
        }
    }

    /// Whether child `i` may fill an expression part of the label's row. A member's name, a label
    /// and a declarator's name never do.
    pub fn may_hold(self, i: usize) -> bool
        ensures value { result ≡ may_hold self i }
    {
        match self {
            Label::Paren
            | Label::Index
            | Label::Call
            | Label::Args
            | Label::PostOp
            | Label::PreOp
            | Label::Unary
            | Label::SizeofExpr
            | Label::Cast
            | Label::Binary
            | Label::Cond
            | Label::CondShort
            | Label::Assign
            | Label::Comma => true,
            Label::InitList | Label::InitItem | Label::At | Label::AtRange => true,
            Label::ExprStat
            | Label::If
            | Label::IfElse
            | Label::While
            | Label::Do
            | Label::For
            | Label::ForDecl
            | Label::Switch
            | Label::Case
            | Label::CaseRange
            | Label::Return => true,
            Label::Member | Label::Arrow => i == 0,
            Label::Bits | Label::EnumValue | Label::DArray | Label::InitDecl => 0 < i,
            _ => false,
        }
    }
}

impl Tree {
    ghost use Rattle.c_terms.specs.Shapes.{is_expression};

    /// Whether the tree is an expression of C: a token that is one by itself, or a branch whose
    /// label is one. Allocates nothing.
    pub fn is_expression(&self) -> bool
        ensures value { result ≡ is_expression self.now }
    {
        match self {
            Tree::Leaf(token) => token.kind.is_operand(),
            Tree::Branch(label, _) => label.is_expression(),
        }
    }
}

/// Whether child `i` of a branch of this label fills an expression part of the label's row.
pub fn is_expression_part(label: Label, i: usize, child: &Tree) -> bool
    ensures value { result ≡ is_expression_part label i child.now }
{
    label.may_hold(i) && child.is_expression()
}

// The rows of the grammar that a branch can be.
ghost use Rattle.std.specs.Prelude.{◌≡◌};
ghost use Rattle.c_terms.specs.Numbers.{label_number};

/// Which row of the grammar a branch is. The labels are in the order of the grammar's tables, which
/// is their order as terms. The sections are those of ISO/IEC 9899:2011.
#[derive(Clone, Copy, Debug, PartialEq, Eq)]
pub enum Label {
    /// `"a" "b"`, `PRIu64 "x"`: two or more tokens, at least one a string (6.4.5)
    Strings,
    /// `(e)` (6.5.1)
    Paren,
    /// `e[e]` (6.5.2.1)
    Index,
    /// `f(a, b)`: the function, `(`, an [`Label::Args`], `)` (6.5.2.2)
    Call,
    /// `a, b`: what is between the brackets of a call, including the commas
    Args,
    /// `int` in `va_arg(ap, int)`: a type as a member of a call's list
    TypeArg,
    /// `e.x` (6.5.2.3)
    Member,
    /// `e->x` (6.5.2.3)
    Arrow,
    /// `e++`, `e--` (6.5.2.4)
    PostOp,
    /// `(T){ 1, 2 }` (6.5.2.5)
    Literal,
    /// `++e`, `--e` (6.5.3.1)
    PreOp,
    /// `*e`, `&e`, `+e`, `-e`, `~e`, `!e` (6.5.3.2, 6.5.3.3)
    Unary,
    /// `sizeof e` (6.5.3.4)
    SizeofExpr,
    /// `sizeof(T)`, `_Alignof(T)` (6.5.3.4)
    SizeofType,
    /// `(T)e` (6.5.4)
    Cast,
    /// `a + b`, with any of the operators from `*` to `||` (6.5.5 to 6.5.14)
    Binary,
    /// `c ? a : b` (6.5.15)
    Cond,
    /// `c ?: b`, an extension of C
    CondShort,
    /// `a = b`, `a += b` (6.5.16)
    Assign,
    /// `a, b` as one expression (6.5.17)
    Comma,

    /// `int *` in `(int *)p` (6.7.7)
    TypeName,
    /// `static const unsigned long`: storage words, qualifiers and one type (6.7)
    Specs,
    /// `struct s`, `union u` (6.7.2.1)
    StructUse,
    /// `struct s { int x; }` (6.7.2.1)
    StructDef,
    /// `int x, y : 3;` in a structure (6.7.2.1)
    Field,
    /// `y : 3` in a structure (6.7.2.1)
    Bits,
    /// `enum e` (6.7.2.2)
    EnumUse,
    /// `enum e { A, B = 2 }` (6.7.2.2)
    EnumDef,
    /// `B = 2` (6.7.2.2)
    EnumValue,
    /// `*const p` (6.7.6.1)
    Pointer,
    /// `(d)` around a declarator (6.7.6)
    DParen,
    /// `d[3]` (6.7.6.2)
    DArray,
    /// `d(int x)`: the declarator, `(`, a [`Label::Params`], `)` (6.7.6.3)
    DFun,
    /// `int x, ...`: what is between the brackets of a function's declarator
    Params,
    /// `int x` among parameters (6.7.6)
    Param,
    /// `int x = 1, *y;` (6.7)
    Decl,
    /// `x = 1` in a declaration (6.7)
    InitDecl,
    /// `{ 1, .x = 2, }` (6.7.9)
    InitList,
    /// `.x[2] = 3` in a list of initialisers (6.7.9)
    InitItem,
    /// `.x` in such an item (6.7.9)
    DotName,
    /// `[2]` in such an item (6.7.9)
    At,
    /// `[2 ... 5]` in such an item, an extension of C
    AtRange,
    /// `MODULE_LICENSE("GPL");` in place of an item or a field
    MacroItem,

    /// `e;` (6.8.3)
    ExprStat,
    /// `;` (6.8.3)
    Empty,
    /// `{ s }` (6.8.2)
    Block,
    /// `if (c) s` (6.8.4.1)
    If,
    /// `if (c) s else t` (6.8.4.1)
    IfElse,
    /// `while (c) s` (6.8.5.1)
    While,
    /// `do s while (c);` (6.8.5.2)
    Do,
    /// `for (a; b; c) s` (6.8.5.3)
    For,
    /// `for (int i = 0; b; c) s` (6.8.5.3)
    ForDecl,
    /// `switch (e) s` (6.8.4.2)
    Switch,
    /// `list_for_each_entry(p, head, node) s`: a loop by a macro
    Iterator,
    /// `case 1:` (6.8.1)
    Case,
    /// `case 1 ... 5:`, an extension of C
    CaseRange,
    /// `default:` (6.8.1)
    Default,
    /// `out:` (6.8.1)
    Label,
    /// `return e;` (6.8.6.4)
    Return,
    /// `goto out;` (6.8.6.1)
    Goto,
    /// `break;` (6.8.6.3)
    Break,
    /// `continue;` (6.8.6.2)
    Continue,
    /// Statements, one after another
    StmtList,
    /// `int f(void) { s }` (6.9.1)
    FunDef,
    /// `SYSCALL_DEFINE0(f) { s }`: a function that a macro declares
    MacroFun,

    /// `\( a \| b \)` in a pattern: one of these
    PatOr,
    /// `\( a \& b \)` in a pattern: all of these
    PatAnd,
    /// `<... s ...>`, `<+... s ...+>` in a pattern: at any places of a path
    PatNest,
}

impl Label {
    /// Returns the label's place in the order of labels, from 0. Allocates nothing.
    pub fn number(self) -> u8
        ensures value { result ≡ label_number self }
    {
        match self {
            Label::Strings => 0,
            Label::Paren => 1,
            Label::Index => 2,
            Label::Call => 3,
            Label::Args => 4,
            Label::TypeArg => 5,
            Label::Member => 6,
            Label::Arrow => 7,
            Label::PostOp => 8,
            Label::Literal => 9,
            Label::PreOp => 10,
            Label::Unary => 11,
            Label::SizeofExpr => 12,
            Label::SizeofType => 13,
            Label::Cast => 14,
            Label::Binary => 15,
            Label::Cond => 16,
            Label::CondShort => 17,
            Label::Assign => 18,
            Label::Comma => 19,
            Label::TypeName => 20,
            Label::Specs => 21,
            Label::StructUse => 22,
            Label::StructDef => 23,
            Label::Field => 24,
            Label::Bits => 25,
            Label::EnumUse => 26,
            Label::EnumDef => 27,
            Label::EnumValue => 28,
            Label::Pointer => 29,
            Label::DParen => 30,
            Label::DArray => 31,
            Label::DFun => 32,
            Label::Params => 33,
            Label::Param => 34,
            Label::Decl => 35,
            Label::InitDecl => 36,
            Label::InitList => 37,
            Label::InitItem => 38,
            Label::DotName => 39,
            Label::At => 40,
            Label::AtRange => 41,
            Label::MacroItem => 42,
            Label::ExprStat => 43,
            Label::Empty => 44,
            Label::Block => 45,
            Label::If => 46,
            Label::IfElse => 47,
            Label::While => 48,
            Label::Do => 49,
            Label::For => 50,
            Label::ForDecl => 51,
            Label::Switch => 52,
            Label::Iterator => 53,
            Label::Case => 54,
            Label::CaseRange => 55,
            Label::Default => 56,
            Label::Label => 57,
            Label::Return => 58,
            Label::Goto => 59,
            Label::Break => 60,
            Label::Continue => 61,
            Label::StmtList => 62,
            Label::FunDef => 63,
            Label::MacroFun => 64,
            Label::PatOr => 65,
            Label::PatAnd => 66,
            Label::PatNest => 67,
        }
    }
}

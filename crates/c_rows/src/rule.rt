// The rules of the grammar: what a branch of each is, and its parts.
ghost use Rattle.std.specs.Prelude.{◌≡◌};
ghost use Rattle.c_rows.specs.Rows as rows;

use crate::{Class, Fork, Kind, Naming, Symbol, Word};
use c_terms::Label;

/// A row of the grammar. Rows with the same label that begin in different ways are separate rules. The rules are listed
/// by family, and within a family those come first that don't begin with a part of the family itself: the order is that
/// of `heads` and `tails` in specs/Rows.
#[derive(Clone, Copy)]
pub enum Rule {
    // expressions
    /// two or more strings and names: `"a" "b"`, `PRIu64 "x"`
    Strings,
    /// `(` expression `)`: `(e)`
    Paren,
    /// `(` type-name `)` list of initialisers: `(T){ 1, 2 }`
    Literal,
    /// `(` type-name `)` cast-expression: `(T)e`
    Cast,
    /// `++` or `--`, unary-expression: `++e`
    PreOp,
    /// `&`, `*`, `+`, `-`, `~` or `!`, cast-expression: `-e`
    Unary,
    /// `sizeof` unary-expression: `sizeof e`
    SizeofExpr,
    /// `sizeof` or `_Alignof`, `(` type-name `)`: `sizeof(T)`
    SizeofType,
    /// expressions between `\(` and `\)`, separated by `\|` or by `\&`: `\( a \| b \)`, `\( a \& b \)`
    PatBranches,
    /// postfix-expression `[` expression `]`: `e[e]`
    Index,
    /// postfix-expression `(` arguments `)`: `f(a, b)`
    Call,
    /// postfix-expression `.` name: `e.x`
    Member,
    /// postfix-expression `->` name: `e->x`
    Arrow,
    /// postfix-expression, `++` or `--`: `e++`
    PostOp,
    /// logical-OR-expression `||` logical-AND-expression: `a || b`
    OrOr,
    /// logical-AND-expression `&&` inclusive-OR-expression: `a && b`
    AndAnd,
    /// inclusive-OR-expression `|` exclusive-OR-expression: `a | b`
    Or,
    /// exclusive-OR-expression `^` AND-expression: `a ^ b`
    Xor,
    /// AND-expression `&` equality-expression: `a & b`
    And,
    /// equality-expression, `==` or `!=`, relational-expression: `a == b`
    Equality,
    /// relational-expression, `<`, `>`, `<=` or `>=`, shift-expression: `a < b`
    Order,
    /// shift-expression, `<<` or `>>`, additive-expression: `a << b`
    Shift,
    /// additive-expression, `+` or `-`, multiplicative-expression: `a + b`
    Sum,
    /// multiplicative-expression, `*`, `/` or `%`, cast-expression: `a * b`
    Product,
    /// logical-OR-expression `?` expression `:` conditional-expression: `c ? a : b`
    Cond,
    /// logical-OR-expression `?` `:` conditional-expression: `c ?: b`
    CondShort,
    /// unary-expression, assignment operator, assignment-expression: `a = b`
    Assign,
    /// expression `,` assignment-expression: `a, b`
    Comma,

    // argument lists
    /// arguments separated by commas, possibly none: `a, b`
    Args,
    /// a type as an argument: `int`
    TypeArg,

    // types
    /// type words, and an optional declarator without a name: `int *`
    TypeName,
    /// modifiers and one type part: `static const int`
    Specs,
    /// `struct` or `union`, name: `struct s`
    StructUse,
    /// `struct` or `union`, an optional name, members in braces: `struct s { int x; }`
    StructDef,
    /// `enum` name: `enum e`
    EnumUse,
    /// `enum`, an optional name, enumerators in braces: `enum e { A, B = 2 }`
    EnumDef,
    /// type words, declarators and bits separated by commas (possibly none), `;`: `int x, y : 3;`
    Field,
    /// storage words, name, `(` arguments `)` `;`: `static MACRO(x);`
    MacroItem,
    /// `:` conditional-expression: `: 3`
    NamelessBits,

    // declarators
    /// `*`, qualifiers, an optional declarator: `*const d`
    Pointer,
    /// `(` declarator `)`: `(d)`
    DParen,
    /// `[` an optional size `]`, when no name is declared: `[3]`
    NamelessArray,
    /// `(` parameters `)`, when no name is declared: `(int x)`
    NamelessFun,
    /// direct-declarator `[` an optional size `]`: `d[3]`
    DArray,
    /// direct-declarator `(` parameters `)`: `d(int x)`
    DFun,
    /// declarator `:` conditional-expression: `y : 3`
    Bits,
    /// declarator `=` an expression or a list of initialisers: `x = 1`
    InitDecl,
    /// parameters separated by commas, possibly none: `int x, ...`
    Params,
    /// type words, and an optional declarator: `int x`
    Param,

    // initialisers
    /// initialisers in braces, separated by commas: `{ 1, .x = 2, }`
    InitList,
    /// designators `=` an expression or a list: `.x[2] = 3`
    InitItem,
    /// `.` name: `.x`
    DotName,
    /// `[` conditional-expression `]`, or with a range: `[2]`, `[2 ... 5]`
    At,

    // enumerators
    /// name `=` conditional-expression: `B = 2`
    EnumValue,

    // declarations
    /// type words, declarators and initialisers separated by commas (possibly none), `;`: `int x = 1, y;`
    Decl,

    // statements
    /// expression `;`: `f();`
    ExprStat,
    /// `if` `(` expression `)` body, and optionally `else` body: `if (c) f(); else g();`
    If,
    /// `return` an optional expression `;`: `return e;`
    Return,
    /// `{` statements `}`: `{ f(); }`
    Block,
    /// `goto` name `;`: `goto out;`
    Goto,
    /// name `:`: `out:`
    Label,
    /// `case` expression `:`, or with a range: `case 1:`, `case 1 ... 2:`
    Case,
    /// `break` `;`
    Break,
    /// `for` `(`, a declaration or an optional expression and `;`, an optional expression and `;`, an optional expression, `)`
    /// body: `for (;;) f();`
    For,
    /// `while` `(` expression `)` body: `while (c) f();`
    While,
    /// `switch` `(` expression `)` body: `switch (e) { }`
    Switch,
    /// name `(` arguments `)` body: `list_for_each(p, head) f(p);`
    Iterator,
    /// `default` `:`
    Default,
    /// `continue` `;`
    Continue,
    /// `do` body `while` `(` expression `)` `;`: `do f(); while (c);`
    Do,
    /// `;`
    Empty,
    /// lists of statements between `\(` and `\)`, separated by `\|` or by `\&`: `\( f(); \| g(); \)`
    PatLists,
    /// `<...` or `<+...`, an expression or statements, `...>` or `...+>`: `<... f(x) ...>`
    PatNest,
    /// statements: `f(); g();`
    StmtList,

    // items
    /// type words, a declarator and a Block, or the parts of a Decl: `int f(void) { }`, `int x = 1, y;`
    External,
    /// storage words, name, `(` arguments `)`, and `;` or a Block: `MACRO(x);`, `MACRO(x) { }`
    ExternalMacro,
    /// `;`
    ExternalEmpty,
}

/// What a rule says of its branches.
#[derive(Clone, Copy)]
pub struct Production {
    /// The tightest kind of a branch of the rule
    pub kind: Kind,
    /// How a branch of the rule is labelled
    pub naming: Naming,
    /// The parts of its row, in order
    pub parts: &'static [Symbol],
}

/// `rule![Post, Paren: word ParenOpen, child Expr, one Close]` is a production: a kind, a label and the parts. In place
/// of the label, `by IfByElse` names the way in which the parts determine it.
macro_rules! rule {
    ($kind:ident, by $naming:ident: $($parts:tt)*) => {
        Production { kind: Kind::$kind, naming: Naming::$naming, parts: row![$($parts)*] }
    };
    ($kind:ident, $label:ident: $($parts:tt)*) => {
        Production { kind: Kind::$kind, naming: Naming::Always(Label::$label), parts: row![$($parts)*] }
    };
}

/// Returns what the rule says of its branches.
pub fn production_of(rule: Rule) -> Production
    ensures kind { result.kind ≡ rows.kind_of rule }
    ensures naming { result.naming ≡ rows.naming_of rule }
    ensures parts { result.parts.now ≡ rows.row rule }
{
    match rule {
        // expressions
        Rule::Strings => rule![Post, Strings: fork FirstString],
        Rule::Paren => rule![Post, Paren: word ParenOpen, child Expr, one Close],
        Rule::Literal =>
            rule![Post, Literal: word LiteralOpen, child TypeName, one Close, child InitList],
        Rule::Cast =>
            rule![CastLevel, Cast: word CastOpen, child TypeName, one Close, child CastLevel],
        Rule::PreOp => rule![Un, PreOp: one Step, child Un],
        Rule::Unary => rule![Un, Unary: word Prefix, child CastLevel],
        Rule::SizeofExpr => rule![Un, SizeofExpr: one SizeofExpr, child Un],
        Rule::SizeofType =>
            rule![Un, SizeofType: one SizeofType, word AnyOpen, child TypeName, one Close],
        Rule::PatBranches => rule![Post, by PatBySign: one PatOpen, child Expr, fork FirstBranch],
        Rule::Index =>
            rule![Post, Index: child Post, one LeftBracket, child Expr, one RightBracket],
        Rule::Call => rule![Post, Call: child Post, word AnyOpen, child Args, one Close],
        Rule::Member => rule![Post, Member: child Post, one Dot, word Name],
        Rule::Arrow => rule![Post, Arrow: child Post, one Arrow, word Name],
        Rule::PostOp => rule![Post, PostOp: child Post, one Step],
        Rule::OrOr => rule![OrOr, Binary: child OrOr, one OrOr, child AndAnd],
        Rule::AndAnd => rule![AndAnd, Binary: child AndAnd, one AndAnd, child Or],
        Rule::Or => rule![Or, Binary: child Or, one Or, child Xor],
        Rule::Xor => rule![Xor, Binary: child Xor, one Xor, child And],
        Rule::And => rule![And, Binary: child And, one And, child Equality],
        Rule::Equality => rule![Equality, Binary: child Equality, one Equality, child Order],
        Rule::Order => rule![Order, Binary: child Order, one Order, child Shift],
        Rule::Shift => rule![Shift, Binary: child Shift, one Shift, child Sum],
        Rule::Sum => rule![Sum, Binary: child Sum, one Plus, child Product],
        Rule::Product => rule![Product, Binary: child Product, word Times, child CastLevel],
        Rule::Cond =>
            rule![CondLevel, Cond: child OrOr, one Question, child Expr, one Colon, child CondLevel],
        Rule::CondShort =>
            rule![CondLevel, CondShort: child OrOr, one ShortQuestion, one Colon, child CondLevel],
        Rule::Assign => rule![AssignLevel, Assign: child Un, word Assign, child AssignLevel],
        Rule::Comma => rule![Expr, Comma: child Expr, one Comma, child AssignLevel],

        // argument lists
        Rule::Args => rule![Args, Args: fork FirstArg],
        Rule::TypeArg => rule![TypeArg, TypeArg: child TypeName],

        // types
        Rule::TypeName => rule![TypeName, TypeName: child Specs, fork Nameless],
        Rule::Specs => rule![Specs, Specs: fork NoType],
        Rule::StructUse => rule![Tag, StructUse: one Struct, word Name],
        Rule::StructDef => rule![Tag, StructDef: one StructBody, fork StructName],
        Rule::EnumUse => rule![Tag, EnumUse: one Enum, word Name],
        Rule::EnumDef => rule![Tag, EnumDef: one EnumBody, fork EnumName],
        Rule::Field => rule![Field, Field: child Specs, fork FirstField],
        Rule::MacroItem => rule![MacroItem, MacroItem: fork MacroWords],
        Rule::NamelessBits => rule![NamelessBits, Bits: one Colon, child CondLevel],

        // declarators
        Rule::Pointer => rule![Declarator, Pointer: one Star, fork Pointee],
        Rule::DParen => rule![Direct, DParen: word NestOpen, child Declarator, one Close],
        Rule::NamelessArray => rule![Direct, DArray: one LeftBracket, fork Size],
        Rule::NamelessFun => rule![Direct, DFun: word ListOpen, child Params, one Close],
        Rule::DArray => rule![Direct, DArray: child Direct, one LeftBracket, fork Size],
        Rule::DFun => rule![Direct, DFun: child Direct, word AnyOpen, child Params, one Close],
        Rule::Bits => rule![FieldDeclarator, Bits: child Declarator, one Colon, child CondLevel],
        Rule::InitDecl =>
            rule![InitDeclarator, InitDecl: child Declarator, one Equal, fork InitValue],
        Rule::Params => rule![Params, Params: fork FirstParam],
        Rule::Param => rule![Param, Param: child Specs, fork ParamName],

        // initialisers
        Rule::InitList => rule![InitList, InitList: one LeftBrace, fork FirstInit],
        Rule::InitItem => rule![InitItem, InitItem: child Designator, fork MoreDesignators],
        Rule::DotName => rule![Designator, DotName: one Dot, word Name],
        Rule::At => rule![Designator, by AtByRange: one LeftBracket, child CondLevel, fork AtEnd],

        // enumerators
        Rule::EnumValue => rule![Enumerator, EnumValue: child EnumName, one Equal, child CondLevel],

        // declarations
        Rule::Decl => rule![Decl, Decl: child Specs, fork FirstDeclarator],

        // statements
        Rule::ExprStat => rule![Body, ExprStat: child Expr, one Semicolon],
        Rule::If =>
            rule![Body, by IfByElse: one If, word AnyOpen, child Expr, one Close, child Body, fork ElseOrNot],
        Rule::Return => rule![Body, Return: one Return, fork ReturnValue],
        Rule::Block => rule![Block, Block: one LeftBrace, fork BlockStatements],
        Rule::Goto => rule![Body, Goto: one Goto, word Name, one Semicolon],
        Rule::Label => rule![Statement, Label: one NameOfLabel, one Colon],
        Rule::Case => rule![Statement, by CaseByRange: one Case, child Expr, fork CaseEnd],
        Rule::Break => rule![Body, Break: one Break, one Semicolon],
        Rule::For => rule![Body, by ForByDecl: one For, word AnyOpen, fork ForInit],
        Rule::While =>
            rule![Body, While: one While, word AnyOpen, child Expr, one Close, child Body],
        Rule::Switch =>
            rule![Body, Switch: one Switch, word AnyOpen, child Expr, one Close, child Body],
        Rule::Iterator =>
            rule![Body, Iterator: word IteratorName, word AnyOpen, child Args, one Close, child Body],
        Rule::Default => rule![Statement, Default: one Default, one Colon],
        Rule::Continue => rule![Body, Continue: one Continue, one Semicolon],
        Rule::Do =>
            rule![Body, Do: one Do, child Body, one While, word AnyOpen, child Expr, one Close, one Semicolon],
        Rule::Empty => rule![Body, Empty: one Semicolon],
        Rule::PatLists =>
            rule![Body, by PatBySign: one PatOpenOfStatements, child StmtList, fork FirstList],
        Rule::PatNest => rule![PatNest, PatNest: fork NestStart],
        Rule::StmtList => rule![StmtList, StmtList: fork ListStatements],

        // items
        Rule::External => rule![External, by DeclByBlock: child Specs, fork FirstExternal],
        Rule::ExternalMacro => rule![External, by MacroByBlock: fork MacroNames],
        Rule::ExternalEmpty => rule![External, Empty: one Semicolon],
    }
}

/// Returns the tightest kind of a branch of the rule.
pub fn kind_of(rule: Rule) -> Kind
    ensures value { result ≡ rows.kind_of rule }
{
    production_of(rule).kind
}

/// Returns the parts of the rule's row, in order.
pub fn row(rule: Rule) -> &'static [Symbol]
    ensures value { result.now ≡ rows.row rule }
{
    production_of(rule).parts
}

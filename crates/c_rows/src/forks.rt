// The ways in which rows continue at forks, in the order of the rows.
ghost use Rattle.std.specs.Prelude.{◌≡◌, map};
ghost use Rattle.c_rows.specs.Rows as rows;

use crate::{Class, Fork, Kind, Symbol, Word};

/// Returns the ways in which a row may continue at the fork.
pub fn ways(fork: Fork) -> &'static [&'static [Symbol]]
    ensures value { map (λ way. way.now) result.now ≡ rows.ways fork }
{
    match fork {
        // two or more strings and names, no two names side by side, and at least one string
        Fork::FirstString => &[
            row![word Str, fork SecondString],
            row![word Name, word Str, fork AfterString],
        ],
        Fork::SecondString => &[
            row![word Str, fork AfterString],
            row![word Name, fork AfterName],
        ],
        Fork::AfterString => &[
            row![word Str, fork AfterString],
            row![word Name, fork AfterName],
            row![],
        ],
        Fork::AfterName => &[row![word Str, fork AfterString], row![]],

        // members separated by commas, possibly none
        Fork::FirstArg => &[
            row![any Argument, fork MoreArgs],
            row![word ArgRun, fork MoreArgs],
            row![],
        ],
        Fork::MoreArgs => &[row![one Comma, fork NextArg], row![]],
        Fork::NextArg => &[
            row![any Argument, fork MoreArgs],
            row![word ArgRun, fork MoreArgs],
        ],

        // two or more branches, all separated by `\|` or all by `\&`
        Fork::FirstBranch => &[
            row![one PatBar, child Expr, fork MoreOr],
            row![one PatAmp, child Expr, fork MoreAnd],
        ],
        Fork::MoreOr => &[
            row![one PatBar, child Expr, fork MoreOr],
            row![one PatClose],
        ],
        Fork::MoreAnd => &[
            row![one PatAmp, child Expr, fork MoreAnd],
            row![one PatClose],
        ],

        // an optional declarator
        Fork::Nameless => &[row![child Declarator], row![]],

        // modifiers in any order, with exactly one type part: basic words, a tag or a name
        Fork::NoType => &[
            row![word Modifier, fork NoType],
            row![one Basic, fork BasicType],
            row![child Tag, fork OneType],
            row![word Name, fork OneType],
        ],
        Fork::BasicType => &[row![word BasicOrModifier, fork BasicType], row![]],
        Fork::OneType => &[row![word Modifier, fork OneType], row![]],

        // an optional name, and the members
        Fork::StructName => &[
            row![word Name, one LeftBrace, fork Members],
            row![one LeftBrace, fork Members],
        ],
        Fork::Members => &[
            row![child Field, fork Members],
            row![child MacroItem, fork Members],
            row![one RightBrace],
        ],

        // declarators and bits separated by commas, possibly none
        Fork::FirstField => &[
            row![child FieldDeclarator, fork MoreFields],
            row![child NamelessBits, fork MoreFields],
            row![one Semicolon],
        ],
        Fork::MoreFields => &[row![one Comma, fork NextField], row![one Semicolon]],
        Fork::NextField => &[
            row![child FieldDeclarator, fork MoreFields],
            row![child NamelessBits, fork MoreFields],
        ],

        // an optional name, and enumerators separated by commas, with an optional trailing comma
        Fork::EnumName => &[
            row![word Name, one LeftBrace, child Enumerator, fork MoreEnumerators],
            row![one LeftBrace, child Enumerator, fork MoreEnumerators],
        ],
        Fork::MoreEnumerators => &[row![one Comma, fork NextEnumerator], row![one RightBrace]],
        Fork::NextEnumerator => &[
            row![child Enumerator, fork MoreEnumerators],
            row![one RightBrace],
        ],

        // qualifiers, and an optional declarator
        Fork::Pointee => &[
            row![one Qualifier, fork Pointee],
            row![child Declarator],
            row![],
        ],

        // an optional size
        Fork::Size => &[
            row![child CondLevel, one RightBracket],
            row![one RightBracket],
        ],

        // parameters separated by commas, possibly none; the last may be `...`
        Fork::FirstParam => &[
            row![child Param, fork MoreParams],
            row![word ParamRun, fork MoreParams],
            row![one Ellipsis],
            row![],
        ],
        Fork::MoreParams => &[row![one Comma, fork NextParam], row![]],
        Fork::NextParam => &[
            row![child Param, fork MoreParams],
            row![word ParamRun, fork MoreParams],
            row![one Ellipsis],
        ],

        // an optional declarator
        Fork::ParamName => &[row![child Declarator], row![]],

        // members separated by commas, possibly none, with an optional trailing comma
        Fork::FirstInit => &[
            row![child AssignLevel, fork MoreInits],
            row![child InitList, fork MoreInits],
            row![child InitItem, fork MoreInits],
            row![one Comma, one RightBrace],
            row![one RightBrace],
        ],
        Fork::MoreInits => &[row![one Comma, fork NextInit], row![one RightBrace]],
        Fork::NextInit => &[
            row![child AssignLevel, fork MoreInits],
            row![child InitList, fork MoreInits],
            row![child InitItem, fork MoreInits],
            row![one RightBrace],
        ],

        // further designators, `=`, and an expression or a list
        Fork::MoreDesignators => &[
            row![child Designator, fork MoreDesignators],
            row![one Equal, fork ItemValue],
        ],
        Fork::ItemValue => &[row![child AssignLevel], row![child InitList]],

        // `]`, or `... e ]`
        Fork::AtEnd => &[
            row![one RightBracket],
            row![one Ellipsis, child CondLevel, one RightBracket],
        ],

        // storage words, a name, its arguments
        Fork::MacroWords => &[
            row![word Storage, fork MacroWords],
            row![word Name, word AnyOpen, child Args, one Close, one Semicolon],
        ],

        // declarators and initialisers separated by commas, possibly none
        Fork::FirstDeclarator => &[
            row![child InitDeclarator, fork MoreDeclarators],
            row![one Semicolon],
        ],
        Fork::MoreDeclarators => &[
            row![one Comma, child InitDeclarator, fork MoreDeclarators],
            row![one Semicolon],
        ],

        // an expression or a list
        Fork::InitValue => &[row![child AssignLevel], row![child InitList]],

        // declarations and statements, no two of `...` and PatNest side by side, and `}`
        Fork::BlockStatements => &[
            row![child Decl, fork BlockStatements],
            row![child Statement, fork BlockStatements],
            row![one Dots, fork BlockBehindDots],
            row![child PatNest, fork BlockBehindDots],
            row![one RightBrace],
        ],
        Fork::BlockBehindDots => &[
            row![child Decl, fork BlockStatements],
            row![child Statement, fork BlockStatements],
            row![one RightBrace],
        ],

        // an optional `else` and its body
        Fork::ElseOrNot => &[row![one Else, child Body], row![]],

        // what is in the brackets, and a body
        Fork::ForInit => &[
            row![child Decl, fork ForTest],
            row![child Expr, one Semicolon, fork ForTest],
            row![one Semicolon, fork ForTest],
        ],
        Fork::ForTest => &[
            row![child Expr, one Semicolon, fork ForStep],
            row![one Semicolon, fork ForStep],
        ],
        Fork::ForStep => &[
            row![child Expr, one Close, child Body],
            row![one Close, child Body],
        ],

        // `:`, or `... e :`
        Fork::CaseEnd => &[
            row![one Colon],
            row![one Ellipsis, child CondLevel, one Colon],
        ],

        // an optional expression
        Fork::ReturnValue => &[row![child Expr, one Semicolon], row![one Semicolon]],

        // declarations and statements, no two of `...` and PatNest side by side
        Fork::ListStatements => &[
            row![child Decl, fork ListStatements],
            row![child Statement, fork ListStatements],
            row![one Dots, fork ListBehindDots],
            row![child PatNest, fork ListBehindDots],
            row![],
        ],
        Fork::ListBehindDots => &[
            row![child Decl, fork ListStatements],
            row![child Statement, fork ListStatements],
            row![],
        ],

        // declarators and initialisers separated by commas, possibly none; or, after the first, a Block
        Fork::FirstExternal => &[
            row![child InitDeclarator, fork AfterExternal],
            row![one Semicolon],
        ],
        Fork::AfterExternal => &[
            row![one Comma, child InitDeclarator, fork MoreDeclarators],
            row![one Semicolon],
            row![child Block],
        ],

        // storage words, a name, its arguments, and `;` or a Block
        Fork::MacroNames => &[
            row![word Storage, fork MacroNames],
            row![word Name, word AnyOpen, child Args, one Close, fork MacroEnd],
        ],
        Fork::MacroEnd => &[row![one Semicolon], row![child Block]],

        // two or more lists of statements, all separated by `\|` or all by `\&`
        Fork::FirstList => &[
            row![one PatBar, child StmtList, fork MoreListsOr],
            row![one PatAmp, child StmtList, fork MoreListsAnd],
        ],
        Fork::MoreListsOr => &[
            row![one PatBar, child StmtList, fork MoreListsOr],
            row![one PatClose],
        ],
        Fork::MoreListsAnd => &[
            row![one PatAmp, child StmtList, fork MoreListsAnd],
            row![one PatClose],
        ],

        // an expression, or declarations and statements as in a Block, and the sign that ends it
        Fork::NestStart => &[
            row![one PatNestOfExpression, child Expr, one PatNestClose],
            row![one PatNestOfStatements, fork NestStatements],
        ],
        Fork::NestStatements => &[
            row![child Decl, fork NestStatements],
            row![child Statement, fork NestStatements],
            row![one Dots, fork NestBehindDots],
            row![child PatNest, fork NestBehindDots],
            row![one PatNestClose],
        ],
        Fork::NestBehindDots => &[
            row![child Decl, fork NestStatements],
            row![child Statement, fork NestStatements],
            row![one PatNestClose],
        ],
    }
}

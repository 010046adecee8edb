// What is at the front of a list of tokens.

/// What is at the front of a list of tokens: its first token, and what the grammar asks of the tokens after it.
#[derive(Clone, Copy)]
pub enum Class {
    /// No token.
    End,

    /// A name of which nothing else is known.
    Name,
    /// A name directly before a string: `PRIu64 "x"`
    NameOfString,
    /// A name before a `(` that no `*` follows: `f(x)`
    NameOfCall,
    /// A name before a `:`: `out:`
    NameOfLabel,
    /// A name that begins a declaration at the start of a statement: `foo_t *p;`
    NameOfDecl,
    /// A name before a group in brackets that does not begin with `*`, and that the body of an iterator follows:
    /// `list_for_each(p, head) f(p);`, `foo(x) {`
    NameOfIterator,
    /// The same, if the group begins with `*`: `for_each(*p) {`
    NameOfStarIterator,
    /// A number, a character, or a metavariable for an expression or a constant.
    Operand,
    /// A string by itself.
    Str,
    /// A string directly before a string or a name: `"a" "b"`
    StrOfString,

    /// `(` of an expression in brackets. Among declarators it begins one: `(*p)`, `((p))`, `(p)`
    ParenNest,
    /// `(` of an expression in brackets. Among declarators it begins parameters: `(1)`, `()`
    ParenList,
    /// `(` of a cast. Among declarators it begins one: `(foo_t) x`, where `foo_t` is not in the names
    CastNest,
    /// `(` of a cast. Among declarators it begins parameters: `(int) x`
    CastList,
    /// `(` of a compound literal. Among declarators it begins one: `(foo_t){ 1 }`, where `foo_t` is not in the names
    LiteralNest,
    /// `(` of a compound literal. Among declarators it begins parameters: `(int){ 1 }`
    LiteralList,

    /// `)`
    Close,
    /// `[`
    LeftBracket,
    /// `]`
    RightBracket,
    /// `{`
    LeftBrace,
    /// `}`
    RightBrace,
    /// `.`
    Dot,
    /// `->`
    Arrow,
    /// `++`, `--`
    Step,
    /// `&`
    And,
    /// `*`
    Star,
    /// `+`, `-`
    Plus,
    /// `~`, `!`
    Not,
    /// `/`, `%`
    Slash,
    /// `<<`, `>>`
    Shift,
    /// `<`, `>`, `<=`, `>=`
    Order,
    /// `==`, `!=`
    Equality,
    /// `^`
    Xor,
    /// `|`
    Or,
    /// `&&`
    AndAnd,
    /// `||`
    OrOr,
    /// `?`
    Question,
    /// `?` directly before `:`
    ShortQuestion,
    /// `:`
    Colon,
    /// `;`
    Semicolon,
    /// `,`
    Comma,
    /// `=`
    Equal,
    /// `*=`, `+=` and the other assignments with an operator
    Assign,
    /// `...` of C
    Ellipsis,

    /// `sizeof` before an expression
    SizeofExpr,
    /// `sizeof`, `_Alignof` before a type in brackets
    SizeofType,
    /// A word of a basic type: `int`
    Basic,
    /// `const`, `volatile`, `restrict`
    Qualifier,
    /// `inline`, `_Noreturn`
    Function,
    /// `static` and the other storage words
    Storage,
    /// A storage word before any others, a name, and a `(` that no `*` follows: `static DEFINE_MUTEX(m)`
    StorageOfMacro,
    /// `struct`, `union` if no members follow
    Struct,
    /// `struct`, `union` before `{`, or before a name and `{`
    StructBody,
    /// `enum` if no members follow
    Enum,
    /// `enum` before `{`, or before a name and `{`
    EnumBody,
    /// A metavariable for a type, before `*`, `(` or `[`
    TypOfDeclarator,
    /// A metavariable for a type, before anything else
    Typ,

    /// `...` of a pattern
    Dots,
    /// A metavariable for a list of expressions
    ExprList,
    /// A metavariable for a list of parameters
    ParamList,
    /// A metavariable for a statement
    Stmt,
    /// `\(` of expressions
    PatOpen,
    /// `\(` of lists of statements
    PatOpenOfStatements,
    /// `\|`
    PatBar,
    /// `\&`
    PatAmp,
    /// `\)`
    PatClose,
    /// `<...`, `<+...` before an expression
    PatNestOfExpression,
    /// `<...`, `<+...` before statements
    PatNestOfStatements,
    /// `...>`, `...+>`
    PatNestClose,

    /// `if`
    If,
    /// `else`
    Else,
    /// `while`
    While,
    /// `do`
    Do,
    /// `for`
    For,
    /// `switch`
    Switch,
    /// `case`
    Case,
    /// `default`
    Default,
    /// `return`
    Return,
    /// `goto`
    Goto,
    /// `break`
    Break,
    /// `continue`
    Continue,
    /// Anything else.
    Other,
}

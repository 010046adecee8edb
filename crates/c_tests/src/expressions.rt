// Worked rows of expressions, types, declarators, initialisers and patterns.
use crate::words::{names_with_t, shown, tokens_of};
use c_expr::{ParseFault, parse_declarator, parse_expr, parse_init, parse_specs, parse_type_name};
use c_rows::Kind;
use c_terms::{Names, NoMemory, Token, Tree};
use std::alloc::Global;
use std::test::Fail;

/// Tokens, separated by blanks, and the tree of the expression that they form. `t` is in the names, and `u` is not.
/// `dots:...` and `expr:e` are tokens of a pattern.
const EXPRESSIONS: [(&str, &str); 41] = [
    // groups
    ("a - b - c", "(Binary (Binary a - b) - c)"),
    ("a -", "no tree"),
    ("a = b = c", "(Assign a = (Assign b = c))"),
    ("a ? b : c ? d : e", "(Cond a ? b : (Cond c ? d : e))"),
    ("a ? : b", "(CondShort a ? : b)"),
    ("a , b , c", "(Comma (Comma a , b) , c)"),
    (
        "a || b && c | d ^ e & f == g < h << i + j * k",
        "(Binary a || (Binary b && (Binary c | (Binary d ^ (Binary e & (Binary f == (Binary g < (Binary h << (Binary i + (Binary j * k))))))))))",
    ),
    ("a . x -> y ++", "(PostOp (Arrow (Member a . x) -> y) ++)"),
    ("- ++ a", "(Unary - (PreOp ++ a))"),
    // strings
    ("'c' + \"s\"", "(Binary 'c' + \"s\")"),
    ("\"a\" M \"b\"", "(Strings \"a\" M \"b\")"),
    ("\"a\" M N", "no tree"),
    // types in brackets
    ("( t ) - x", "(Cast ( (TypeName (Specs t)) ) (Unary - x))"),
    ("( u ) - x", "(Binary (Paren ( u )) - x)"),
    ("( u ) x", "(Cast ( (TypeName (Specs u)) ) x)"),
    (
        "( t ) ( x )",
        "(Cast ( (TypeName (Specs t)) ) (Paren ( x )))",
    ),
    ("( u ) ( x )", "(Call (Paren ( u )) ( (Args x) ))"),
    (
        "( t ) { 1 }",
        "(Literal ( (TypeName (Specs t)) ) (InitList { 1 }))",
    ),
    (
        "sizeof ( t )",
        "(SizeofType sizeof ( (TypeName (Specs t)) ))",
    ),
    ("sizeof ( u )", "(SizeofExpr sizeof (Paren ( u )))"),
    (
        "_Alignof ( int * )",
        "(SizeofType _Alignof ( (TypeName (Specs int) (Pointer *)) ))",
    ),
    // members of a call's list
    ("f ( )", "(Call f ( (Args) ))"),
    ("f ( a , u32 )", "(Call f ( (Args a , u32) ))"),
    (
        "f ( int , a )",
        "(Call f ( (Args (TypeArg (TypeName (Specs int))) , a) ))",
    ),
    (
        "f ( t * )",
        "(Call f ( (Args (TypeArg (TypeName (Specs t) (Pointer *)))) ))",
    ),
    ("f ( a * b )", "(Call f ( (Args (Binary a * b)) ))"),
    (
        "f ( u [ 3 ] , t [ 3 ] )",
        "(Call f ( (Args (Index u [ 3 ]) , (Index t [ 3 ])) ))",
    ),
    // patterns
    ("f ( expr:e , dots:... )", "(Call f ( (Args e , ...) ))"),
    ("f ( ... )", "no tree"),
    (
        "f ( list:l , type:T )",
        "(Call f ( (Args l , (TypeArg T)) ))",
    ),
    ("f ( params:p )", "no tree"),
    ("( type:T ) const:c", "(Cast ( T ) c)"),
    ("( type:T * ) x", "(Cast ( (TypeName T (Pointer *)) ) x)"),
    ("( ident:i ) expr:e", "(Cast ( (TypeName (Specs i)) ) e)"),
    ("expr:e . ident:i", "(Member e . i)"),
    ("\\( a \\| b , c \\)", "(PatOr \\( a \\| (Comma b , c) \\))"),
    ("\\( a \\& b \\& c \\)", "(PatAnd \\( a \\& b \\& c \\))"),
    ("\\( a \\| b \\& c \\)", "no tree"),
    ("\\( a \\)", "no tree"),
    ("<... a ...>", "no tree"),
    ("stmt:s", "no tree"),
];

/// The same for the other kinds.
const OTHERS: [(Kind, &str, &str); 17] = [
    (
        Kind::TypeName,
        "struct s *",
        "(TypeName (Specs (StructUse struct s)) (Pointer *))",
    ),
    (
        Kind::TypeName,
        "int ( t )",
        "(TypeName (Specs int) (DFun ( (Params (Param (Specs t))) )))",
    ),
    (Kind::TypeName, "int ( u )", "no tree"),
    (Kind::TypeName, "static int", "no tree"),
    (Kind::TypeName, "type:T", "T"),
    (Kind::Specs, "unsigned long", "(Specs unsigned long)"),
    (Kind::Specs, "int t", "no tree"),
    (
        Kind::Specs,
        "struct s { int x , y : 3 ; MACRO ( z ) ; t : 2 ; }",
        "(Specs (StructDef struct s { (Field (Specs int) x , (Bits y : 3) ;) (MacroItem MACRO ( (Args z) ) ;) (Field (Specs t) (Bits : 2) ;) }))",
    ),
    (
        Kind::Specs,
        "enum e { A , B = 2 , }",
        "(Specs (EnumDef enum e { A , (EnumValue B = 2) , }))",
    ),
    (
        Kind::Specs,
        "const enum e",
        "(Specs const (EnumUse enum e))",
    ),
    (
        Kind::Declarator,
        "* p [ 3 ]",
        "(Pointer * (DArray p [ 3 ]))",
    ),
    (
        Kind::Declarator,
        "( * f ) ( int x , ... )",
        "(DFun (DParen ( (Pointer * f) )) ( (Params (Param (Specs int) x) , ...) ))",
    ),
    (
        Kind::Declarator,
        "f ( params:p )",
        "(DFun f ( (Params p) ))",
    ),
    (Kind::InitList, "{ 1 , 2 }", "(InitList { 1 , 2 })"),
    (
        Kind::InitList,
        "{ { } , }",
        "(InitList { (InitList { }) , })",
    ),
    (
        Kind::InitList,
        "{ [ 1 ... 2 ] . x = 3 , [ 4 ] = { 5 } }",
        "(InitList { (InitItem (AtRange [ 1 ... 2 ]) (DotName . x) = 3) , (InitItem (At [ 4 ]) = (InitList { 5 })) })",
    ),
    (Kind::InitList, "{ . x }", "no tree"),
];

/// Parses all the tokens with the call that is named after the kind.
fn parse_whole(
    alloc: Global,
    kind: Kind,
    tokens: &[Token],
    names: &Names,
) -> Result<Tree, ParseFault> {
    let to = tokens.len();
    match kind {
        Kind::TypeName => parse_type_name(alloc, tokens, names, 0, to),
        Kind::Specs => parse_specs(alloc, tokens, names, 0, to),
        Kind::Declarator => parse_declarator(alloc, tokens, names, 0, to),
        Kind::InitList => parse_init(alloc, tokens, names, 0, to),
        _ => parse_expr(alloc, tokens, names, 0, to),
    }
}

/// Returns what the words are read as, as text.
fn read(alloc: Global, kind: Kind, words: &str) -> Result<String, NoMemory> {
    let tokens = tokens_of(alloc, words)?;
    let names = names_with_t(alloc)?;
    let answer = parse_whole(alloc, kind, &tokens, &names);
    shown(alloc, answer, tokens.len())
}

#[test]
fn worked_rows_have_their_trees(rt: HostRuntime) -> Result<(), Fail> {
    for (words, want) in EXPRESSIONS {
        let got = read(rt.alloc(), Kind::Expr, words)?;
        assert!(rt; got.as_str() == want, "{words}: {got}");
    }
    for (kind, words, want) in OTHERS {
        let got = read(rt.alloc(), kind, words)?;
        assert!(rt; got.as_str() == want, "{words}: {got}");
    }
    Ok(())
}

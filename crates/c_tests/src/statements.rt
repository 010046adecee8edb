// Worked rows of declarations, statements and items.
use crate::words::{names_with_t, shown, tokens_of};
use c_expr::{ParseFault, parse_decl, parse_item, parse_stmts};
use c_terms::{Names, NoMemory, Token, Tree};
use std::alloc::Global;
use std::test::Fail;

/// How tokens are read.
#[derive(Clone, Copy, Drop)]
enum Form {
    Declaration,
    Statements,
    Item,
}

/// Tokens, separated by blanks, and the tree of the declaration that they form. `t` is in the names, and `u` is not.
const DECLARATIONS: [(&str, &str); 4] = [
    ("int x = 1 ;", "(Decl (Specs int) (InitDecl x = 1) ;)"),
    ("u ( x ) ;", "(Decl (Specs u) (DParen ( x )) ;)"),
    ("u ( x )", "no tree"),
    ("int x", "no tree"),
];

/// The same for lists of statements. `dots:...` and `expr:e` are tokens of a pattern.
const STATEMENTS: [(&str, &str); 30] = [
    // expressions and declarations
    ("f ( ) ;", "(StmtList (ExprStat (Call f ( (Args) )) ;))"),
    ("; { }", "(StmtList (Empty ;) (Block { }))"),
    ("u * p ;", "(StmtList (Decl (Specs u) (Pointer * p) ;))"),
    (
        "u * p + q ;",
        "(StmtList (ExprStat (Binary (Binary u * p) + q) ;))",
    ),
    ("t * p + q ;", "no tree"),
    (
        "int x = 1 , y [ 2 ] = { 3 } ;",
        "(StmtList (Decl (Specs int) (InitDecl x = 1) , (InitDecl (DArray y [ 2 ]) = (InitList { 3 })) ;))",
    ),
    ("int x : 3 ;", "no tree"),
    ("u ( p ) ;", "(StmtList (ExprStat (Call u ( (Args p) )) ;))"),
    // bodies
    (
        "if ( a ) if ( b ) f ( ) ; else g ( ) ;",
        "(StmtList (If if ( a ) (IfElse if ( b ) (ExprStat (Call f ( (Args) )) ;) else (ExprStat (Call g ( (Args) )) ;))))",
    ),
    (
        "if ( a ) while ( b ) if ( c ) ; else ;",
        "(StmtList (If if ( a ) (While while ( b ) (IfElse if ( c ) (Empty ;) else (Empty ;)))))",
    ),
    (
        "if ( a ) do if ( b ) ; while ( c ) ; else ;",
        "(StmtList (IfElse if ( a ) (Do do (If if ( b ) (Empty ;)) while ( c ) ;) else (Empty ;)))",
    ),
    ("if ( a ) int x ;", "no tree"),
    ("if ( a ) out : f ( ) ;", "no tree"),
    (
        "for ( int i = 0 ; i ; ) ;",
        "(StmtList (ForDecl for ( (Decl (Specs int) (InitDecl i = 0) ;) i ; ) (Empty ;)))",
    ),
    (
        "for ( u * p ; p ; ) g ( ) ;",
        "(StmtList (ForDecl for ( (Decl (Specs u) (Pointer * p) ;) p ; ) (ExprStat (Call g ( (Args) )) ;)))",
    ),
    (
        "for ( ; ; i ++ ) { break ; continue ; }",
        "(StmtList (For for ( ; ; (PostOp i ++) ) (Block { (Break break ;) (Continue continue ;) })))",
    ),
    (
        "switch ( a ) { case 1 ... 2 : return ; case b , c : default : return d ; }",
        "(StmtList (Switch switch ( a ) (Block { (CaseRange case 1 ... 2 :) (Return return ;) (Case case (Comma b , c) :) (Default default :) (Return return d ;) })))",
    ),
    ("case b , c ... 2 :", "no tree"),
    (
        "out : goto out ;",
        "(StmtList (Label out :) (Goto goto out ;))",
    ),
    (
        "u ( p ) { }",
        "(StmtList (Iterator u ( (Args p) ) (Block { })))",
    ),
    (
        "my_for_each ( p ) f ( p ) ;",
        "(StmtList (Iterator my_for_each ( (Args p) ) (ExprStat (Call f ( (Args p) )) ;)))",
    ),
    (
        "my_for_each ( p ) ;",
        "(StmtList (ExprStat (Call my_for_each ( (Args p) )) ;))",
    ),
    // patterns
    (
        "dots:... f ( dots:... ) ; dots:...",
        "(StmtList ... (ExprStat (Call f ( (Args ...) )) ;) ...)",
    ),
    ("dots:... dots:...", "no tree"),
    ("dots:... <... a ...>", "no tree"),
    ("if ( expr:e ) stmt:s", "(StmtList (If if ( e ) s))"),
    (
        "<... f ( x ) ...>",
        "(StmtList (PatNest <... (Call f ( (Args x) )) ...>))",
    ),
    (
        "<... f ( x ) ; dots:... ...>",
        "(StmtList (PatNest <... (ExprStat (Call f ( (Args x) )) ;) ... ...>))",
    ),
    (
        "\\( a ; \\| \\)",
        "(StmtList (PatOr \\( (StmtList (ExprStat a ;)) \\| (StmtList) \\)))",
    ),
    (
        "\\( a \\& b \\) ;",
        "(StmtList (ExprStat (PatAnd \\( a \\& b \\)) ;))",
    ),
];

/// The same for items.
const ITEMS: [(&str, &str); 12] = [
    (
        "int f ( u x ) ;",
        "(Decl (Specs int) (DFun f ( (Params (Param (Specs u) x)) )) ;)",
    ),
    (
        "static int * f ( void ) { }",
        "(FunDef (Specs static int) (Pointer * (DFun f ( (Params (Param (Specs void))) ))) (Block { }))",
    ),
    ("int x { }", "no tree"),
    (
        "int ( * f ( ) ) [ 3 ] { }",
        "(FunDef (Specs int) (DArray (DParen ( (Pointer * (DFun f ( (Params) ))) )) [ 3 ]) (Block { }))",
    ),
    ("int f ( ) = 1 { }", "no tree"),
    ("static M ( x ) ;", "(MacroItem static M ( (Args x) ) ;)"),
    (
        "M ( x ) { f ( ) ; }",
        "(MacroFun M ( (Args x) ) (Block { (ExprStat (Call f ( (Args) )) ;) }))",
    ),
    (
        "u ( * f ) ( int ) ;",
        "(Decl (Specs u) (DFun (DParen ( (Pointer * f) )) ( (Params (Param (Specs int))) )) ;)",
    ),
    (
        "int x , * y = 1 ;",
        "(Decl (Specs int) x , (InitDecl (Pointer * y) = 1) ;)",
    ),
    (";", "(Empty ;)"),
    ("int f ( ) { asm volatile ( x ) ; }", "no tree"),
    ("f ( ) ; ;", "no tree"),
];

/// Returns what the words are read as, as text.
fn parsed(alloc: Global, form: Form, tokens: &[Token], names: &Names) -> Result<Tree, ParseFault> {
    let to = tokens.len();
    match form {
        Form::Declaration => parse_decl(alloc, tokens, names, 0, to),
        Form::Statements => parse_stmts(alloc, tokens, names, 0, to),
        Form::Item => parse_item(alloc, tokens, names, 0, to),
    }
}

fn read(alloc: Global, form: Form, words: &str) -> Result<String, NoMemory> {
    let tokens = tokens_of(alloc, words)?;
    let names = names_with_t(alloc)?;
    shown(alloc, parsed(alloc, form, &tokens, &names), tokens.len())
}

/// Returns the first row whose words are read as another tree.
fn first_wrong<'a>(
    alloc: Global,
    form: Form,
    rows: &[(&'a str, &str)],
) -> Result<Option<&'a str>, NoMemory> {
    for (words, want) in rows {
        if read(alloc, form, words)?.as_str() != *want {
            return Ok(Some(words));
        }
    }
    Ok(None)
}

#[test]
fn worked_rows_have_their_trees(rt: HostRuntime) -> Result<(), Fail> {
    let alloc = rt.alloc();
    assert_eq!(rt; first_wrong(alloc, Form::Declaration, &DECLARATIONS)?, None);
    assert_eq!(rt; first_wrong(alloc, Form::Statements, &STATEMENTS)?, None);
    assert_eq!(rt; first_wrong(alloc, Form::Item, &ITEMS)?, None);
    Ok(())
}

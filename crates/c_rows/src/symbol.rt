// The parts of rows.

use crate::{Kind, Word};

/// A part of a row.
#[derive(Clone, Copy)]
pub enum Symbol {
    /// A token
    Word(Word),
    /// A tree of the kind
    Child(Kind),
    /// A member of an argument list: an expression without commas, or a type
    Argument,
    /// The rest of the row, in one of the ways of the fork
    Fork(Fork),
}

/// A place at which a row continues in one of several ways.
#[derive(Clone, Copy)]
pub enum Fork {
    /// The start of a Strings
    FirstString,
    /// A Strings after its first string
    SecondString,
    /// A Strings after a string
    AfterString,
    /// A Strings after a name
    AfterName,
    /// The start of an Args
    FirstArg,
    /// An Args after a member
    MoreArgs,
    /// An Args after a comma
    NextArg,
    /// A PatOr or PatAnd after its first branch
    FirstBranch,
    /// A PatOr after a later branch
    MoreOr,
    /// A PatAnd after a later branch
    MoreAnd,
    /// A TypeName after its Specs
    Nameless,
    /// A Specs before its type part
    NoType,
    /// A Specs after a word of a basic type
    BasicType,
    /// A Specs after a tag or a name
    OneType,
    /// A StructDef after its word
    StructName,
    /// A StructDef after `{` or a member
    Members,
    /// A Field after its Specs
    FirstField,
    /// A Field after a declarator
    MoreFields,
    /// A Field after a comma
    NextField,
    /// An EnumDef after its word
    EnumName,
    /// An EnumDef after an enumerator
    MoreEnumerators,
    /// An EnumDef after a comma
    NextEnumerator,
    /// A Pointer after `*` or a qualifier
    Pointee,
    /// A DArray after `[`
    Size,
    /// The start of a Params
    FirstParam,
    /// A Params after a member
    MoreParams,
    /// A Params after a comma
    NextParam,
    /// A Param after its Specs
    ParamName,
    /// An InitList after `{`
    FirstInit,
    /// An InitList after a member
    MoreInits,
    /// An InitList after a comma
    NextInit,
    /// An InitItem after a designator
    MoreDesignators,
    /// An InitItem after `=`
    ItemValue,
    /// An At or AtRange after its first expression
    AtEnd,
    /// A MacroItem before its name
    MacroWords,
    /// An If after its body
    ElseOrNot,
    /// A Decl after its Specs
    FirstDeclarator,
    /// A Decl after a declarator
    MoreDeclarators,
    /// An InitDecl after `=`
    InitValue,
    /// A Block after `{` or a statement
    BlockStatements,
    /// A Block after `...` or a PatNest
    BlockBehindDots,
    /// A For or ForDecl after `(`
    ForInit,
    /// A For or ForDecl before its second expression
    ForTest,
    /// A For or ForDecl before its third expression
    ForStep,
    /// A Case or CaseRange after its first expression
    CaseEnd,
    /// A Return after its word
    ReturnValue,
    /// The start of a StmtList, or a StmtList after a statement
    ListStatements,
    /// A StmtList after `...` or a PatNest
    ListBehindDots,
    /// A FunDef or Decl after its Specs
    FirstExternal,
    /// A FunDef or Decl after its first declarator
    AfterExternal,
    /// A MacroItem or MacroFun before its name
    MacroNames,
    /// A MacroItem or MacroFun after `)`
    MacroEnd,
    /// A PatOr or PatAnd after its first list of statements
    FirstList,
    /// A PatOr after a later list of statements
    MoreListsOr,
    /// A PatAnd after a later list of statements
    MoreListsAnd,
    /// The start of a PatNest
    NestStart,
    /// A PatNest after its sign or a statement
    NestStatements,
    /// A PatNest after `...` or a PatNest
    NestBehindDots,
}

// How a reader of rows chooses by the class of the next token.
ghost use Rattle.std.specs.Prelude.{◌≡◌, MatchOption, Some, None};
ghost use Rattle.c_rows.specs.Choice as choice;
ghost use Rattle.c_rows.specs.Rows as rows;
ghost use Rattle.c_rows.specs.declared.kind.Family.TheVariants as families;

use crate::{
    Class, Family, Fork, Kind, Rule, Symbol, Word, begins, begins_expression, begins_specs,
    ends_list, ends_member, family_of, first, fits, may_go, production_of, row, same_class,
    same_family, ways,
};

/// Whether a declarator ends before this class.
fn ends_declarator(class: Class) -> bool
    ensures { result ≡ choice.ends_declarator class }
{
    matches!(
        class,
        Class::Colon
            | Class::Semicolon
            | Class::LeftBrace
            | Class::Close
            | Class::Comma
            | Class::End
    )
}

/// Whether a row that is at this fork may end before this class.
fn stops(fork: Fork, class: Class) -> bool
    ensures { result ≡ choice.stops_fork fork class }
{
    match fork {
        Fork::FirstString | Fork::SecondString | Fork::AfterString | Fork::AfterName => {
            !fits(Word::Str, class) && !fits(Word::Name, class)
        }
        Fork::FirstArg | Fork::MoreArgs | Fork::NextArg => same_class(Class::Close, class),
        Fork::Nameless => matches!(class, Class::Close | Class::Comma | Class::End),
        Fork::NoType | Fork::BasicType | Fork::OneType => !fits(Word::BasicOrModifier, class),
        Fork::Pointee => ends_declarator(class) || same_class(Class::Equal, class),
        Fork::InitValue => ends_declarator(class),
        Fork::ListStatements | Fork::ListBehindDots => ends_list(class),
        Fork::FirstParam | Fork::MoreParams | Fork::NextParam => same_class(Class::Close, class),
        Fork::ParamName => ends_member(class),
        Fork::MoreDesignators | Fork::ItemValue => matches!(
            class,
            Class::RightBrace | Class::Comma
        ),
        _ => true,
    }
}

/// Whether the rest of a row may begin with this class.
fn opens(row: &[Symbol], class: Class) -> bool
    ensures { result ≡ choice.opens row.now class }
{
    match row {
        [] => true,
        [Symbol::Word(word), ..] => fits(*word, class),
        [Symbol::Child(kind), ..] => first(family_of(*kind), class),
        [Symbol::Argument, ..] => begins_expression(class) || begins_specs(class),
        [Symbol::Fork(fork), ..] => choose(*fork, class).is_some(),
    }
}

/// Whether the way begins with this class.
fn begins_way(fork: Fork, way: &[Symbol], class: Class) -> bool
    ensures { result ≡ choice.begins_way fork way.now class }
{
    match way {
        [] => stops(fork, class),
        [Symbol::Word(word), ..] => fits(*word, class),
        [Symbol::Child(kind), ..] => first(family_of(*kind), class),
        [Symbol::Argument, ..] => begins_expression(class) || begins_specs(class),
        [Symbol::Fork(_), ..] => false,
    }
}

/// Whether the row takes the way at this class.
fn leads(fork: Fork, way: &[Symbol], class: Class) -> bool
    ensures { result ≡ choice.leads fork way.now class }
{
    may_go(fork, way, class) && begins_way(fork, way, class)
}

/// Returns the way in which a row continues at the fork before this class, or `None` if there is none.
pub fn choose(fork: Fork, class: Class) -> Option<&'static [Symbol]>
    ensures value { MatchOption result (choice.choose fork class ≡ None)
        (λ way. choice.choose fork class ≡ Some way.now) }
{
    for way in ways(fork) {
        if leads(fork, way, class) {
            return Some(*way);
        }
    }
    None
}

/// The rules of a family whose rows don't begin with a part of the family itself.
fn heads(family: Family) -> &'static [Rule]
    ensures { result.now ≡ rows.heads family }
{
    match family {
        Family::Expression => &[
            Rule::Strings,
            Rule::Paren,
            Rule::Literal,
            Rule::Cast,
            Rule::PreOp,
            Rule::Unary,
            Rule::SizeofExpr,
            Rule::SizeofType,
            Rule::PatBranches,
        ],
        Family::Args => &[Rule::Args],
        Family::TypeArg => &[Rule::TypeArg],
        Family::TypeName => &[Rule::TypeName],
        Family::Specs => &[Rule::Specs],
        Family::Tag => &[
            Rule::StructUse,
            Rule::StructDef,
            Rule::EnumUse,
            Rule::EnumDef,
        ],
        Family::Field => &[Rule::Field],
        Family::MacroItem => &[Rule::MacroItem],
        Family::NamelessBits => &[Rule::NamelessBits],
        Family::Declarator => &[
            Rule::Pointer,
            Rule::DParen,
            Rule::NamelessArray,
            Rule::NamelessFun,
        ],
        Family::Params => &[Rule::Params],
        Family::Param => &[Rule::Param],
        Family::InitList => &[Rule::InitList],
        Family::InitItem => &[Rule::InitItem],
        Family::Designator => &[Rule::DotName, Rule::At],
        Family::Enumerator => &[],
        Family::Decl => &[Rule::Decl],
        Family::Statement => &[
            Rule::ExprStat,
            Rule::If,
            Rule::Return,
            Rule::Block,
            Rule::Goto,
            Rule::Label,
            Rule::Case,
            Rule::Break,
            Rule::For,
            Rule::While,
            Rule::Switch,
            Rule::Iterator,
            Rule::Default,
            Rule::Continue,
            Rule::Do,
            Rule::Empty,
            Rule::PatLists,
            Rule::PatNest,
        ],
        Family::StmtList => &[Rule::StmtList],
        Family::External => &[Rule::External, Rule::ExternalMacro, Rule::ExternalEmpty],
    }
}

/// The rule by which an expression continues at this class. This is looked up after each operand, so it is a table.
fn expression_tail(class: Class) -> Option<Rule>
    ensures { result ≡ choice.tail families.Expression class }
{
    match class {
        Class::LeftBracket => Some(Rule::Index),
        Class::ParenNest | Class::ParenList | Class::CastNest => Some(Rule::Call),
        Class::CastList | Class::LiteralNest | Class::LiteralList => Some(Rule::Call),
        Class::Dot => Some(Rule::Member),
        Class::Arrow => Some(Rule::Arrow),
        Class::Step => Some(Rule::PostOp),
        Class::OrOr => Some(Rule::OrOr),
        Class::AndAnd => Some(Rule::AndAnd),
        Class::Or => Some(Rule::Or),
        Class::Xor => Some(Rule::Xor),
        Class::And => Some(Rule::And),
        Class::Equality => Some(Rule::Equality),
        Class::Order => Some(Rule::Order),
        Class::Shift => Some(Rule::Shift),
        Class::Plus => Some(Rule::Sum),
        Class::Star | Class::Slash => Some(Rule::Product),
        Class::Question => Some(Rule::Cond),
        Class::ShortQuestion => Some(Rule::CondShort),
        Class::Equal | Class::Assign => Some(Rule::Assign),
        Class::Comma => Some(Rule::Comma),
        _ => None,
    }
}

/// The rule by which a declarator continues at this class.
fn declarator_tail(class: Class) -> Option<Rule>
    ensures { result ≡ choice.tail families.Declarator class }
{
    match class {
        Class::LeftBracket => Some(Rule::DArray),
        Class::ParenNest | Class::ParenList | Class::CastNest => Some(Rule::DFun),
        Class::CastList | Class::LiteralNest | Class::LiteralList => Some(Rule::DFun),
        Class::Colon => Some(Rule::Bits),
        Class::Equal => Some(Rule::InitDecl),
        _ => None,
    }
}

/// The rule by which an enumerator continues at this class.
fn enumerator_tail(class: Class) -> Option<Rule>
    ensures { result ≡ choice.tail families.Enumerator class }
{
    match class {
        Class::Equal => Some(Rule::EnumValue),
        _ => None,
    }
}

/// Returns the kind of a rule's first part if that part is of the rule's own family, and `None` otherwise.
pub fn left(rule: Rule) -> Option<Kind>
    ensures value { result ≡ choice.left rule }
{
    let production = production_of(rule);
    match production.parts {
        [Symbol::Child(first), ..] => {
            if same_family(family_of(*first), family_of(production.kind)) {
                Some(*first)
            } else {
                None
            }
        }
        _ => None,
    }
}

/// Returns the parts of a row after its left part.
pub fn own(rule: Rule) -> &'static [Symbol]
    ensures value { result.now ≡ choice.own rule }
{
    let parts = row(rule);
    match left(rule) {
        Some(_) => &parts[1..],
        None => parts,
    }
}

/// Returns the rule of the family that begins with this class, or `None` if there is none.
pub fn head(family: Family, class: Class) -> Option<Rule>
    ensures value { result ≡ choice.head family class }
{
    for rule in heads(family) {
        if begins(*rule, class) && opens(row(*rule), class) {
            return Some(*rule);
        }
    }
    None
}

/// Returns the rule of the family by which a tree continues at this class, or `None` if there is none.
pub fn tail(family: Family, class: Class) -> Option<Rule>
    ensures value { result ≡ choice.tail family class }
{
    match family {
        Family::Expression => expression_tail(class),
        Family::Declarator => declarator_tail(class),
        Family::Enumerator => enumerator_tail(class),
        _ => None,
    }
}

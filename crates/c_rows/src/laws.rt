// Laws of the grammar that the contract of no single call states.
ghost use Rattle.std.specs.Prelude.{◌≡◌, ◌≤◌, IsTrue, List, length, map};
ghost use Rattle.c_terms.specs.declared.token.Token.{Token};
ghost use Rattle.c_terms.specs.declared.tree.Tree.{Tree};
ghost use Rattle.c_terms.specs.declared.tree.Tree.TheVariants.{Leaf};
ghost use Rattle.c_terms.specs.Trees.{leaves};
ghost use Rattle.c_rows.specs.declared.kind.Kind.{Kind};
ghost use Rattle.c_rows.specs.declared.kind.Kind.TheVariants as kind;
ghost use Rattle.c_rows.specs.Look.{Names, look};
ghost use Rattle.c_rows.specs.Words.{ends_member};
ghost use Rattle.c_rows.specs.Derives.{Derives, Anywhere};
ghost use Rattle.c_rows.specs.Trees.{IsTreeOf, stands_alone};
ghost use Rattle.c_rows.specs.Letter.{AllLow, IsLetterTreeOf};
ghost use Rattle.c_rows.specs.declared.rule.Rule.{Rule};
ghost use Rattle.c_rows.specs.Rows.{build};
ghost use Rattle.c_rows.specs.Branches.{allows};
ghost use Rattle.c_rows.specs.Facts.{facts_of, leaf_facts, allows_facts, branch_facts};

/// The tokens of a tree of a range, from left to right, are the range's tokens.
pub fn leaves_are_the_tokens()
    ensures { (kind : Kind) (names : Names) (tokens : List Token) (t : Tree)
        → IsTreeOf kind names tokens t → leaves t ≡ tokens }
{}

/// A type and an expression without commas that begin at the same token, and end before a comma or `)`, end at the same
/// token.
pub fn members_have_one_end()
    ensures { (names : Names) (xs ys zs : List Token) (t u : Tree)
        → Derives names Anywhere kind.TypeArg xs t ys → Derives names Anywhere kind.AssignLevel xs u zs
        → IsTrue (ends_member (look names ys)) → IsTrue (ends_member (look names zs)) → ys ≡ zs }
{}

/// Read to the letter, the rule makes a type give way to every expression that the rows derive, whether or not that
/// expression obeys the rule inside, and however deep it is. Every tree to the letter is a tree of the range. For kinds
/// that are read by themselves, the trees of the range are trees to the letter in ranges of at most 250 tokens, and
/// wherever no expression has more than 1,000 levels. Beyond that, a type may have far fewer levels than an expression
/// with the same tokens: if the expression has more than 1,000, the range has the type, and to the letter it has
/// nothing.
pub fn rivals_need_no_rule()
    ensures letter { (kind : Kind) (names : Names) (tokens : List Token) (t : Tree)
        → IsLetterTreeOf kind names tokens t → IsTreeOf kind names tokens t }
    ensures low { (kind : Kind) (names : Names) (tokens : List Token) (t : Tree)
        → IsTrue (stands_alone kind) → AllLow names tokens
        → IsTreeOf kind names tokens t → IsLetterTreeOf kind names tokens t }
    ensures short { (kind : Kind) (names : Names) (tokens : List Token) (t : Tree)
        → IsTrue (stands_alone kind) → length tokens ≤ 250
        → IsTreeOf kind names tokens t → IsLetterTreeOf kind names tokens t }
{}

/// The facts of a row's parts determine what the row asks of them and the facts of its branch. A token by itself
/// determines its own facts.
pub fn facts_are_enough()
    ensures leaf { (t : Token) → leaf_facts t ≡ facts_of (Leaf t) }
    ensures allows { (rule : Rule) (cs : List Tree) → allows_facts rule (map facts_of cs) ≡ allows rule cs }
    ensures branch { (rule : Rule) (cs : List Tree) → branch_facts rule (map facts_of cs) ≡ facts_of (build rule cs) }
{}

//! Laws of rules whose variables ask for no types: they find the same in the graphs with types as in those without.
//!
//! A rule is matched over the graphs with types only if one of its variables asks for types. These laws say that the others
//! would find the same there.
//!
//! - [`untyped_variables_need_no_types`]: what such variables want, and where patterns match, is the same with any types.
//! - [`untyped_rules_need_no_types`]: so is what such a rule finds, in a graph, in an item and in a file.
//!
//! The functions do nothing.
#![tactic(auto)]

ghost use Rattle.std.specs.Prelude.{◌≡◌, ℕ, true, false, List, Some};
ghost use Rattle.c_terms.specs.declared.tree.Tree.{Tree};
ghost use Rattle.c_types.specs.Tables.{ItemTypes};
ghost use Rattle.cfg_build.specs.declared.cfg_graph.label.NodeLabel.{NodeLabel};
ghost use Rattle.cfg_build.specs.CfgGraph.Flow.{Flow, with_types};
ghost use Rattle.cpp_lines.specs.declared.reading.Item.{Item};
ghost use Rattle.c_file.specs.ItemGraphs.Typed.{graph_in, all_graphs};
ghost use Rattle.smpl_terms.specs.Environments.{Environment};
ghost use Rattle.smpl_patch.specs.declared.pattern.VarDecl.{VarDecl};
ghost use Rattle.smpl_patch.specs.declared.pattern.PatToken.{PatToken};
ghost use Rattle.smpl_patch.specs.declared.pattern.Pattern.{Pattern};
ghost use Rattle.smpl_patch.specs.declared.wanted.Wanted.{Wanted};
ghost use Rattle.smpl_patch.specs.declared.rule.Rule.{Rule};
ghost use Rattle.smpl_patch.specs.Wants.{asks_types, ask_types};
ghost use Rattle.pat_match.specs.Wants.{is_wanted};
ghost use Rattle.pat_match.specs.Matching.{matches, aligns};
ghost use Rattle.env_parts.specs.Parts.{Pairs};
ghost use Rattle.rule_chain.specs.FileWitnesses.Found.{witnesses_in, found_from, found_under};

/// A variable that asks for no types wants the same expressions with any two tables of types (`wants`); this need not hold
/// of other variables (`needed`). If none of the variables asks for types, a pattern matches at the same nodes with any two
/// tables (`matches`), and is aligned in the same places (`aligns`). Does nothing.
pub fn untyped_variables_need_no_types()
    ensures wants { (types also : ItemTypes) (w : Wanted) (t : Tree) → asks_types w ≡ false
        → is_wanted types w t ≡ is_wanted also w t }
    ensures needed { ((types also : ItemTypes) (w : Wanted) (t : Tree) → is_wanted types w t ≡ is_wanted also w t) → ⊥ }
    ensures matches { (types also : ItemTypes) (decls : List VarDecl) (tokens : List PatToken) (env : Environment)
        (p : Pattern) (n : NodeLabel) → ask_types decls ≡ false
        → matches decls tokens types env p n ≡ matches decls tokens also env p n }
    ensures aligns { (types also : ItemTypes) (decls : List VarDecl) (tokens : List PatToken) (env : Environment)
        (p : Pattern) (n : NodeLabel) → ask_types decls ≡ false
        → aligns decls tokens types env p n ≡ aligns decls tokens also env p n }
{}

/// A rule none of whose variables asks for types finds the same witnesses in a graph with any types as in the graph itself
/// (`graphs`). So it finds the same in the graph of an item with its types and in the one without (`items`), and in the
/// graphs with types of all items of a file what it finds in those that it sees (`files`). Does nothing.
pub fn untyped_rules_need_no_types()
    ensures graphs { (number : ℕ) (rule : Rule) (item : ℕ) (g : Flow) (types : ItemTypes) (env : Pairs)
        → ask_types rule.vars ≡ false
        → witnesses_in number rule item (Some (with_types g types)) env ≡ witnesses_in number rule item (Some g) env }
    ensures items { (number : ℕ) (rule : Rule) (items : List Item) (i : ℕ) (env : Pairs) → ask_types rule.vars ≡ false
        → witnesses_in number rule i (graph_in true items i) env ≡ witnesses_in number rule i (graph_in false items i) env }
    ensures files { (number : ℕ) (rule : Rule) (items : List Item) (env : Pairs) → ask_types rule.vars ≡ false
        → found_from number rule 0 (all_graphs true items) env ≡ found_under number rule items env }
{}

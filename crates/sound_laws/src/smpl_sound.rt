//! The parts of soundness that are proved of patches that are read, as [`smpl_patch`] defines soundness.
//!
//! - [`patches_are_sound`] is a law: its clauses hold, and it does nothing. Each clause is a part of soundness, for every
//!   rule of a patch that bytes spell, given the rules before it.
//!
//! That a line of plus code has as many gaps as tokens is proved in smpl_all_sound, which combines all parts.
#![tactic(auto)]

ghost use Rattle.std.specs.Prelude.{◌≡◌, ℕ, List, [], true, nat_lt, nat_eq, length};
ghost use Rattle.std.specs.List.{list_all};
ghost use Rattle.std.specs.Str.{bytes_eq};
ghost use Rattle.smpl_patch.specs.declared.rule.Patch.{Patch as Whole};
ghost use Rattle.smpl_patch.specs.declared.pattern.PatToken.{PatToken as Word};
ghost use Rattle.smpl_patch.specs.declared.pattern.Pattern.{Pattern as Shown};
ghost use Rattle.smpl_patch.specs.declared.pattern.VarKind.TheVariants.{Position};
ghost use Rattle.smpl_patch.specs.Bodies.{body as plain};
ghost use Rattle.smpl_patch.specs.Shapes.{is_formed_body, patterns_body};
ghost use Rattle.smpl_patch.specs.Sound.{declares, none_alike, is_own_var, is_sound_decl, is_sound_wanted, is_below};
ghost use Rattle.smpl_patch.specs.Sound.{is_sound_pattern, lengths};
ghost use Rattle.sound_laws.specs.SmplFormed.Bodies.{AllStand};
ghost use Rattle.smpl_file.specs.Patches.{IsSpelled};
ghost use Rattle.sound_laws.specs.SmplSound.Parts.{EachPasses, EachHas, leads_token, whole_token, gaps_token};

use crate::smpl_formed::bodies_are_formed;
use c_lexer::blank_texts;
use smpl_lexer::patch_is_read_once;
use smpl_meta::headers_have_conditions;
use smpl_plus::tokens_keep_their_lines;

/// A patch that bytes spell has the following parts of soundness, rule by rule.
///
/// - `virtuals`: the `virtual` lines have fewer than 2^32 names.
/// - `count`: it has fewer than 2^32 rules.
/// - `names`: the variables of a rule have different names.
/// - `exports`: a rule declares as its own each variable that it exports.
/// - `vars`: an inherited variable, and each excluded position, has the number of an earlier rule that exports it with the
///   same kind; any other variable has the number of its rule.
/// - `wanted`: only an expression variable has to be more than an expression, and an inherited one takes what it takes in
///   the rule with its number.
/// - `positions`: the positions at a rule's tokens are declared.
/// - `leads`: the first gap of a line of plus code, if it has one, is as long as the line's lead.
/// - `whole`: each token of plus code is a token of C or a declared metavariable.
/// - `gaps`: each gap of plus code is empty or consists of blanks.
/// - `depends`: the rules on which a rule depends are earlier ones.
/// - `atoms`: the patterns of a rule have different numbers, including those of `when` code.
/// - `patterns`: each pattern has a form, the numbers of its tokens are numbers of the rule's tokens, and its metavariables
///   are declared.
/// - `formed`: dots and nests are first or last in a sequence only directly inside a block, and no two of them are
///   adjacent; a disjunction and a conjunction have at least two branches.
/// - `few`: the lists of a rule have fewer than 2^32 members.
/// - `sure`: each sure variable of a pattern occurs in it.
///
/// Does nothing.
pub fn patches_are_sound()
    ensures virtuals { (bytes : List ℕ) (patch : Whole) → IsSpelled bytes patch →
        nat_lt (length patch.virtuals) 4294967296 ≡ true }
    ensures count { (bytes : List ℕ) (patch : Whole) → IsSpelled bytes patch →
        nat_lt (length patch.rules) 4294967296 ≡ true }
    ensures names { (bytes : List ℕ) (patch : Whole) → IsSpelled bytes patch →
        EachPasses (λ earlier r. none_alike (λ d e. bytes_eq d.var.name e.var.name) r.vars) [] patch.rules }
    ensures exports { (bytes : List ℕ) (patch : Whole) → IsSpelled bytes patch →
        EachPasses (λ earlier r. list_all (is_own_var r.vars) r.exports) [] patch.rules }
    ensures vars { (bytes : List ℕ) (patch : Whole) → IsSpelled bytes patch →
        EachPasses (λ earlier r. list_all (is_sound_decl earlier) r.vars) [] patch.rules }
    ensures wanted { (bytes : List ℕ) (patch : Whole) → IsSpelled bytes patch →
        EachPasses (λ earlier r. list_all (is_sound_wanted earlier) r.vars) [] patch.rules }
    ensures positions { (bytes : List ℕ) (patch : Whole) → IsSpelled bytes patch →
        EachPasses (λ earlier r. list_all (λ (t : Word). list_all (λ x. declares r.vars x Position) t.positions)
        r.tokens) [] patch.rules }
    ensures leads { (bytes : List ℕ) (patch : Whole) → IsSpelled bytes patch →
        EachPasses (λ earlier r. list_all leads_token r.tokens) [] patch.rules }
    ensures whole { (bytes : List ℕ) (patch : Whole) → IsSpelled bytes patch →
        EachPasses (λ earlier r. list_all (whole_token r.vars) r.tokens) [] patch.rules }
    ensures gaps { (bytes : List ℕ) (patch : Whole) → IsSpelled bytes patch →
        EachPasses (λ earlier r. list_all gaps_token r.tokens) [] patch.rules }
    ensures depends { (bytes : List ℕ) (patch : Whole) → IsSpelled bytes patch →
        EachPasses (λ earlier r. is_below (length earlier) r.depends) [] patch.rules }
    ensures atoms { (bytes : List ℕ) (patch : Whole) → IsSpelled bytes patch →
        EachPasses (λ earlier r. none_alike (λ (p q : Shown). nat_eq p.atom q.atom) (patterns_body (plain r.body))) []
        patch.rules }
    ensures patterns { (bytes : List ℕ) (patch : Whole) → IsSpelled bytes patch →
        EachPasses (λ earlier r. list_all (is_sound_pattern r.vars r.tokens) (patterns_body (plain r.body))) []
        patch.rules }
    ensures formed { (bytes : List ℕ) (patch : Whole) → IsSpelled bytes patch →
        EachPasses (λ earlier r. is_formed_body (plain r.body)) [] patch.rules }
    ensures few { (bytes : List ℕ) (patch : Whole) → IsSpelled bytes patch →
        EachPasses (λ earlier r. list_all (λ n. nat_lt n 4294967296) (lengths r)) [] patch.rules }
    ensures sure { (bytes : List ℕ) (patch : Whole) → IsSpelled bytes patch →
        EachHas (λ r. AllStand r.vars r.tokens (patterns_body (plain r.body))) patch.rules }
{
    patch_is_read_once();
    headers_have_conditions();
    tokens_keep_their_lines();
    bodies_are_formed();
    blank_texts();
}

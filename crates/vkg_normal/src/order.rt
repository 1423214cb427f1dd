// The rules, in the order in which they are asked.
ghost use Rattle.std.specs.Prelude.{◌≡◌};
ghost use Rattle.vkg_normal.specs.NormalForm.{all_rules, anti_joins as all_anti_joins, conditions as all_conditions, distincts as all_distincts, first_rules as all_first_rules, flatten as all_flattening, key_joins as all_key_joins, left_joins as all_left_joins, moves as all_moves, own_rules as all_own_rules, removals as all_removals};

use vkg_antis::{AntiNothing, AntiRight};
use vkg_conditions::SimplifyCondition;
use vkg_equalities::TermEquality;
use vkg_joins::JoinInJoin;
use vkg_key_joins::{ParentJoin, SelfJoin};
use vkg_key_lefts::{ParentLeft, ReferenceLeft, SelfLeft, SelfLeftMember};
use vkg_lifts::LiftProjects;
use vkg_moves::{LeftToJoin, MergeProjects, MergeSelects};
use vkg_nulls::SimplifyNull;
use vkg_rules::{Either, Rewrite};
use vkg_shapes::{FalseCondition, FewMembers, FlatUnion, PropagateEmpty, SelectTrue};
use vkg_spreads::DistributeUnion;
use vkg_sure::{FirstKnown, KnownMember, SureNull, TermComparison};
use vkg_unions::{DistinctDistinct, EqualMembers};
use vkg_unique::{DistinctUnique, UnusedLeft};

/// The rules, one behind the other, our own last: the first that applies to a plan is taken.
pub type Rules = Either<First, OwnRules>;

/// The rules that are taken to their end first.
pub type First = Either<SelectTrue, Either<FalseCondition, Either<Moves, AfterMoves>>>;

/// The rules on selections and projections.
pub type Moves = Either<MergeSelects, Either<MergeProjects, LiftProjects>>;

/// The rules that are asked behind those.
pub type AfterMoves = Either<PropagateEmpty, Either<Flatten, AfterFlatten>>;

/// The rules that flatten joins and unions.
pub type Flatten = Either<JoinInJoin, Either<FewMembers, FlatUnion>>;

/// The rules that are asked behind those.
pub type AfterFlatten = Either<DistributeUnion, Either<Removals, Either<Conditions, AntiJoins>>>;

/// The rules by which a distinct, a table in a join, or a left join goes.
pub type Removals = Either<Distincts, Either<KeyJoins, LeftJoins>>;

/// The rules on distincts over rows that are no two equal, and under others.
pub type Distincts = Either<DistinctUnique, DistinctDistinct>;

/// The rules on joins over keys.
pub type KeyJoins = Either<SelfJoin, ParentJoin>;

/// The rules on left joins, and on equal members of a union.
pub type LeftJoins = Either<LeftToJoin, Either<EqualMembers, UnusedLeft>>;

/// The rules on conditions: equalities of terms, what is decided, and tests for NULL.
pub type Conditions = Either<TermEquality, Either<SimplifyCondition, SimplifyNull>>;

/// The rules on anti joins.
pub type AntiJoins = Either<AntiNothing, AntiRight>;

/// Rules of our own: on what is sure of an expression, and on left joins over keys.
pub type OwnRules = Either<
    SureNull,
    Either<FirstKnown, Either<KnownMember, Either<TermComparison, KeyLefts>>>,
>;

/// Those on left joins over keys.
pub type KeyLefts = Either<SelfLeft, Either<SelfLeftMember, Either<ParentLeft, ReferenceLeft>>>;

/// The rules in their order.
#[tactic(auto, unfolding(crate::specs::NormalForm::all_rules))]
pub fn rules() -> Rules
    ensures { ⟦<Rules as Rewrite>⟧.becomes result ≡ all_rules }
{
    let first = first_rules();
    let own = own_rules();
    or_else(first, own)
}

/// Those that are taken to their end first.
#[tactic(auto, unfolding(crate::specs::NormalForm::first_rules))]
pub fn first_rules() -> First
    ensures { ⟦<First as Rewrite>⟧.becomes result ≡ all_first_rules }
{
    let moves = moves();
    let flatten = flatten();
    let removals = removals();
    let conditions = conditions();
    let anti_joins = anti_joins();
    let last = or_else(conditions, anti_joins);
    let fewer = or_else(removals, last);
    let unions = or_else(DistributeUnion, fewer);
    let flat = or_else(flatten, unions);
    let empty = or_else(PropagateEmpty, flat);
    let moved = or_else(moves, empty);
    let constant = or_else(FalseCondition, moved);
    or_else(SelectTrue, constant)
}

#[tactic(auto, unfolding(crate::specs::NormalForm::moves))]
fn moves() -> Moves
    ensures { ⟦<Moves as Rewrite>⟧.becomes result ≡ all_moves }
{
    let projects = or_else(MergeProjects, LiftProjects);
    or_else(MergeSelects, projects)
}

#[tactic(auto, unfolding(crate::specs::NormalForm::flatten))]
fn flatten() -> Flatten
    ensures { ⟦<Flatten as Rewrite>⟧.becomes result ≡ all_flattening }
{
    let few = or_else(FewMembers, FlatUnion);
    or_else(JoinInJoin, few)
}

#[tactic(auto, unfolding(crate::specs::NormalForm::removals))]
fn removals() -> Removals
    ensures { ⟦<Removals as Rewrite>⟧.becomes result ≡ all_removals }
{
    let distincts = distincts();
    let key_joins = key_joins();
    let left_joins = left_joins();
    let joins = or_else(key_joins, left_joins);
    or_else(distincts, joins)
}

#[tactic(auto, unfolding(crate::specs::NormalForm::distincts))]
fn distincts() -> Distincts
    ensures { ⟦<Distincts as Rewrite>⟧.becomes result ≡ all_distincts }
{
    or_else(DistinctUnique, DistinctDistinct)
}

#[tactic(auto, unfolding(crate::specs::NormalForm::key_joins))]
fn key_joins() -> KeyJoins
    ensures { ⟦<KeyJoins as Rewrite>⟧.becomes result ≡ all_key_joins }
{
    or_else(SelfJoin, ParentJoin)
}

#[tactic(auto, unfolding(crate::specs::NormalForm::left_joins))]
fn left_joins() -> LeftJoins
    ensures { ⟦<LeftJoins as Rewrite>⟧.becomes result ≡ all_left_joins }
{
    let unused = or_else(EqualMembers, UnusedLeft);
    or_else(LeftToJoin, unused)
}

#[tactic(auto, unfolding(crate::specs::NormalForm::conditions))]
fn conditions() -> Conditions
    ensures { ⟦<Conditions as Rewrite>⟧.becomes result ≡ all_conditions }
{
    let simpler = or_else(SimplifyCondition, SimplifyNull);
    or_else(TermEquality, simpler)
}

#[tactic(auto, unfolding(crate::specs::NormalForm::anti_joins))]
fn anti_joins() -> AntiJoins
    ensures { ⟦<AntiJoins as Rewrite>⟧.becomes result ≡ all_anti_joins }
{
    or_else(AntiNothing, AntiRight)
}

#[tactic(auto, unfolding(crate::specs::NormalForm::own_rules))]
fn own_rules() -> OwnRules
    ensures { ⟦<OwnRules as Rewrite>⟧.becomes result ≡ all_own_rules }
{
    let references = or_else(ParentLeft, ReferenceLeft);
    let members = or_else(SelfLeftMember, references);
    let lefts = or_else(SelfLeft, members);
    let compared = or_else(TermComparison, lefts);
    let told = or_else(KnownMember, compared);
    let known = or_else(FirstKnown, told);
    or_else(SureNull, known)
}

fn or_else<A, B>(first: A, second: B) -> Either<A, B>
    ensures first { result.first ≡ first }
    ensures second { result.second ≡ second }
{
    Either { first, second }
}

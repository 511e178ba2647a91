//! Laws of plans and of their trees, for proofs: each function does nothing, and its contract is the law.

ghost use Rattle.std.specs.Prelude.{◌≡◌, ◌≢◌, ◌<◌, ◌≤◌, ◌+◌, ◌^◌, ◌⊎◌, ℕ, List};
ghost use Rattle.std.specs.Prelude.{[], ◌∷◌, length, map, reverse, slice_index, true, Some, None, Ok, Err, codes};
ghost use Rattle.std.specs.List.{list_all};
ghost use Rattle.pm_base.specs.Fits.{fits};
ghost use Rattle.pm_plan.specs.declared.plan.AgentRow.{AgentRow as TheAgent};
ghost use Rattle.pm_plan.specs.Limits.{IsWithinLimits};
ghost use Rattle.pm_plan.specs.Plans.{all_vars, first_off_tree, own_parts, parents, plan_of, rules_fit, IsValid};
ghost use Rattle.pm_plan.specs.Rows.{clp, parts, two};
ghost use Rattle.pm_plan.specs.declared.fault.PlanFault.TheVariants as fault;
ghost use Rattle.pm_plan.specs.declared.plan.Kind.TheVariants as kind;
ghost use Rattle.pm_plan.specs.Trees.{edge, has, hop, path, path_len, IsPath};

use crate::Plan;

/// There is one path between two processes.
pub fn path_is_the_only_one(plan: &Plan, from: u32, to: u32)
    requires valid { IsValid plan.now }
    requires from { from < length plan.now.clps }
    requires to { to < length plan.now.clps }
    ensures path { IsPath (parents plan.now.clps) from to (path (parents plan.now.clps) from to) }
    ensures only { (xs : List ℕ) → IsPath (parents plan.now.clps) from to xs →
        xs ≡ path (parents plan.now.clps) from to }
{}

/// A hop goes one edge nearer.
pub fn hop_is_nearer(plan: &Plan, from: u32, to: u32)
    requires valid { IsValid plan.now }
    requires from { from < length plan.now.clps }
    requires to { to < length plan.now.clps }
    requires apart { from ≢ to }
    ensures edge { edge (parents plan.now.clps) from (hop (parents plan.now.clps) from to) ≡ true }
    ensures nearer { path_len (parents plan.now.clps) (hop (parents plan.now.clps) from to) to + 1 ≡
        path_len (parents plan.now.clps) from to }
{}

/// Two neighbours are one edge apart, and each is the hop to the other.
pub fn neighbours_are_one_apart(plan: &Plan, from: u32, to: u32)
    requires valid { IsValid plan.now }
    requires from { from < length plan.now.clps }
    requires to { to < length plan.now.clps }
    requires edge { edge (parents plan.now.clps) from to ≡ true }
    ensures hop { hop (parents plan.now.clps) from to ≡ to }
    ensures len { path_len (parents plan.now.clps) from to ≡ 1 }
{}

/// It is as far there as back.
pub fn back_is_as_far(plan: &Plan, from: u32, to: u32)
    requires valid { IsValid plan.now }
    requires from { from < length plan.now.clps }
    requires to { to < length plan.now.clps }
    ensures { path_len (parents plan.now.clps) from to ≡ path_len (parents plan.now.clps) to from }
{}

/// The way back visits the same processes in reverse.
pub fn back_is_the_way_reversed(plan: &Plan, from: u32, to: u32)
    requires valid { IsValid plan.now }
    requires from { from < length plan.now.clps }
    requires to { to < length plan.now.clps }
    ensures { reverse (from ∷ path (parents plan.now.clps) from to) ≡ to ∷ path (parents plan.now.clps) to from }
{}

/// Lengths add along a path.
pub fn lengths_add(plan: &Plan, from: u32, by: u32, to: u32)
    requires valid { IsValid plan.now }
    requires from { from < length plan.now.clps }
    requires to { to < length plan.now.clps }
    requires on { has by (path (parents plan.now.clps) from to) ≡ true }
    ensures { path_len (parents plan.now.clps) from by + path_len (parents plan.now.clps) by to ≡
        path_len (parents plan.now.clps) from to }
{}

/// Of two neighbours exactly one has the other on its way to a third process.
pub fn one_of_two_neighbours(plan: &Plan, one: u32, other: u32, to: u32)
    requires valid { IsValid plan.now }
    requires one { one < length plan.now.clps }
    requires other { other < length plan.now.clps }
    requires to { to < length plan.now.clps }
    requires edge { edge (parents plan.now.clps) one other ≡ true }
    ensures either { ((other ≢ to) × (hop (parents plan.now.clps) other to ≡ one)) ⊎
        ((one ≢ to) × (hop (parents plan.now.clps) one to ≡ other)) }
    ensures not_both { other ≢ to → hop (parents plan.now.clps) other to ≡ one →
        one ≢ to → hop (parents plan.now.clps) one to ≢ other }
{}

/// A plan is within the limits, and has a process.
pub fn limits_are_kept(plan: &Plan)
    requires { IsValid plan.now }
    ensures some { 1 ≤ length plan.now.clps }
    ensures limits { IsWithinLimits plan.now }
    ensures classes { length plan.now.classes ≤ 64 }
{}

/// Each agent's first step is no later than a plan may name.
pub fn valid_times(plan: &Plan)
    requires { IsValid plan.now }
    ensures { (i : ℕ) → i < length plan.now.agents →
        slice_index (map (λ a. a.start) plan.now.agents) i ≤ 1000000000000 }
{}

/// Each agent's rule fits the plan's classes.
pub fn rules_fit_the_layout(plan: &Plan)
    requires { IsValid plan.now }
    ensures { list_all (λ (a : TheAgent). fits a.program plan.now.layout) plan.now.agents ≡ true }
{}

/// Each variable and each agent is at a process.
pub fn places_exist(plan: &Plan)
    requires { IsValid plan.now }
    ensures vars { (i : ℕ) → i < length plan.now.vars →
        slice_index (map (λ v. v.at) plan.now.vars) i < length plan.now.clps }
    ensures agents { (i : ℕ) → i < length plan.now.agents →
        slice_index (map (λ a. a.home) plan.now.agents) i < length plan.now.clps }
{}

/// A plan's own parts meet the condition of `Plan::make`, and are the parts of that plan.
pub fn own_parts_make_the_plan(plan: &Plan)
    requires { IsValid plan.now }
    ensures few { length (all_vars (own_parts plan.now).classes) < 2 ^ 32 }
    ensures rules { rules_fit (own_parts plan.now).classes (own_parts plan.now).agents ≡ true }
    ensures made { plan_of (own_parts plan.now) ≡ Ok plan.now }
{}

/// Worked rows of the definitions: which process is off the tree, and ways through a tree.
#[tactic(auto, unfolding(crate::specs::Plans::first_off_tree))]
pub fn rows_of_trees()
    ensures tree { first_off_tree (None ∷ Some 0 ∷ []) ≡ None }
    ensures itself { first_off_tree (None ∷ Some 1 ∷ []) ≡ Some 1 }
    ensures round { first_off_tree (None ∷ Some 2 ∷ Some 1 ∷ []) ≡ Some 1 }
    ensures second { first_off_tree (None ∷ Some 0 ∷ None ∷ []) ≡ Some 2 }
    ensures lost { first_off_tree (Some 1 ∷ Some 3 ∷ None ∷ []) ≡ Some 1 }
    ensures across { path (None ∷ Some 0 ∷ Some 0 ∷ Some 1 ∷ []) 3 2 ≡ 1 ∷ 0 ∷ 2 ∷ [] }
    ensures down { path (None ∷ Some 0 ∷ Some 0 ∷ Some 1 ∷ []) 0 3 ≡ 1 ∷ 3 ∷ [] }
    ensures here { path (None ∷ Some 0 ∷ Some 0 ∷ Some 1 ∷ []) 3 3 ≡ [] }
{}

/// Worked rows of the plan of parts: one plan with its own parts, and the first refusals where a later one holds too.
#[tactic(auto, unfolding(crate::specs::Plans::plan_of, crate::specs::Plans::own_parts, crate::specs::Plans::numbered, crate::specs::Plans::refusal, crate::specs::Plans::later_refusal, crate::specs::Plans::first_off_tree, crate::specs::Plans::first_nowhere, crate::specs::Numbers::number_of, crate::specs::Numbers::first_wrong, crate::specs::Numbers::first_repeat, pm_base::specs::Names::is_name))]
pub fn rows_of_plans()
    ensures made { plan_of (parts
        (clp (codes "top") None ∷ clp (codes "low") (Some (codes "top")) ∷ []) (codes "low")) ≡ Ok two }
    ensures own { own_parts two ≡
        parts (clp (codes "top") None ∷ clp (codes "low") (Some (codes "top")) ∷ []) (codes "low") }
    ensures limit { plan_of (parts [] (codes "low")) ≡ Err (fault.Limit kind.Clp) }
    ensures name { plan_of (parts
        (clp (codes "top") None ∷ clp (codes "top") None ∷ clp (codes "2") None ∷ []) (codes "low")) ≡
        Err (fault.Name kind.Clp 2) }
    ensures twice { plan_of (parts (clp (codes "top") None ∷ clp (codes "top") None ∷ []) (codes "low")) ≡
        Err (fault.Twice kind.Clp 1) }
    ensures tree { plan_of (parts (clp (codes "top") None ∷ clp (codes "low") (Some (codes "low")) ∷ []) (codes "up")) ≡
        Err (fault.Tree 1) }
    ensures place { plan_of (parts (clp (codes "up") None ∷ []) (codes "low")) ≡ Err (fault.Place kind.Var 0) }
    ensures home { plan_of (parts (clp (codes "low") None ∷ []) (codes "low")) ≡ Err (fault.Place kind.Agent 0) }
{}

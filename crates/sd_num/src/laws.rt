ghost use Rattle.std.specs.Prelude.{◌≡◌, ◌≢◌, ◌↔◌, ℤ, pos, List, ◌++◌, map, All, Some, IfSome, FitsSigned, IsPermutation};
ghost use Rattle.std.specs.List.{flat_map};
ghost use Rattle.std.specs.Int.{w64};
ghost use Rattle.sd_num.specs.Floor.{IsFloorDivision, floor_quotient, floor_remainder};
ghost use Rattle.sd_num.specs.Resolution.{IsCommuting, resolved, resolved_all, identity_of};

use crate::{Resolution, Width};

/// A division that rounds down has one quotient and one remainder.
pub fn a_floor_division_has_one_result()
    ensures { (a b quotient remainder other rest : ℤ)
        → IsFloorDivision a b quotient remainder → IsFloorDivision a b other rest
        → (quotient ≡ other) × (remainder ≡ rest) }
{}

/// A division that rounds down has these values and no others, so either way of saying it may stand
/// for the other one.
pub fn a_floor_division_has_its_values()
    ensures { (a b quotient remainder : ℤ)
        → b ≢ pos 0
        → IsFloorDivision a b quotient remainder
        ↔ ((quotient ≡ floor_quotient a b) × (remainder ≡ floor_remainder a b)) }
{}

/// Two values may be resolved in either order, but by the last one.
pub fn resolving_commutes(resolution: Resolution, a: i64, b: i64)
    ensures { IsCommuting resolution → resolved resolution a b ≡ resolved resolution b a }
{}

/// Of three values either two may be resolved first.
pub fn resolving_associates(resolution: Resolution, a: i64, b: i64, c: i64)
    ensures { resolved resolution (resolved resolution a b) c
        ≡ resolved resolution a (resolved resolution b c) }
{}

/// An identity of 64 bits changes nothing.
pub fn an_identity_changes_nothing(resolution: Resolution, value: i64)
    ensures { IfSome (identity_of resolution Width.W64) (λ identity. resolved resolution identity value ≡ value) }
{}

/// Values resolved one after another give the same in every order, but by the last one.
pub fn resolving_in_any_order(resolution: Resolution, old: i64)
    ensures { IsCommuting resolution
        → (values reordered : List ℤ)
        → All (FitsSigned w64) values → IsPermutation values reordered
        → resolved_all resolution old values ≡ resolved_all resolution old reordered }
{}

/// Values resolved one after another may be taken part by part.
pub fn resolving_part_by_part(resolution: Resolution, old: i64)
    ensures { (first second : List ℤ)
        → resolved_all resolution old (first ++ second)
        ≡ resolved_all resolution (resolved_all resolution old first) second }
{}

/// Partial results, which start at the identity of 64 bits, are resolved as all the values in them.
pub fn partial_results_merge(resolution: Resolution, old: i64)
    ensures one { (identity : ℤ) (values : List ℤ)
        → identity_of resolution Width.W64 ≡ Some identity → All (FitsSigned w64) values
        → resolved resolution old (resolved_all resolution identity values)
        ≡ resolved_all resolution old values }
    ensures several { (identity : ℤ) (parts : List (List ℤ))
        → identity_of resolution Width.W64 ≡ Some identity → All (All (FitsSigned w64)) parts
        → resolved_all resolution old (map (resolved_all resolution identity) parts)
        ≡ resolved_all resolution old (flat_map (λ values. values) parts) }
{}

ghost use Rattle.std.specs.Prelude.{◌≡◌, ◌≢◌, ◌↔◌, ◌<◌, ℕ, ℤ, pos, ◌+ℤ◌, ◌*ℤ◌, ◌≤ℤ◌, List, ◌∷◌, map, length, take, drop, sum};
ghost use Rattle.std.specs.List.{All, AllPairs, AllZip, Contains, flat_map};
ghost use Rattle.sd_range.specs.Affine.{affine_value};
ghost use Rattle.sd_range.specs.Range.{IsRange, range_values};
ghost use Rattle.sd_range.specs.Points.{tuples, points, product, Precedes, piece_of, first_values, points_of_pieces};
ghost use Rattle.sd_range.specs.declared.range.Range.{Range};

/// The values of a range are its begin and each whole number of steps more, up to each end.
pub fn values_are_steps_up_to_each_end()
    ensures { (r : Range) (values : List ℤ) (number : ℤ)
        → IsRange r
        → (Contains (range_values values r) number)
        ↔ ((steps : ℕ) × (number ≡ affine_value values r.begin +ℤ (pos steps *ℤ r.step))
        × All (λ end. number ≤ℤ affine_value values end) r.ends) }
{}

/// A tuple has one member of each list, and each such choice is a tuple.
pub fn tuples_choose_one_of_each()
    ensures members { (lists : List (List ℤ)) (tuple : List ℤ)
        → (Contains (tuples lists) tuple) ↔ (AllZip Contains lists tuple) }
    ensures count { (lists : List (List ℤ)) → length (tuples lists) ≡ product (map length lists) }
{}

/// The points of ranges come in lexicographic order, so each comes once.
pub fn points_are_in_lexicographic_order()
    ensures order { (ranges : List Range) (values : List ℤ) → All IsRange ranges → AllPairs Precedes (points ranges values) }
    ensures distinct { (ranges : List Range) (values : List ℤ) → All IsRange ranges → AllPairs (λ point later. point ≢ later) (points ranges values) }
{}

/// A piece keeps the points whose first number is among its values.
pub fn a_piece_has_the_points_of_its_values()
    ensures { (first count : ℕ) (firsts : List ℤ) (others : List (List ℤ)) (number : ℤ) (rest : List ℤ)
        → (Contains (tuples (piece_of first count (firsts ∷ others))) (number ∷ rest))
        ↔ ((Contains (tuples (firsts ∷ others)) (number ∷ rest)) × (Contains (take count (drop first firsts)) number)) }
{}

/// Pieces that follow each other over all values of the first parameter have all points, in order.
pub fn pieces_partition_the_points()
    ensures { (counts : List ℕ) (parameters : List (List ℤ))
        → 0 < length parameters
        → sum counts ≡ length (first_values parameters)
        → flat_map (λ piece. piece) (points_of_pieces 0 counts parameters) ≡ tuples parameters }
{}

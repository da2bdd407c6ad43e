ghost use Rattle.std.specs.Prelude.{◌≡◌, ◌↔◌, ℕ, ℤ, pos, ◌<ℤ◌, ◌≤ℤ◌, List, [], ◌∷◌, map, length, IsTrue};
ghost use Rattle.std.specs.List.{All, AllPairs, AllZip, Contains};
ghost use Rattle.sd_range.specs.Range.{range_values};
ghost use Rattle.sd_range.specs.Points.{product, Precedes};
ghost use Rattle.sd_range.specs.Subset.{IsDim, dim_values, elements, inside, whole};
ghost use Rattle.sd_range.specs.declared.affine.Affine.{Affine};
ghost use Rattle.sd_range.specs.declared.subset.Dim.TheVariants.{Index};
ghost use Rattle.sd_range.specs.declared.subset.Subset.{Subset};

/// An element of a subset has in each dimension one of its indices, and each such choice is one.
pub fn elements_choose_an_index_of_each_dimension()
    ensures members { (subset : Subset) (values index : List ℤ)
        → (Contains (elements subset values) index)
        ↔ (AllZip (λ dim number. Contains (dim_values values dim) number) subset.dims index) }
    ensures count { (subset : Subset) (values : List ℤ)
        → length (elements subset values) ≡ product (map (λ dim. length (dim_values values dim)) subset.dims) }
    ensures order { (subset : Subset) (values : List ℤ) → All IsDim subset.dims → AllPairs Precedes (elements subset values) }
{}

/// An index is inside where it has a number for each extent, from 0 to the extent less one:
/// exactly where it is one of all indices.
pub fn an_index_is_inside_where_each_number_is_one_of_its_extent()
    ensures numbers { (extents : List ℕ) (index : List ℤ)
        → (IsTrue (inside extents index))
        ↔ (AllZip (λ extent number. (pos 0 ≤ℤ number) × (number <ℤ pos extent)) extents index) }
    ensures members { (extents : List ℕ) (index : List ℤ) → (IsTrue (inside extents index)) ↔ (Contains (whole extents) index) }
    ensures count { (extents : List ℕ) → length (whole extents) ≡ product extents }
    ensures order { (extents : List ℕ) → AllPairs Precedes (whole extents) }
{}

/// An index has the values of the range from it to itself: its own alone.
pub fn an_index_has_the_values_of_a_range_of_one()
    ensures { (at : Affine) (values : List ℤ)
        → dim_values values (Index at) ≡ range_values values (record { begin = at; ends = at ∷ []; step = pos 1 }) }
{}
